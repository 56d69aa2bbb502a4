// Writes one item into a lent buffer. Internal: the caller has seen that it fits.
ghost use Rattle.std.specs.Prelude.{◌≡◌, ◌∷◌, ◌+◌, ◌<◌, ◌≤◌, length};
ghost use Rattle.items.specs.Item.{narrow, max_facts, item_width, name_width, step_width};
ghost use Rattle.items.specs.Write.{fact_field, rule_field, rule_item, step_item, placed};

use crate::item::{BASE, FACT_BYTES, FactId, KIND_BYTES, Kind, RuleId};
use crate::lengths::{NAME_WIDTH, STEP_WIDTH};

// Where the low byte of the rule number stands, the last of an item: behind the high byte.
const NAME_LAST: usize = NAME_WIDTH - 1;

const STEP_LAST: usize = STEP_WIDTH - 1;

// Where the rule number of a step begins.
const STEP_RULE: usize = KIND_BYTES + FACT_BYTES;

// An item whose body is a fact number or a count of facts.
pub fn write_fact_body(out: &mut [u8], at: usize, kind: u8, number: u16)
    requires { (number < max_facts narrow) × (at + item_width narrow ≤ length out.old) }
    ensures { out.new ≡ placed (kind ∷ fact_field narrow number) at out.old }
{
    out[at] = kind; // Any byte, also one that is of no kind.
    out[at + KIND_BYTES] = number as u8;
}

// An item whose body is a rule number or a count of rules.
pub fn write_rule_body(out: &mut [u8], at: usize, kind: u8, number: u16)
    requires { at + name_width ≤ length out.old }
    ensures { out.new ≡ placed (kind ∷ rule_field number) at out.old }
{
    out[at] = kind; // Here too.
    out[at + KIND_BYTES] = (number / BASE) as u8;
    out[at + NAME_LAST] = (number % BASE) as u8;
}

// An item that names a rule.
pub fn write_rule_item(out: &mut [u8], at: usize, rule: RuleId)
    requires { at + name_width ≤ length out.old }
    ensures { out.new ≡ placed (rule_item rule.0) at out.old }
{
    write_rule_body(out, at, Kind::Names.byte(), rule.0);
}

// A step.
pub fn write_step_item(out: &mut [u8], at: usize, fact: FactId, rule: RuleId)
    requires { (fact.0 < max_facts narrow) × (at + step_width narrow ≤ length out.old) }
    ensures { out.new ≡ placed (step_item narrow fact.0 rule.0) at out.old }
{
    let number = rule.0;
    out[at] = Kind::Step.byte();
    out[at + KIND_BYTES] = fact.0 as u8;
    out[at + STEP_RULE] = (number / BASE) as u8;
    out[at + STEP_LAST] = (number % BASE) as u8;
}
