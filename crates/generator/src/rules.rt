// The rules of a load, written one after another. Internal.
ghost use Rattle.std.specs.Prelude.{◌≡◌, ◌+◌, ◌*◌, ◌≤◌, length};
ghost use Rattle.items.specs.Item.{narrow, item_width, max_rules, kind_number};
ghost use Rattle.generator.specs.Outcome.{load_length};
ghost use Rattle.generator.specs.Drawing.{Divides, first_kind, second_kind, RuleWritten, RulesWritten};

use crate::draw::{Modulus, fact_of, step};
use items::item::Kind;
use items::lengths::ITEM_WIDTH;
use items::write::write_fact_body;

// The bytes of a rule: its conclusion and two items more.
pub const RULE_LENGTH: usize = 3 * ITEM_WIDTH;

// The two items are of these kinds, by turns.
const TURNS: usize = 3;

fn kinds_at(turn: usize) -> (Kind, Kind)
    ensures { (kind_number result.0 ≡ first_kind turn) × (kind_number result.1 ≡ second_kind turn) }
{
    match turn {
        0 => (Kind::Constraint, Kind::Constraint),
        1 => (Kind::Premise, Kind::Premise),
        _ => (Kind::Premise, Kind::Constraint),
    }
}

// Draws a rule from a state and writes it at a place. Answers the state behind its draws.
fn write_rule(out: &mut [u8], at: usize, state: u32, turn: usize, by: Modulus) -> u32
    requires { Divides by × (at + 3 * item_width narrow ≤ length out.old) }
    ensures { RuleWritten by.facts state turn at out.old result out.new }
{
    let first = step(state);
    let second = step(first);
    let third = step(second);
    let kinds = kinds_at(turn);
    write_fact_body(out, at, Kind::Opens.byte(), fact_of(first, by));
    write_fact_body(out, at + ITEM_WIDTH, kinds.0.byte(), fact_of(second, by));
    write_fact_body(out, at + 2 * ITEM_WIDTH, kinds.1.byte(), fact_of(third, by));
    third
}

// Draws so many rules from a start and writes them behind the count of facts.
pub fn write_rules(out: &mut [u8], start: u32, rules: usize, by: Modulus)
    requires { Divides by × (rules ≤ max_rules) × (load_length rules ≤ length out.old) }
    ensures { RulesWritten start by.facts rules out.old out.new }
{
    let mut state = start;
    for i in 0..rules {
        let at = ITEM_WIDTH + RULE_LENGTH * i;
        state = write_rule(out, at, state, i % TURNS, by);
    }
}
