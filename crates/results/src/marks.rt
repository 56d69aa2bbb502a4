// The marks that a run writes. Internal.
ghost use Rattle.std.specs.Prelude.{◌≤◌, ◌<◌, ◌≡◌, true, length, eqb};
ghost use Rattle.theory.specs.Rule.{mem, up_to, how_many, Program, in_force, count};
ghost use Rattle.theory.specs.Run.{Stand, rejected, set_aside, rule_mark, marks_of_facts, marks_of_rules};
ghost use Rattle.items.specs.Item.{narrow, max_facts, has};
ghost use Rattle.tables.specs.Held.{held};
ghost use Rattle.marking.specs.Marks.{barred_in};
ghost use Rattle.items.specs.Write.{over};
ghost use Rattle.results.specs.Marks.{mark_number};

use items::item::{MAX_FACTS, MAX_RULES, RuleId};
use marking::marks::{BARRED, IN};
use tables::layout::Tables;

// Fact marks: 1 in D, 2 in R, 0 open.
// The row is lent whole, with the count beside it, since `has` reads the whole row as one set of facts.
pub fn write_fact_marks(marks: &[u8; MAX_FACTS], facts: usize, out: &mut [u8])
    requires { (facts ≤ max_facts narrow) × (facts ≤ length out.old) }
    ensures { (P : Program) (s : Stand) → facts ≡ P.facts → has marks.now ≡ s.derived → barred_in marks.now ≡ rejected P s.applied → out.new ≡ over (marks_of_facts P s) out.old }
{
    for (f, &mark) in marks[..facts].iter().enumerate() {
        out[f] = match mark {
            IN => 1,
            BARRED => 2,
            _ => 0,
        };
    }
}

// Rule marks: the number of a case is the document's.
#[derive(Clone, Copy, Debug, PartialEq, Eq)]
enum RuleMark {
    Plain = 0,
    Applied = 1,
    SetAside = 2,
    Other = 3,
    Withheld = 4,
}

impl RuleMark {
    fn number(self) -> u8
        ensures { result ≡ mark_number self }
    {
        self as u8
    }
}

// Of a rule in force: are its premises in D, and none of its constraints and not its conclusion?
fn is_set_aside(tables: &Tables, rule: RuleId, derived: &[u8; MAX_FACTS]) -> bool
    requires rule_known { rule.0 < count (held tables.now) }
    requires tables_in_bounds { (held tables.now).facts ≤ length derived.now }
    requires rule_value { in_force (held tables.now) rule.0 ≡ true }
    ensures { result ≡ set_aside (held tables.now) (in_force (held tables.now)) (has derived.now) rule.0 }
{
    if !tables.premises_in(rule, derived) {
        return false;
    }
    if !tables.constraints_clear(rule, derived) {
        return false;
    }
    !tables.conclusion_in(rule, derived)
}

// The mark of one rule: the first test that holds tells it.
fn rule_mark(tables: &Tables, rule: RuleId, applied: bool, derived: &[u8; MAX_FACTS]) -> RuleMark
    requires rule_known { rule.0 < count (held tables.now) }
    requires tables_in_bounds { (held tables.now).facts ≤ length derived.now }
    ensures { (s : Stand) → applied ≡ mem rule.0 s.applied → has derived.now ≡ s.derived → mark_number result ≡ rule_mark (held tables.now) (in_force (held tables.now)) s rule.0 }
{
    if !tables.is_exception(rule) {
        return RuleMark::Plain;
    }
    if applied {
        return RuleMark::Applied;
    }
    if tables.is_withheld(rule) {
        return RuleMark::Withheld;
    }
    if is_set_aside(tables, rule, derived) {
        return RuleMark::SetAside;
    }
    RuleMark::Other
}

// The mark of each rule.
pub fn write_rule_marks(
    tables: &Tables,
    applied: &[u8; MAX_RULES],
    derived: &[u8; MAX_FACTS],
    out: &mut [u8],
)
    requires tables_in_bounds { (held tables.now).facts ≤ length derived.now }
    requires tables_in_bounds_2 { count (held tables.now) ≤ length out.old }
    ensures { (s : Stand) → has applied.now ≡ (λ i. mem i s.applied) → has derived.now ≡ s.derived → out.new ≡ over (marks_of_rules (held tables.now) (in_force (held tables.now)) s) out.old }
{
    let rules = tables.rules();
    for i in 0..rules {
        out[i] = rule_mark(tables, RuleId(i as u16), applied[i] == 1, derived).number();
    }
}

// How many rules are set aside: those with that mark.
pub fn count_set_aside(
    tables: &Tables,
    applied: &[u8; MAX_RULES],
    derived: &[u8; MAX_FACTS],
) -> usize
    requires tables_in_bounds { (held tables.now).facts ≤ length derived.now }
    ensures { (s : Stand) → has applied.now ≡ (λ i. mem i s.applied) → has derived.now ≡ s.derived → result ≡ how_many (λ i. eqb (rule_mark (held tables.now) (in_force (held tables.now)) s i) 2) (up_to (count (held tables.now))) }
{
    let rules = tables.rules();
    let mut n: usize = 0;
    for i in 0..rules {
        if rule_mark(tables, RuleId(i as u16), applied[i] == 1, derived) == RuleMark::SetAside {
            n += 1;
        }
    }
    n
}
