// What the scan of a file stores: rules, counts and unread facts in the tables, and marks of facts in its scratch memory. Internal.

#![tactic(auto)]

ghost use Rattle.std.specs.Prelude.{◌≡◌, ◌<◌, ◌≤◌, set};
ghost use Rattle.items.specs.Item.{narrow, max_facts, max_rules, max_bytes};
ghost use Rattle.tables.specs.Layout.{max_own};
ghost use Rattle.stores.specs.Stores.{with_starts, with_rule, with_counts, with_unread, withholding, unread_mark, is_unread, with_mark};

use items::item::MAX_FACTS;
use tables::layout::{
    CONCLUSIONS, CONSTRAINT_STARTS, FACTS_CELL, PLACES, PREMISE_STARTS, RULES_CELL, TABLE_CELLS,
    UNREAD, WITHHELD,
};

// Where the premises and the constraints of a rule start; past the last rule, where they end.
fn store_starts(cells: &mut [u16; TABLE_CELLS], rule: usize, premises: usize, constraints: usize)
    requires { (rule ≤ max_rules) × (premises ≤ max_own) × (constraints ≤ max_own) }
    ensures { cells.new ≡ with_starts cells.old rule premises constraints }
{
    cells[PREMISE_STARTS + rule] = premises as u16;
    cells[CONSTRAINT_STARTS + rule] = constraints as u16;
}

// A rule that is opened: its conclusion, and the place in the file where its other items start.
pub fn store_rule(
    cells: &mut [u16; TABLE_CELLS],
    rule: usize,
    conclusion: u16,
    place: usize,
    premises: usize,
    constraints: usize,
)
    requires { (rule < max_rules) × (place ≤ max_bytes) × (premises ≤ max_own) × (constraints ≤ max_own) }
    ensures { cells.new ≡ with_rule cells.old rule conclusion place premises constraints }
{
    cells[CONCLUSIONS + rule] = conclusion;
    cells[PLACES + rule] = place as u16;
    store_starts(cells, rule, premises, constraints);
}

// The counts, once every rule is stored.
pub fn store_counts(
    cells: &mut [u16; TABLE_CELLS],
    facts: u16,
    rules: u16,
    premises: usize,
    constraints: usize,
)
    requires { (rules ≤ max_rules) × (premises ≤ max_own) × (constraints ≤ max_own) }
    ensures { cells.new ≡ with_counts cells.old facts rules premises constraints }
{
    store_starts(cells, rules as usize, premises, constraints);
    cells[FACTS_CELL] = facts;
    cells[RULES_CELL] = rules;
}

// The marks of the scan's scratch memory: a fact that is a constraint of some rule, and one that is unread.
// Numbers and no enum: the memory is read and counted as a set of facts, by `has` and `count_marked`, 1 in and 0 out.
const CONSTRAINT: u8 = 1;

const UNREAD_FACT: u8 = 2;

// A fact that is unread.
pub fn store_unread(cells: &mut [u16; TABLE_CELLS], marks: &mut [u8; MAX_FACTS], fact: u16)
    requires { fact < max_facts narrow }
    ensures cells_after { cells.new ≡ with_unread cells.old fact }
    ensures marks_after { marks.new ≡ set marks.old fact unread_mark }
{
    let number = fact as usize;
    cells[UNREAD + number] = 1;
    marks[number] = UNREAD_FACT;
}

// A constraint of the last of so many rules: where it is unread the rule is withheld, else the fact is marked. One read of its mark tells both.
pub fn mark_constraint(
    cells: &mut [u16; TABLE_CELLS],
    marks: &mut [u8; MAX_FACTS],
    rules: usize,
    fact: u16,
)
    requires { (0 < rules) × (rules ≤ max_rules) × (fact < max_facts narrow) }
    ensures cells_after { cells.new ≡ withholding cells.old rules (is_unread marks.old fact) }
    ensures marks_after { marks.new ≡ with_mark marks.old fact }
{
    let number = fact as usize;
    if marks[number] == UNREAD_FACT {
        cells[WITHHELD + (rules - 1)] = 1;
        return;
    }
    marks[number] = CONSTRAINT;
}
