// The premises and the constraints of a rule.
ghost use Rattle.std.specs.Prelude.{◌<◌, ◌≤◌, ◌≡◌, true, length, get_or, ltb, reverse};
ghost use Rattle.theory.specs.Rule.{all, count, rule as rule_of};
ghost use Rattle.tables.specs.Layout.{max_own, premise_at, constraint_at};
ghost use Rattle.tables.specs.Held.{held};

use crate::layout::{CONSTRAINT_STARTS, LAST_CELL, OWN, PREMISE_STARTS, TABLE_CELLS, Tables, wide};
use items::item::RuleId;

impl Tables {
    // Its premises, in the order of the file.
    pub fn premises(&self, rule: RuleId) -> &[u16]
        requires { rule.0 < count (held self.now) }
        ensures elements { result.now ≡ (rule_of (held self.now) rule.0).premises }
        ensures few { length result.now ≤ max_own }
        ensures facts_below { all (λ f. ltb f (held self.now).facts) result.now ≡ true }
    {
        let number = rule.0 as usize;
        let next = number + 1;
        let from = wide(self.cells[PREMISE_STARTS + number]);
        let end = wide(self.cells[PREMISE_STARTS + next]);
        &self.cells[OWN + from..OWN + end]
    }

    // Its constraints, the last one first, as they stand. Alike but for the starts and the end of the row that they are counted from: one function for both would take these.
    pub fn constraints(&self, rule: RuleId) -> &[u16]
        requires { rule.0 < count (held self.now) }
        ensures elements { result.now ≡ reverse (rule_of (held self.now) rule.0).constraints }
        ensures few { length result.now ≤ max_own }
        ensures facts_below { all (λ f. ltb f (held self.now).facts) result.now ≡ true }
    {
        let number = rule.0 as usize;
        let next = number + 1;
        let from = wide(self.cells[CONSTRAINT_STARTS + number]);
        let end = wide(self.cells[CONSTRAINT_STARTS + next]);
        &self.cells[TABLE_CELLS - end..TABLE_CELLS - from]
    }
}

// The constraint of a rule at a place in the order of the file. The walks that end early take this order, as the file has it.
pub fn in_file_order(own: &[u16], place: usize) -> u16
    requires { place < length own.now }
    ensures { result ≡ get_or (reverse own.now) place 0 }
{
    own[own.len() - 1 - place]
}

// The premise at a place of the row of all premises, whatever rule it is of, and whether or not the cells hold a program.
pub fn premise_at(cells: &[u16; TABLE_CELLS], place: usize) -> usize
    requires { place < max_own }
    ensures { result ≡ premise_at cells.now place }
{
    wide(cells[OWN + place])
}

// The constraint at a place of the row of all constraints, likewise.
pub fn constraint_at(cells: &[u16; TABLE_CELLS], place: usize) -> usize
    requires { place < max_own }
    ensures { result ≡ constraint_at cells.now place }
{
    wide(cells[LAST_CELL - place])
}
