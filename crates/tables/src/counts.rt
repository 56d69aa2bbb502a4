// The counts of a program, and the tables of the program that has nothing.
ghost use Rattle.std.specs.Prelude.{◌≡◌, List, ℕ, replicate};
ghost use Rattle.theory.specs.Rule.{count};
ghost use Rattle.tables.specs.Layout.{table_cells};
ghost use Rattle.tables.specs.Held.{held};

use crate::layout::{FACTS_CELL, RULES_CELL, TABLE_CELLS, Tables, wide};

impl Tables {
    // The tables of a program without facts and rules, which has 0 in every cell.
    pub fn empty() -> Tables
        ensures { ◌≡◌ {A = List ℕ} result.cells (replicate table_cells 0) }
    {
        Tables {
            cells: [0; TABLE_CELLS],
        }
    }

    // The count of facts.
    pub fn facts(&self) -> usize
        ensures { result ≡ (held self.now).facts }
    {
        wide(self.cells[FACTS_CELL])
    }

    // The count of rules.
    pub fn rules(&self) -> usize
        ensures { result ≡ count (held self.now) }
    {
        wide(self.cells[RULES_CELL])
    }
}
