// The tables of a program, where each part of them begins, and their counts.
ghost use Rattle.std.specs.Prelude.{◌≡◌};
ghost use Rattle.tables.specs.Layout.{WellFormed};

use items::item::{MAX_FACTS, MAX_RULE_ITEMS, MAX_RULES};

// The most premises and constraints of all rules of a file together, repeats counted.
pub const MAX_OWN: usize = MAX_RULE_ITEMS * MAX_RULES;

pub const FACTS_CELL: usize = 0;

pub const RULES_CELL: usize = FACTS_CELL + 1;

pub const CONCLUSIONS: usize = RULES_CELL + 1;

pub const PLACES: usize = CONCLUSIONS + MAX_RULES;

pub const PREMISE_STARTS: usize = PLACES + MAX_RULES;

pub const CONSTRAINT_STARTS: usize = PREMISE_STARTS + (MAX_RULES + 1);

// 1 for each fact that is unread, and for each rule that is withheld.
pub const UNREAD: usize = CONSTRAINT_STARTS + (MAX_RULES + 1);

pub const WITHHELD: usize = UNREAD + MAX_FACTS;

// The premises of all rules from the front, the constraints of all rules from the back.
pub const OWN: usize = WITHHELD + MAX_RULES;

pub const TABLE_CELLS: usize = OWN + MAX_OWN;

pub const LAST_CELL: usize = TABLE_CELLS - 1;

// The program of a file in one array of numbers, which whoever works on the program is lent.
#[derive(Drop)]
pub struct Tables {
    pub cells: [u16; TABLE_CELLS],
    pub ghost well_formed: { WellFormed cells },
}

// A number as an index: the check asks nothing of an argument's range.
pub fn wide(number: u16) -> usize
    ensures { result ≡ number }
{
    number as usize
}
