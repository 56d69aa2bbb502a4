// Where each part of the index begins.
use bits::row::ROW_WORDS;
use items::item::{MAX_FACTS, MAX_RULES};

// A fact in, and a fact out.
pub const LITERALS: usize = 2 * MAX_FACTS;

// Before the marks of the rules in force there is a row of bits for each literal.
pub const MARKS: usize = LITERALS * ROW_WORDS;

pub const INDEX_WORDS: usize = MARKS + MAX_RULES;
