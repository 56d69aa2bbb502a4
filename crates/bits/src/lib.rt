// Rows of bits, a bit for each rule number or place of a row of rules. Internal: they hold what waits to be looked at.

#![tactic(auto)]

pub mod matrix;
pub mod row;
pub mod word;
