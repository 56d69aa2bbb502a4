// Orders and lists of rules: their questions, those of a run behind the file's, and how they are written.

#![tactic(auto)]

pub mod asked;
mod names;
pub mod order;
pub mod row;
pub mod write;
