// The tables of a program, and what a rule says of a set. Internal.

#![tactic(auto)]

pub mod counts;
pub mod layout;
pub mod own;
pub mod rule;
