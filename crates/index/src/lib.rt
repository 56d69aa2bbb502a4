// The rules of a program by literal: for each fact the rules in force that ask it in, and those that ask it out, each once and ascending.
// Internal: propagation follows them from each literal that becomes true.

#![tactic(auto)]

pub mod cells;
pub mod fill;
