// Guesses as numbers, and nogoods: what a conflict refutes beside the guess at hand, so that the guesses can be taken in ascending order and most of them
// passed over. Numbers alone; internal to the search.

#![tactic(auto)]

pub mod guess;
pub mod nogood;
