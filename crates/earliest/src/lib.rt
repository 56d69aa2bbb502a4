// The earliest stable set of a file: the sets of constraint facts are guessed in ascending order, the highest-numbered fact as the highest bit. First each guess
// by itself, with what its conflict refutes passed over; where that does not decide it soon, the rest in blocks. Internal.

#![tactic(auto)]

pub mod guessed;
pub mod root;
