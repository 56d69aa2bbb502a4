// The one operator of the engine over the tables of a program: from a set of facts, the lowest-numbered plain rule in force with its premises in
// the set and its conclusion not adds its conclusion, as long as there is one. The rules are found by fact. Internal: the operations above lend
// the memory.

#![tactic(auto)]

pub mod least;
pub mod start;
pub mod turn;
