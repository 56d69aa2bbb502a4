// Items: fact and rule numbers, the items of a file and of what stands beside it, the refusals, and the bytes that are
// written. Nothing here knows what a rule means.

#![tactic(auto)]

pub mod item;
pub mod lengths;
pub mod refusal;
pub mod write;
