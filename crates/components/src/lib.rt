// Strong components of a program's dependencies, sets of facts each of which depends on each other: open facts on a stack, what their rules say, and
// how a component is closed. Internal.

#![tactic(auto)]

pub mod close;
pub mod look;
pub mod open;
