// What a run writes at its end: the marks of facts and of rules, and the steps. Internal.

#![tactic(auto)]

pub mod marks;
pub mod steps;
pub mod written;
