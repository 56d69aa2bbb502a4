// The steps of a run that are kept for a fact. Internal.

#![tactic(auto)]

pub mod keep;
