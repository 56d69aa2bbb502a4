// Facts and rules marked by what the rules say. Internal.

#![tactic(auto)]

pub mod marks;
