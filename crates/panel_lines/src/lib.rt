// The lines of the panel's text, each written at a place of a buffer. Internal.

#![tactic(auto)]

pub mod put;
