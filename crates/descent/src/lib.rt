// The walk down the dependencies of all facts: it finds the least ranks of the facts as it closes their components, or meets a cycle through a constraint.
// Internal.

#![tactic(auto)]

pub mod walk;
