// The guesses one after another, each by propagation: what a guess derives, what a conflict refutes beside it, and the first guess that fits as far as the
// nogoods that are kept decide it. Internal to the search.

#![tactic(auto)]

mod bounds;
pub mod compared;
mod descend;
pub mod first;
pub mod guesses;
mod learn;
mod propagate;
