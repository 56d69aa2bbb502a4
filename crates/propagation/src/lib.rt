// The least set of a reduct by propagation: a fact held out makes true the literals that ask it out, each literal that is true is missing no
// more in the bodies where it stands, and a rule that misses nothing makes its conclusion true. Internal: the search holds facts out one after
// another and keeps what it has; the judge holds out all that are not in the set.

#![tactic(auto)]

pub mod hold;
pub mod none;
mod spread;
