// Rules by premise, with the count of premises that each still lacks: as facts enter a set, exactly the rules whose premises are all in it wake.
// Internal: a rule is known by its place, in an order or among all rules.

#![tactic(auto)]

pub mod fill;
pub mod plain;
pub mod wake;
