// A stage of a run: the first rule of an order that is eligible, by its trial. Internal.

#![tactic(auto)]

pub mod eligible;
pub mod staged;
mod trial;
