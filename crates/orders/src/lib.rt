// Orders of the exception rules that are handed out: the rules by key, then by number. Internal.

#![tactic(auto)]

mod by_key;
mod groups;
pub mod ranks;
pub mod written;
