// The guesses that are left, 512 at once: the lanes of a block are settled together, and the first lane whose guess fits is taken. Internal to the search.

#![tactic(auto)]

pub mod find;
mod order;
mod settle;
