// The reader that moves past one whole item at a time.

#![tactic(auto)]

pub mod cursor;
