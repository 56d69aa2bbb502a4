// Many guesses at once: a lane for each, a bit of eight words for each fact. Internal to the search.

#![tactic(auto)]

pub mod fit;
pub mod hold;
pub mod words;
