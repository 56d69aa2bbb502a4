// The questions on fact sets, proof rows and buffers, and the definitions of all questions beside the file's.

#![tactic(auto)]

pub mod buffers;
pub mod fact_set;
pub mod row;
pub mod whole;
