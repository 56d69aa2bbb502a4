// A case of the test program: its rows, the call that it asks for, and whether the reply and every byte are as it expects. Internal.

#![tactic(auto)]

pub mod call;
pub mod read;
