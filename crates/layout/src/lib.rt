// Where a program's words stand in a cabinet's memory, and the log of a commit.
#![tactic(auto)]

pub mod chain;
pub mod examples;
pub mod laws;
pub mod layout;
pub mod store;
