// The rounds over a task text: what it says, and its first offence.
#![tactic(auto)]

pub mod examples;
pub mod told;
