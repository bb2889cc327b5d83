// Whether a line of a task text is allowed after those before it, and what it says.
#![tactic(auto)]

pub mod names;
pub mod reading;
pub mod standing;
