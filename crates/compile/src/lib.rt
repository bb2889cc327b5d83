// From a task text to a program, or its first offence.
#![tactic(auto)]

pub mod compile;
mod ending;
mod passes;
mod reading;
mod scratch;
