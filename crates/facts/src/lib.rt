// Facts over all paths of a task: one pass for every kind of fact, and the two kinds that a task is asked for.
#![tactic(auto)]

pub mod costs;
pub mod examples;
pub mod kind;
pub mod most;
pub mod pass;
pub mod set;
pub mod tasks;
pub mod touched;
