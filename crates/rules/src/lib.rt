// A program with what is known of its tasks: what the compiler of task texts answers, and what a cabinet takes.
#![tactic(auto)]

pub mod examples;
pub mod rules;
