// The forms of a task text's lines, and the names and numbers in them.
#![tactic(auto)]

pub mod examples;
pub mod form;
pub mod keyword;
pub mod word;
