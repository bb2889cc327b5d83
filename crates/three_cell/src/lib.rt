// A memory that keeps each word in three cells of another, and so makes a whole memory of any lawful one.
#![tactic(auto)]

pub mod making;
pub mod memories;
mod site;
