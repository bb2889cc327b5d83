// Three cells to a unit: the rule, over any unit that can be compared and copied, and what it comes to over a memory.
#![tactic(auto)]

pub mod laws;
pub mod triple;
