// Programs of lending tasks: their statements, and how a program is made of them.
#![tactic(auto)]

pub mod check;
pub mod draft;
pub mod program;
mod span;
pub mod statement;
