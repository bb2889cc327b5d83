// The plain lending machine: it runs programs and never loses power.
#![tactic(auto)]

mod frame;
pub mod machine;
pub mod visit;
pub mod visit_laws;
