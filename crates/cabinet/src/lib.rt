// The cabinet: one accepted program on one memory, carried on after any cut.
#![tactic(auto)]

mod attempt;
pub mod cabinet;
mod fitting;
pub mod lay;
mod log;
mod phase;
mod state;
mod work;
