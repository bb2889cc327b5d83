// What a memory is that may lose power at any store, and why it refuses.
#![tactic(auto)]

pub mod doubt;
pub mod fault;
pub mod interface;
pub mod laws;
pub mod light;
pub mod through;
