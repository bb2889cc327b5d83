// The lowest memories: plain words in a list, and an image in bytes.
#![tactic(auto)]

pub mod backing;
pub mod laws;
pub mod memories;
