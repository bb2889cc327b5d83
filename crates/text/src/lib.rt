// A task text: its bytes, its lines and their tokens, and why a text is refused.
#![tactic(auto)]

pub mod lex;
pub mod reader;
pub mod refusal;
