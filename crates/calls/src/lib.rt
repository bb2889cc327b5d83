// What a cabinet's calls answer, and by which definitions.
#![tactic(auto)]

pub mod answer;
pub mod due;
pub mod examples;
pub mod held_laws;
pub mod refusal;
pub mod step_laws;
pub mod unready;
