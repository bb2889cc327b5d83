// The definitions on examples.
ghost use Rattle.rounds.specs.Examples.{ExamplesHold};

// What is told of some texts.
#[tactic(auto, using(crate::proofs::Computed::examples_hold))]
pub fn examples_hold()
    ensures { ExamplesHold }
{}
