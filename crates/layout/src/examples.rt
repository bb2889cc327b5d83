// The definitions on examples.
ghost use Rattle.layout.specs.Examples.{ExamplesHold};

// The words of a chain, and which logs are astray.
#[tactic(auto, using(crate::proofs::Computed::examples_hold))]
pub fn examples_hold()
    ensures { ExamplesHold }
{}
