// The definitions on examples.
ghost use Rattle.calls.specs.Examples.{ExamplesHold};

// What lay, open, begin and steps come to on the due-date rule.
#[tactic(auto, using(crate::proofs::Computed::examples_hold))]
pub fn examples_hold()
    ensures { ExamplesHold }
{}
