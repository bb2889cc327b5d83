// The definitions on examples.
ghost use Rattle.rules.specs.Examples.{ExamplesHold};

// What tasks' facts and a program's bounds come to on examples.
#[tactic(auto, unfolding(crate::specs::Known::task_facts))]
pub fn examples_hold()
    ensures { ExamplesHold }
{}
