// The definitions on examples.
ghost use Rattle.facts.specs.Examples.{ExamplesHold};

// What facts come to over the paths of examples.
#[tactic(auto, unfolding(crate::specs::Sets::empty, crate::specs::Sets::union, crate::specs::Sets::intersection, crate::specs::Sets::difference, crate::specs::Touched::read_by, crate::specs::Touched::written_to))]
pub fn examples_hold()
    ensures { ExamplesHold }
{}
