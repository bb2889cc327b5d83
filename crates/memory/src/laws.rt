// The definitions on examples.
ghost use Rattle.memory.specs.Examples.{ExamplesHold};

// What faults and a memory's value come to on examples.
pub fn examples_hold()
    ensures { ExamplesHold }
{}
