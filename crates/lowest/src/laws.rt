// Laws of the lowest memories. Each function stands for one: its contract is the law.
ghost use Rattle.lowest.specs.Examples.{ExamplesHold};
ghost use Rattle.lowest.specs.Image.{WordsTellBytes};

// Bytes with none over are known by their words.
#[tactic(auto, using(crate::proofs::InBytes::words_tell_bytes))]
pub fn words_tell_bytes_stands()
    ensures { WordsTellBytes }
{}

// What the definitions that the contracts cite come to on examples.
pub fn examples_hold()
    ensures { ExamplesHold }
{}
