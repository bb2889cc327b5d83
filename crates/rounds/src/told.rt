// The law of the rounds.
ghost use Rattle.std.specs.Prelude.{List, ℕ};
ghost use Rattle.rounds.specs.Laws.{TextTold};

// A text is accepted exactly when no round has an offence. What is told of any other is the first offence of the first round that has one.
#[tactic(auto, using(crate::proofs::Laws::text_told))]
pub fn text_told_stands()
    ensures { (text : List ℕ) → TextTold text }
{}
