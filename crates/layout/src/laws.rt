// The law of the log. The function stands for it: its contract is the law, so that the check asks for the proof.
ghost use Rattle.layout.specs.Laws.{AstrayTells};

// What open looks for in a log is not there exactly when the log is whole.
#[tactic(auto, using(crate::proofs::Chains::astray_tells))]
pub fn astray_tells_stands()
    ensures { AstrayTells }
{}
