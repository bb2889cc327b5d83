// Laws of the calls. Each function stands for one: its contract is the law, so that the check asks for the proof.
ghost use Rattle.calls.specs.Laws.{EntriesTell, RunningIsPlain, StaysLawful, ViewAtStart};

// A lawful cabinet stays lawful under every call.
#[tactic(auto, using(crate::proofs::Keeps::took_keeps))]
pub fn stays_lawful_stands()
    ensures { StaysLawful }
{}

// A running step is the plain machine's step on what the attempt sees.
#[tactic(auto, using(crate::proofs::Plainly::running_is_plain))]
pub fn running_is_plain_stands()
    ensures { RunningIsPlain }
{}

// What an attempt sees that begins is what a visit of the plain machine begins with.
#[tactic(auto, using(crate::proofs::Plainly::view_at_start))]
pub fn view_at_start_stands()
    ensures { ViewAtStart }
{}

// The entries of a commit, at their places, tell the attempt that is committed.
#[tactic(auto, using(crate::proofs::Stored::entries_tell))]
pub fn entries_tell_stands()
    ensures { EntriesTell }
{}
