// Laws of all runs of a task. Each function stands for one law: its contract is the law, so that the check asks for the proof.
#![tactic(auto)]

ghost use Rattle.laws.specs.Again.{TakesAPath, PathsShort, EmitsCounted, KeepsUnwritten, LoggedTested, UnloggedUnread, RunsAgain, EndsAgain};
ghost use Rattle.laws.specs.Endings.{EndsOnce};
ghost use Rattle.laws.specs.Views.{ViewsStep, ViewsRun};
ghost use Rattle.laws.specs.Examples.{ExamplesHold};
ghost use Rattle.laws.specs.Signs.{SignsTell};

// The path that a run takes is one of the task's paths.
pub fn takes_a_path_stands()
    ensures { TakesAPath }
{}

// A path has no more statements than its task.
#[tactic(auto, using(crate::proofs::Paths::paths_short))]
pub fn paths_short_stands()
    ensures { PathsShort }
{}

// Every path of a well-formed task ends in an ending, and has no other.
#[tactic(auto, using(crate::proofs::Endings::ends_once_stands))]
pub fn ends_once_stands()
    ensures { EndsOnce }
{}

// A run adds to the record one word for each emit on its path.
#[tactic(auto, using(crate::proofs::Kept::emits_counted))]
pub fn emits_counted_stands()
    ensures { EmitsCounted }
{}

// A run alters no variable that its path does not write.
pub fn keeps_unwritten_stands()
    ensures { KeepsUnwritten }
{}

// The write-after-read rule logs exactly the variables that its test finds.
#[tactic(auto, using(crate::proofs::Paths::logged_tested))]
pub fn logged_tested_stands()
    ensures { LoggedTested }
{}

// A variable that a path writes and that is not logged is not read on that path before it is written.
#[tactic(auto, using(crate::proofs::Paths::unlogged_unread))]
pub fn unlogged_unread_stands()
    ensures { UnloggedUnread }
{}

// A run from altered variables that its path does not read before it writes them takes the same path and does the same.
pub fn runs_again_stands()
    ensures { RunsAgain }
{}

// If its path writes all the altered variables, it ends the same.
pub fn ends_again_stands()
    ensures { EndsAgain }
{}

// A statement on working copies and memory does to what it sees what it does to a run.
#[tactic(auto, using(crate::proofs::Views::views_step))]
pub fn views_step_stands()
    ensures { ViewsStep }
{}

// So does a whole task.
#[tactic(auto, using(crate::proofs::Views::views_run))]
pub fn views_run_stands()
    ensures { ViewsRun }
{}

// A sign tells its operator, or its comparison.
#[tactic(auto, using(crate::proofs::Signs::signs_tell))]
pub fn signs_tell_stands()
    ensures { SignsTell }
{}

// What runs, paths and the write-after-read rule come to on examples.
#[tactic(auto, using(crate::proofs::Examples::examples_hold))]
pub fn examples_hold()
    ensures { ExamplesHold }
{}
