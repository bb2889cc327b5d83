// The facts of a program's task, and what a visit of it can cost.
ghost use Rattle.program.specs.Sound.{task_of};
ghost use Rattle.program.specs.Programs.{program_source};
ghost use Rattle.facts.specs.Bounds.{Found};
ghost use Rattle.facts.specs.Most.{IsMost, no_counts};
ghost use Rattle.facts.specs.Passes.{Passed};
ghost use Rattle.facts.specs.Sets.{has};
ghost use Rattle.facts.specs.Touched.{IsTouched, untouched};

use crate::costs::TaskFacts;
use crate::most::{Counts, Most};
use crate::pass::{LEAST_SCRATCH, ShortScratch, pass};
use crate::set::VariableSet;
use crate::touched::{Touched, Touches};
use program::program::Program;
use program::statement::Task;

// What the task writes and reads on its paths, and what it logs.
#[tactic(auto, using(crate::proofs::TaskFacts::touched_found))]
pub fn touched_of(
    program: &Program,
    task: Task,
    scratch: &mut [Touches],
) -> Result<Touches, ShortScratch>
    ensures { Passed untouched (IsTouched (task_of (program_source program.now) task.number)) scratch.old result scratch.new }
{
    pass(&Touched, program, task, scratch)
}

// The most emits on a path of the task, and the most sets of variables outside `logged`.
#[tactic(auto, using(crate::proofs::TaskFacts::most_found))]
pub fn most_of(
    program: &Program,
    task: Task,
    logged: VariableSet,
    scratch: &mut [Counts],
) -> Result<Counts, ShortScratch>
    ensures { Passed no_counts (IsMost (has logged) (task_of (program_source program.now) task.number)) scratch.old result scratch.new }
{
    pass(&Most { logged }, program, task, scratch)
}

// What the task logs, and the most that its paths emit and store. Both slices are looked at before either is used.
pub fn facts_of(
    program: &Program,
    task: Task,
    touched: &mut [Touches],
    most: &mut [Counts],
) -> Result<TaskFacts, ShortScratch>
    ensures { Found (task_of (program_source program.now) task.number) touched.old most.old result touched.new most.new }
{
    if most.len() < LEAST_SCRATCH {
        return Err(ShortScratch);
    }
    let logged = touched_of(program, task, touched)?.logged;
    let Counts { emits, direct } = most_of(program, task, logged, most)?;
    Ok(TaskFacts {
        logged,
        emits,
        direct,
    })
}
