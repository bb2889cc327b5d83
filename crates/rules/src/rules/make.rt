// How rules are made of a program, and what they hold.
ghost use Rattle.std.specs.Prelude.{◌≡◌, length};
ghost use Rattle.std.specs.List.{slice_get};
ghost use Rattle.words.specs.Lists.{items};
ghost use Rattle.program.specs.Programs.{program_source};
ghost use Rattle.program.specs.Sound.{task_of};
ghost use Rattle.rules.specs.Known.{FactsTold};
ghost use Rattle.rules.specs.Made.{Added, Made};

use crate::rules::Rules;
use facts::costs::TaskFacts;
use facts::most::Counts;
use facts::pass::ShortScratch;
use facts::tasks::facts_of;
use facts::touched::Touches;
use program::program::Program;
use program::statement::Task;
use words::list::Short;

// How many tasks the program has. A task that it lacks has no statement.
#[tactic(auto, using(crate::proofs::Making::lacking, crate::proofs::Making::having, crate::proofs::Making::few_tasks))]
fn task_count(program: &Program) -> u8
    ensures { result ≡ length (program_source program.now).tasks }
{
    for number in 0..16 {
        if program.statements(Task::new(number).unwrap()).is_empty() {
            return number;
        }
    }
    16
}

// Puts the facts of a task behind the others.
#[tactic(auto, using(crate::proofs::Facts::facts_same))]
fn add_facts(
    facts: &mut Short<TaskFacts, 16>,
    program: &Program,
    task: Task,
    touched: &mut [Touches],
    most: &mut [Counts],
) -> Result<(), ShortScratch>
    ensures { Added (task_of (program_source program.now) task.number) (items facts.old) touched.old most.old result (items facts.new) touched.new most.new }
{
    let _ = facts.push(facts_of(program, task, touched, most)?);
    Ok(())
}

impl Rules {
    // The program, with the facts of its tasks by both passes over each. Both slices are looked at before either is used.
    #[tactic(auto, using(crate::proofs::Making::facts_more))]
    pub fn new(
        program: Program,
        touched: &mut [Touches],
        most: &mut [Counts],
    ) -> Result<Rules, ShortScratch>
        ensures { Made program touched.old most.old result touched.new most.new }
    {
        let mut facts = Short::new();
        for number in 0..task_count(&program) {
            let task = Task::new(number).unwrap();
            add_facts(&mut facts, &program, task, touched, most)?;
        }
        Ok(Rules { program, facts })
    }

    // The program.
    pub fn program(&self) -> &Program
        ensures { result.now ≡ self.now.program }
    {
        &self.program
    }

    // The facts at a place of the list.
    fn facts_at(&self, place: usize) -> Option<TaskFacts>
        ensures { result ≡ slice_get (items self.now.facts) place }
    {
        self.facts.as_slice().get(place).copied()
    }

    // The facts of a task, if the program has it.
    #[tactic(auto, using(crate::proofs::Facts::told))]
    pub fn facts(&self, task: Task) -> Option<TaskFacts>
        ensures { FactsTold (program_source self.now.program) task.number result }
    {
        self.facts_at(usize::from(task.number()))
    }
}
