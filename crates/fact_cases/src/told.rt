// What the tests ask of a task, and its facts as plain lists and numbers.
use crate::lines::index;
use facts::costs::TaskFacts;
use facts::most::Counts;
use facts::set::VariableSet;
use facts::tasks::{facts_of, most_of, touched_of};
use facts::touched::Touches;
use program::program::Program;
use program::statement::Task;
use std::test::Fail;
use words::list::Words;

// The fact of no statement.
pub(crate) fn untouched() -> Touches {
    let none = VariableSet::empty();
    Touches {
        written: none,
        read_first: none,
        logged: none,
    }
}

// The counts of no statement.
pub(crate) const NO_COUNTS: Counts = Counts {
    emits: 0,
    direct: 0,
};

// What a task touches.
pub(crate) fn touches(program: &Program, task: Task) -> Result<Touches, Fail> {
    Ok(touched_of(program, task, &mut [untouched(); 64])?)
}

// How much it emits and stores at most, with these variables logged.
pub(crate) fn most(program: &Program, task: Task, logged: VariableSet) -> Result<Counts, Fail> {
    Ok(most_of(program, task, logged, &mut [NO_COUNTS; 64])?)
}

// What it logs, emits and stores.
pub(crate) fn facts(program: &Program, task: Task) -> Result<TaskFacts, Fail> {
    let found = facts_of(program, task, &mut [untouched(); 64], &mut [NO_COUNTS; 64])?;
    Ok(found)
}

// The numbers of a set's variables, upward.
pub(crate) fn members(set: VariableSet) -> Result<Words<48>, Fail> {
    let mut numbers = Words::new();
    for number in 0..48 {
        if set.contains(index(number)?) {
            numbers.push(u16::from(number))?;
        }
    }
    Ok(numbers)
}

// m, w, D and S.
pub(crate) fn costs(facts: TaskFacts) -> [u16; 4] {
    [
        u16::from(facts.emits),
        u16::from(facts.direct),
        facts.most_stores(),
        facts.most_steps(),
    ]
}
