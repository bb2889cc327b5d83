// What a cabinet remembers in each state, until power ends.
use calls::due::Due;
use calls::refusal::Phase;
use facts::set::VariableSet;
use layout::store::Store;
use program::statement::Task;
use words::list::{Short, Words};

// An attempt at a visit: a task that runs.
#[derive(Clone, Copy)]
pub struct Attempt {
    pub task: Task,
    // the statement that comes
    pub at: usize,
    pub inputs: [u16; 8],
    pub locals: [u16; 8],
    // the record so far
    pub emitted: Words<8>,
    // a working copy of each logged variable, at the variable's number
    pub copies: [u16; 48],
    // the logged variables that were set
    pub set: VariableSet,
}

// The entries of a commit, and how many of their words are stored.
#[derive(Clone, Copy)]
pub struct Log {
    pub entries: Short<Store, 60>,
    pub stored: u16,
}

#[derive(Clone, Copy)]
pub enum State {
    Settled,
    Rest,
    Running(Attempt),
    Logging(Log),
    Applying(Due),
    Dark,
}

// What a step is to do: the store that is due, if any, and the state behind it.
#[derive(Clone, Copy)]
pub struct Turn {
    pub store: Option<Store>,
    pub then: State,
}
