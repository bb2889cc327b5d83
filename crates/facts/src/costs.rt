// What a visit of a task can cost.
ghost use Rattle.std.specs.Prelude.{◌≡◌};
ghost use Rattle.facts.specs.Bounds.{steps_of, stores_of};

use crate::set::VariableSet;

// What a task logs, and the most of what its paths emit and store.
#[derive(Clone, Copy, PartialEq, Eq, Default, Debug)]
pub struct TaskFacts {
    pub logged: VariableSet,
    // the most emits on a path
    pub emits: u8,
    // the most sets, on a path, of variables that are not logged
    pub direct: u8,
}

impl TaskFacts {
    // D: the bound on the stores of a visit of the task.
    pub fn most_stores(self) -> u16
        ensures { result ≡ stores_of self }
    {
        u16::from(self.direct) + 4 * u16::from(self.emits) + 4 * u16::from(self.logged.count()) + 18
    }

    // S: the bound on its steps.
    pub fn most_steps(self) -> u16
        ensures { result ≡ steps_of self }
    {
        82 + 4 * u16::from(self.emits) + 4 * u16::from(self.logged.count())
    }
}
