// How a cabinet refuses a call.
ghost use Rattle.std.specs.Prelude.{◌≡◌};
ghost use Rattle.calls.specs.Steps.{answered, refusal};
ghost use Rattle.cabinet.specs.Cabinets.{held};

use crate::cabinet::Cabinet;
use calls::refusal::{Refusal, Why};
use memory::interface::Memory;

impl<'r, M: Memory> Cabinet<'r, M> {
    // A refusal of the call that it is about to take: it tells the state before the call, and the task last read.
    pub(crate) fn refusal(&self, why: Why) -> Refusal
        ensures { result ≡ refusal (held M.Memory self.now) why }
    {
        Refusal {
            why,
            before: self.state.phase(),
            task: self.task,
        }
    }

    // The answer of that call, of what it comes to.
    pub(crate) fn answer<A>(&self, comes: Result<A, Why>) -> Result<A, Refusal>
        ensures { result ≡ answered (held M.Memory self.now) comes }
    {
        match comes {
            Ok(answer) => Ok(answer),
            Err(why) => Err(self.refusal(why)),
        }
    }
}
