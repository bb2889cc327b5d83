// What a cabinet reads in its memory.
ghost use Rattle.std.specs.Prelude.{◌≡◌, length};
ghost use Rattle.calls.specs.Words.{next_at};
ghost use Rattle.cabinet.specs.Cabinets.{source};
ghost use Rattle.cabinet.specs.Reads.{ReadsNext, ReadsNumber};

use crate::cabinet::Cabinet;
use layout::layout::Layout;
use memory::fault::Fault;
use memory::interface::Memory;
use program::statement::{Next, Task};

// The next task by its word in memory.
#[tactic(auto, using(crate::proofs::Next::next_stops))]
pub(crate) fn next_at(word: u16) -> Next
    ensures { result ≡ next_at word }
{
    let Ok(number) = u8::try_from(word) else {
        return Next::Stopped;
    };
    match Task::new(number) {
        Some(task) => Next::Task(task),
        None => Next::Stopped,
    }
}

impl<'r, M: Memory> Cabinet<'r, M> {
    // Where the program's words stand.
    pub(crate) fn layout(&self) -> Layout
        ensures { result.variables ≡ length (source self.now.rules.now).firsts }
    {
        Layout::of(self.rules.program())
    }

    // The visit number.
    pub(crate) fn number(&self) -> Result<u32, Fault>
        ensures { ReadsNumber M.Memory self.now result }
    {
        let layout = self.layout();
        let low = self.memory.read(layout.number_low())?;
        let high = self.memory.read(layout.number_high())?;
        Ok(u32::from(low) + 65536 * u32::from(high))
    }

    // The next task.
    pub(crate) fn next(&self) -> Result<Next, Fault>
        ensures { ReadsNext M.Memory self.now result }
    {
        Ok(next_at(self.memory.read(self.layout().next())?))
    }
}
