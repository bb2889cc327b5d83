// The memory of a cabinet, handed back.
ghost use Rattle.std.specs.Prelude.{◌≡◌};

use crate::cabinet::Cabinet;
use memory::interface::Memory;

impl<'r, M: Memory> Cabinet<'r, M> {
    // A visit that is not committed is lost; a commit that is under way goes on when the memory is opened again.
    pub fn into_memory(self) -> M
        ensures { result ≡ self.entry.memory }
    {
        self.memory
    }
}
