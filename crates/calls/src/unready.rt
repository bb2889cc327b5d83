// Why a memory was not laid or not opened.
ghost use Rattle.std.specs.Prelude.{◌≡◌};
ghost use Rattle.calls.specs.Refusals.{unready_number};

use memory::fault::Fault;
use thiserror::Error;

#[derive(Clone, Copy, PartialEq, Eq, Debug, Error)]
pub enum Unready {
    #[error("the memory is torn")]
    Torn,
    #[error("the memory is too short for the program")]
    Short,
    #[error("{0}")]
    Memory(Fault),
    #[error("the word in the place of the next task is none of the program's tasks")]
    NextTask,
    #[error("the record's length is above 8")]
    RecordLength,
    #[error("the log is astray")]
    Astray,
}

// A fault of the memory, refused by its own number.
impl From<Fault> for Unready {
    ghost use Rattle.calls.specs.declared.unready.Unready.{Unready};

    ghost from_gives = { λ fault why. why ≡ Unready.Memory fault };

    fn from(fault: Fault) -> Unready {
        Unready::Memory(fault)
    }
}

impl Unready {
    // The number by which the rules tell it.
    pub fn number(self) -> u8
        ensures { result ≡ unready_number self }
    {
        match self {
            Unready::Torn => 20,
            Unready::Short => 21,
            Unready::Memory(fault) => fault.number(),
            Unready::NextTask => 22,
            Unready::RecordLength => 23,
            Unready::Astray => 24,
        }
    }
}
