// Why a cabinet refuses a call, and what is told of it.
ghost use Rattle.std.specs.Prelude.{◌≡◌};
ghost use Rattle.calls.specs.Refusals.{number_of, told_of};

use memory::fault::{Cut, Fault};
use program::statement::Next;
use thiserror::Error;

// The state that a cabinet is in, without what it remembers there.
#[derive(Clone, Copy, PartialEq, Eq, Debug)]
pub enum Phase {
    Settled,
    Rest,
    Running,
    Logging,
    Applying,
    Dark,
}

#[derive(Clone, Copy, PartialEq, Eq, Debug, Error)]
pub enum Why {
    #[error("{0}")]
    Memory(Fault),
    #[error("a visit is under way")]
    Busy,
    #[error("an ending stopped the program")]
    Stopped,
    #[error("the record that was taken last is not that of the last visit")]
    NotTaken,
    #[error("the row has not 8 words")]
    RowLength,
    #[error("the visit number is 4,294,967,295")]
    LastNumber,
    #[error("no visit is under way")]
    Idle,
    #[error("a commit is under way")]
    UnderWay,
    #[error("the buffer has not 8 words")]
    BufferLength,
}

// A fault of the memory, refused by its own number.
impl From<Fault> for Why {
    ghost use Rattle.calls.specs.declared.refusal.Why.{Why};

    ghost from_gives = { λ fault why. why ≡ Why.Memory fault };

    fn from(fault: Fault) -> Why {
        Why::Memory(fault)
    }
}

impl Why {
    // The number by which the rules tell it.
    pub fn number(self) -> u8
        ensures { result ≡ number_of self }
    {
        match self {
            Why::Memory(fault) => fault.number(),
            Why::Busy => 30,
            Why::Stopped => 31,
            Why::NotTaken => 32,
            Why::RowLength => 33,
            Why::LastNumber => 34,
            Why::Idle => 35,
            Why::UnderWay => 36,
            Why::BufferLength => 38,
        }
    }
}

// A call was refused, in this state and with this task last read.
#[derive(Clone, Copy, PartialEq, Eq, Debug, Error)]
#[error("{why}")]
pub struct Refusal {
    pub why: Why,
    pub before: Phase,
    pub task: Next,
}

// What is told of a refusal: its number, what a cut carries, the state before the call, and the task last read.
#[derive(Clone, Copy, PartialEq, Eq, Debug)]
pub struct Told {
    pub number: u8,
    pub carried: Option<Cut>,
    pub before: Phase,
    pub task: Next,
}

impl Refusal {
    pub fn told(self) -> Told
        ensures { result ≡ told_of self }
    {
        Told {
            number: self.why.number(),
            carried: match self.why {
                Why::Memory(fault) => fault.carried(),
                _ => None,
            },
            before: self.before,
            task: self.task,
        }
    }
}
