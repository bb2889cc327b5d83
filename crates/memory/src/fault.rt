// Why a memory refuses a call, or is not made, and the numbers that tell it.
ghost use Rattle.std.specs.Prelude.{◌≡◌};
ghost use Rattle.memory.specs.Faults.{raise, told, unmade_number};

use thiserror::Error;

// Power failed at a place of the lowest memory (65,535 for that memory's own relight), which has `layers` memories above it up to the one that was called.
#[derive(Clone, Copy, PartialEq, Eq, Debug)]
pub struct Cut {
    pub place: u16,
    pub layers: u8,
}

#[derive(Clone, Copy, PartialEq, Eq, Debug, Error)]
pub enum Fault {
    #[error("the memory is dark")]
    Dark,
    #[error("the place is not below the length")]
    Outside,
    #[error("power failed at place {} of the lowest memory, {} layers below", .0.place, .0.layers)]
    Cut(Cut),
}

impl Fault {
    // The number by which the rules tell it.
    pub fn number(self) -> u8
        ensures { result ≡ (told self).number }
    {
        match self {
            Fault::Dark => 3,
            Fault::Outside => 4,
            Fault::Cut(_) => 5,
        }
    }

    // What the number carries.
    pub fn carried(self) -> Option<Cut>
        ensures { result ≡ (told self).carried }
    {
        match self {
            Fault::Cut(cut) => Some(cut),
            Fault::Dark | Fault::Outside => None,
        }
    }
}

// A fault of the memory below, told one layer up: `?` makes it of that fault, and hands it on as a fault.
#[derive(Clone, Copy, PartialEq, Eq, Debug)]
pub struct Raised(pub Fault);

impl From<Fault> for Raised {
    ghost from_gives = { λ e r. r.0 ≡ raise e };

    fn from(e: Fault) -> Raised {
        Raised(match e {
            Fault::Cut(cut) => Fault::Cut(Cut {
                layers: cut.layers.saturating_add(1),
                ..cut
            }),
            Fault::Dark | Fault::Outside => e,
        })
    }
}

impl From<Raised> for Fault {
    ghost from_gives = { λ e r. r ≡ e.0 };

    fn from(e: Raised) -> Fault {
        e.0
    }
}

// Why no memory was made.
#[derive(Clone, Copy, PartialEq, Eq, Debug, Error)]
pub enum Unmade {
    #[error("above 32,768 words, or part of a word over")]
    Size,
    #[error("the memory below has a price above 3, or dues above 2")]
    Dear,
    #[error("the memory below is dark")]
    Dark,
    #[error("more than one word has cells that are not equal")]
    Unequal,
}

impl Unmade {
    // The number by which the rules tell it.
    pub fn number(self) -> u8
        ensures { result ≡ unmade_number self }
    {
        match self {
            Unmade::Size => 1,
            Unmade::Dear => 2,
            Unmade::Dark => 3,
            Unmade::Unequal => 6,
        }
    }
}

// What was to become a memory, handed back with the reason why it did not.
#[derive(PartialEq, Eq, Debug, Drop)]
pub struct Unfit<T> {
    pub why: Unmade,
    pub given: T,
}
