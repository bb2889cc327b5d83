// Why a text is refused.
ghost use Rattle.std.specs.Prelude.{◌≡◌};
ghost use Rattle.text.specs.Refusals.{told_at, told_of};

// Where a byte stands: its line, from 1, and its place in the whole text, from 0.
#[derive(Clone, Copy, PartialEq, Eq, Debug)]
pub struct Place {
    pub line: u16,
    pub byte: u16,
}

// What is told of a refusal: a number by the rules, and where. A line 0 says that no line is meant.
#[derive(Clone, Copy, PartialEq, Eq, Debug)]
pub struct Told {
    pub number: u8,
    pub line: u16,
    pub byte: u16,
}

#[derive(Clone, Copy, PartialEq, Eq, Debug)]
pub enum Refusal {
    // a scratch has fewer than 64 facts
    ShortScratch,
    // more than 16,384 bytes
    TooLong,
    // a byte that no text may have
    Byte(Place),
    // a line of no form allowed at that point
    Form(Place),
    // a declared name that is no name, or is declared already
    Name(Place),
    // an operand, target or task that is unknown or of the wrong kind
    Unknown(Place),
    // a number that is none, or out of range
    Number(Place),
    // a limit passed
    Limit(Place),
    // a skip beyond its task's ending
    Skip(Place),
    // no task, or the last one without its ending, in a text of so many bytes
    Unfinished(u16),
    // a task with more than eight emits on a path
    Emits(Place),
}

// A number of the rules at a place.
fn at_place(number: u8, place: Place) -> Told
    ensures { result ≡ told_at number place }
{
    Told {
        number,
        line: place.line,
        byte: place.byte,
    }
}

impl Refusal {
    // The number of the refusal, and where in the text it is.
    pub fn told(self) -> Told
        ensures { result ≡ told_of self }
    {
        let nowhere = Place { line: 0, byte: 0 };
        match self {
            Refusal::ShortScratch => at_place(7, nowhere),
            Refusal::TooLong => at_place(10, nowhere),
            Refusal::Byte(place) => at_place(11, place),
            Refusal::Form(place) => at_place(12, place),
            Refusal::Name(place) => at_place(13, place),
            Refusal::Unknown(place) => at_place(14, place),
            Refusal::Number(place) => at_place(15, place),
            Refusal::Limit(place) => at_place(16, place),
            Refusal::Skip(place) => at_place(17, place),
            Refusal::Unfinished(byte) => at_place(18, Place { line: 0, byte }),
            Refusal::Emits(place) => at_place(19, place),
        }
    }
}
