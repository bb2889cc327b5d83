// What a step and a relight answer.

// A step goes on, or settles the visit of this number.
#[derive(Clone, Copy, PartialEq, Eq, Debug)]
pub enum Progress {
    Going,
    Settled(u32),
}

// A cabinet that was relit is at rest after the visit of this number, or a commit is under way.
#[derive(Clone, Copy, PartialEq, Eq, Debug)]
pub enum Woken {
    Rest(u32),
    UnderWay,
}
