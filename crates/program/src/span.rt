// Where a task's statements stand in the table: from the first on, so many of them. The tasks share one table of 256
// statements, which the rules fix; a list of 64 for each of 16 tasks would take four times the memory.
#[derive(Clone, Copy, PartialEq, Eq, Default, Debug)]
pub struct Span {
    pub first: u16,
    pub size: u16,
}
