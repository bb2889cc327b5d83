// What is due in a commit that is under way: the entry that stands at a place of the log, or the head, which ends the commit.
#[derive(Clone, Copy, PartialEq, Eq, Debug)]
pub enum Due {
    Entry(u16),
    Head,
}
