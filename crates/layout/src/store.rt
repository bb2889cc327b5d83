// A word and the place at which it is to be stored. An entry of the log is one that is still to be made.
#[derive(Clone, Copy, PartialEq, Eq, Default, Debug)]
pub struct Store {
    pub place: u16,
    pub word: u16,
}
