// A place in doubt: the word that stood there, and the word that was being stored when power failed.
#[derive(Clone, Copy, PartialEq, Eq, Debug)]
pub struct Doubt {
    pub place: u16,
    pub old: u16,
    pub new: u16,
}
