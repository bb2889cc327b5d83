// The memories and the cabinets that the tests make, or why there is none.
use cabinet::cabinet::Cabinet;
use cabinet::lay::lay;
use calls::unready::Unready;
use lowest::backing::{Backing, Words};
use lowest::memories::{Lowest, PlainWords};
use memory::fault::Unmade;
use memory::interface::Memory;
use rules::rules::Rules;
use std::test::Fail;
use three_cell::memories::ThreeCell;

// Charge for more stores than any test makes between two relights.
pub(crate) const PLENTY: u32 = 10_000;

// Plain words or an image over a buffer.
pub(crate) fn lowest<B: Backing + Drop>(
    backing: B,
    charge: u32,
    scrap: u16,
) -> Result<Lowest<B>, Unmade> {
    match Lowest::new(backing, charge, scrap) {
        Ok(memory) => Ok(memory),
        Err(unfit) => Err(unfit.why),
    }
}

// Plain words over a list.
pub(crate) fn plain_words(list: &mut [u16]) -> Result<PlainWords<'_>, Unmade> {
    lowest(Words(list), PLENTY, 0)
}

// Three cells over a memory.
pub(crate) fn three_cells<M: Memory + Drop>(below: M) -> Result<ThreeCell<M>, Unmade> {
    match ThreeCell::new(below) {
        Ok(memory) => Ok(memory),
        Err(unfit) => Err(unfit.why),
    }
}

// A cabinet on a memory that was laid.
pub(crate) fn opened<'r, M: Memory + Drop>(
    rules: &'r Rules,
    memory: M,
) -> Result<Cabinet<'r, M>, Unready> {
    match Cabinet::open(rules, memory) {
        Ok(cabinet) => Ok(cabinet),
        Err(unopened) => Err(unopened.why),
    }
}

// A cabinet on a memory that is laid here.
pub(crate) fn laid<'r, M: Memory + Drop>(
    rules: &'r Rules,
    mut memory: M,
) -> Result<Cabinet<'r, M>, Unready> {
    lay(rules, &mut memory)?;
    opened(rules, memory)
}

// A memory that no cabinet opens, handed back, and the number that is told of it.
pub(crate) fn unopened<M: Memory + Drop>(rules: &Rules, memory: M) -> Result<(u8, M), Fail> {
    match Cabinet::open(rules, memory) {
        Ok(_) => Err(Fail::new("opened")),
        Err(unopened) => Ok((unopened.why.number(), unopened.memory)),
    }
}
