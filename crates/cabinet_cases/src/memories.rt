// The memories that a case is tried on, with a charge that runs out at each store of a visit.
use crate::make::{PLENTY, lowest, plain_words, three_cells};
use lowest::backing::Bytes;
use memory::interface::Memory;
use std::process::Abort;
use std::test::Fail;

// The charge of a visit, what a relight brings behind its first cut, and the scrap of all relights.
#[derive(Clone, Copy, Debug)]
pub(crate) struct Trial {
    pub(crate) store: usize,
    pub(crate) charge: u32,
    pub(crate) again: u32,
    pub(crate) scrap: u16,
}

// What is tried on a memory of the least length for two variables.
pub(crate) trait Case {
    fn run<R: Abort, M: Memory + Drop>(&self, rt: &R, memory: M, trial: Trial) -> Result<(), Fail>;
}

impl Trial {
    // Twelve for each store: power fails at three of its cells in turn, with each scrap, and with plenty or little behind it.
    pub(crate) fn of(number: u16, price: u16) -> Trial {
        let store = number / 12;
        let cell = number / 4 % price.max(1);
        let charge = u32::from(store) * u32::from(price) + u32::from(cell);
        Trial {
            store: usize::from(store),
            charge,
            again: if number % 2 == 0 { PLENTY } else { charge % 32 },
            scrap: number / 2 % 2,
        }
    }
}

// On plain words, on three cells over an image, and, a fifth as often, on three cells over three cells over either.
pub(crate) fn each<R: Abort, C: Case>(rt: &R, case: &C, stores: u16) -> Result<(), Fail> {
    for number in 0..stores.saturating_mul(12) {
        let mut list = [9; 57];
        case.run(rt, plain_words(&mut list)?, Trial::of(number, 1))?;
        let mut bytes = [0u8; 342];
        let memory = three_cells(lowest(Bytes(&mut bytes), PLENTY, 0)?)?;
        case.run(rt, memory, Trial::of(number, 3))?;
    }
    for number in (0..stores.saturating_mul(12)).step_by(5) {
        let mut list = [9; 513];
        let memory = three_cells(three_cells(plain_words(&mut list)?)?)?;
        case.run(rt, memory, Trial::of(number, 9))?;
        let mut bytes = [0u8; 1026];
        let memory = three_cells(lowest(Bytes(&mut bytes), PLENTY, 0)?)?;
        case.run(rt, three_cells(memory)?, Trial::of(number, 9))?;
    }
    Ok(())
}
