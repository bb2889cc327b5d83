// The memories that the tests make, or why there is none.
use lowest::backing::Backing;
use lowest::memories::Lowest;
use memory::fault::Unmade;
use memory::interface::Memory;
use three_cell::memories::ThreeCell;

// Plain words or an image over a buffer.
pub(crate) fn lowest<B: Backing + Drop>(
    backing: B,
    charge: u16,
    scrap: u16,
) -> Result<Lowest<B>, Unmade> {
    Lowest::new(backing, u32::from(charge), scrap).map_err(|unfit| unfit.why)
}

// Three cells over a memory.
pub(crate) fn three_cells<M: Memory + Drop>(below: M) -> Result<ThreeCell<M>, Unmade> {
    ThreeCell::new(below).map_err(|unfit| unfit.why)
}
