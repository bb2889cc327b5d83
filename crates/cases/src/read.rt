// What the tests read of a machine.
use plain::machine::Machine;
use plain::machine::pages::WrongLength;
use program::program::Program;
use std::test::Fail;

// The page, if it has so many words.
pub(crate) fn page<const N: usize>(machine: &Machine<'_>) -> Result<[u16; N], WrongLength> {
    let mut words = [0; N];
    machine.page(&mut words)?;
    Ok(words)
}

// The page after the program's first visit.
pub(crate) fn visited<const N: usize>(program: &Program, row: &[u16; 8]) -> Result<[u16; N], Fail> {
    let mut machine = Machine::new(program);
    machine.visit(row)?;
    Ok(page(&machine)?)
}
