// What fits the page.
use crate::build::due_date;
use plain::machine::Machine;
use plain::machine::pages::WrongLength;
use std::process::Abort;
use std::test::Fail;

// A buffer of another length is refused, and stays as it was.
fn check_refused<const N: usize>(rt: &impl Abort, machine: &Machine<'_>, before: [u16; N]) {
    let mut words = before;
    assert_eq!(rt; machine.page(&mut words), Err(WrongLength));
    assert_eq!(rt; words, before);
}

// The page of the rule of due dates fits no buffer that is one word too short or too long.
#[test]
fn other_lengths(rt: HostRuntime) -> Result<(), Fail> {
    let program = due_date()?;
    let machine = Machine::new(&program);
    check_refused(&rt, &machine, [7; 13]);
    check_refused(&rt, &machine, [7; 15]);
    Ok(())
}
