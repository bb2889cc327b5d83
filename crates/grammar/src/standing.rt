// What a line is judged by: the lines before it.
ghost use Rattle.std.specs.Prelude.{◌≡◌, ◌≤◌};

use crate::names::Names;

pub mod judge;

// What the lines so far declare, how many statements they have, in all and in the last task, and whether that task is
// without its ending.
#[derive(Clone, Copy)]
pub struct Standing<'t> {
    names: Names<'t>,
    statements: u16,
    size: u8,
    unfinished: bool,
    ghost room: { (statements ≤ 256) × (size ≤ 64) },
}
