// The layout of one program's words in a memory.
ghost use Rattle.std.specs.Prelude.{◌≤◌};

pub mod places;

// It is fixed by how many variables the program has.
#[derive(Clone, Copy, PartialEq, Eq, Debug)]
pub struct Layout {
    variables: u8,
    ghost few: { variables ≤ 48 },
}
