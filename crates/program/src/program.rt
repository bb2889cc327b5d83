// A well-formed program.
ghost use Rattle.std.specs.Prelude.{◌≡◌, true};
ghost use Rattle.program.specs.Sound.{sound};
ghost use Rattle.program.specs.Drafts.{source_of};

use crate::draft::Draft;

pub mod make;

#[derive(Clone, Copy)]
pub struct Program {
    draft: Draft,
    ghost checked: { sound (source_of draft) ≡ true },
}
