// The names that a text declares.
ghost use Rattle.std.specs.Prelude.{◌≡◌, map};
ghost use Rattle.std.specs.List.{position};
ghost use Rattle.std.specs.Str.{bytes_eq};

use words::list::Short;

pub mod lookup;

// Names in the order of their declarations; each is a part of the text.
#[derive(Clone, Copy)]
pub struct Names<'t> {
    variables: Short<&'t [u8], 48>,
    locals: Short<&'t [u8], 8>,
    tasks: Short<&'t [u8], 16>,
}
