// Whether a memory is lit, and what is in doubt in a dark one.
ghost use Rattle.std.specs.Prelude.{◌≡◌};
ghost use Rattle.memory.specs.Light.{doubt_of, is_lit, reached};

use crate::doubt::Doubt;
use crate::fault::Fault;

// Lit, with nothing in doubt; or dark, with the place in doubt if there is one. No `Option<Option<Doubt>>`, which would not
// say which of its two is lit.
#[derive(Clone, Copy, PartialEq, Eq, Debug)]
pub enum Light {
    Lit,
    Dark(Option<Doubt>),
}

impl Light {
    pub fn is_lit(self) -> bool
        ensures { result ≡ is_lit self }
    {
        matches!(self, Light::Lit)
    }

    // The place in doubt.
    pub fn doubt(self) -> Option<Doubt>
        ensures { result ≡ doubt_of self }
    {
        match self {
            Light::Lit => None,
            Light::Dark(doubt) => doubt,
        }
    }

    // Whether a place of so many can be read and written, or why not.
    pub fn reach(self, place: u16, count: usize) -> Result<(), Fault>
        ensures { result ≡ reached (is_lit self) place count }
    {
        match self {
            Light::Dark(_) => Err(Fault::Dark),
            Light::Lit if usize::from(place) < count => Ok(()),
            Light::Lit => Err(Fault::Outside),
        }
    }
}
