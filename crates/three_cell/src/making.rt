// A three-cell memory made over another, and taken off it again.
ghost use Rattle.std.specs.Prelude.{◌≡◌};
ghost use Rattle.three_cell.specs.Below.{FitsAbove, Lights, ScansAll};
ghost use Rattle.three_cell.specs.Layered.{Makes};
ghost use Rattle.cells.specs.Three.{one_of};

use crate::memories::ThreeCell;
use crate::site::Site;
use memory::doubt::Doubt;
use memory::fault::{Unfit, Unmade};
use memory::interface::Memory;
use memory::light::Light;

// At most one of two.
fn only(found: Option<Doubt>, next: Option<Doubt>) -> Result<Option<Doubt>, Unmade>
    ensures { result ≡ one_of found next }
{
    match (found, next) {
        (None, doubt) | (doubt, None) => Ok(doubt),
        (Some(_), Some(_)) => Err(Unmade::Unequal),
    }
}

// Looks at the cells of every word.
#[tactic(auto, using(cells::proofs::Scans::made_above, cells::proofs::Scans::one_more, cells::proofs::Scans::still_too_many))]
fn scan<M: Memory>(below: &M) -> Result<Option<Doubt>, Unmade>
    ensures found { ScansAll M.Memory below.now result }
    ensures above { FitsAbove M.Memory below.now result }
{
    let mut found = None;
    // A loop: `try_fold` was tried, and its closure does not know that the place lies in the memory.
    for place in 0..below.len() / 3 {
        let site = Site { place };
        found = only(found, site.doubt(below))?;
    }
    Ok(found)
}

// The light of a memory made over this one, or why none is made.
fn light_over<M: Memory>(below: &M) -> Result<Light, Unmade>
    ensures { Lights M.Memory below.now result }
{
    if !below.lit() {
        return Err(Unmade::Dark);
    }
    if below.price() > 3 || below.dues() > 2 {
        return Err(Unmade::Dear);
    }
    match scan(below)? {
        None => Ok(Light::Lit),
        Some(doubt) => Ok(Light::Dark(Some(doubt))),
    }
}

impl<M: Memory> ThreeCell<M> {
    // Lit if the cells of every word are equal, dark if those of one are not. Stores nothing.
    pub fn new(below: M) -> Result<ThreeCell<M>, Unfit<M>>
        ensures { Makes M.Memory below result }
    {
        match light_over(&below) {
            Ok(light) => Ok(ThreeCell { below, light }),
            Err(why) => Err(Unfit { why, given: below }),
        }
    }

    // The memory below is handed back.
    pub fn into_below(self) -> M
        ensures { result ≡ self.below }
    {
        let ThreeCell { below, .. } = self;
        below
    }
}
