// The three-cell memory: over any memory, and a memory itself.
ghost use Rattle.std.specs.Prelude.{◌≡◌, ◌*◌, ◌^◌, ◌<◌, length};
ghost use Rattle.three_cell.specs.Below.{KeepsScrap, RelightsAll};
ghost use Rattle.three_cell.specs.Layered.{LightAfter, MendsBelow, Reaches, RelightsThree, StoresBelow, Writes, limits_kept, three_given, three_lawful, three_seen};

use crate::site::Site;
use memory::doubt::Doubt;
use memory::fault::{Fault, Raised};
use memory::interface::Memory;
use memory::light::Light;

#[derive(Drop)]
pub struct ThreeCell<M: Memory> {
    pub(crate) below: M,
    pub(crate) light: Light,
}

// Relights the memory below, and then mends all words, upward: after a loss of power nothing but the memory remembers.
#[tactic(auto, using(cells::proofs::Kept::mending_more))]
fn recover<M: Memory>(below: &mut M, charge: u32, scrap: u16) -> Result<(), Raised>
    ensures relit { RelightsAll M.Memory below.old charge result below.new }
    ensures scrap { M.Memory.given below.new scrap }
{
    below.relight(charge, scrap)?;
    // A loop: `try_for_each` was tried, and its closure, which stores, does not tell what the memory then is.
    for place in 0..below.len() / 3 {
        let site = Site { place };
        site.mend(below)?;
    }
    Ok(())
}

impl<M: Memory> ThreeCell<M> {
    // Where the cells of a word lie, or why the memory refuses its place. A dark memory asks those below for nothing.
    #[tactic(auto, using(cells::specs::Members::length_three_words))]
    fn reach(&self, place: u16) -> Result<Site, Fault>
        ensures { three_lawful M.Memory self.now → Reaches M.Memory self.now place result }
    {
        if let Light::Dark(_) = self.light {
            return Err(Fault::Dark);
        }
        self.light.reach(place, usize::from(self.len()))?;
        Ok(Site { place })
    }
}

impl<M: Memory> Memory for ThreeCell<M> {
    ghost seen = { three_seen M.Memory };

    ghost lawful = { three_lawful M.Memory };

    ghost limits = { limits_kept M.Memory };

    ghost given = { three_given M.Memory };

    // Beyond what every memory promises: the memory below can have three places for each word.
    #[tactic(auto, using(cells::specs::Members::length_three_words))]
    fn len(&self) -> u16
        ensures words { three_lawful M.Memory self.now → result ≡ length (three_seen M.Memory self.now).words }
        ensures few { 3 * result < 2 ^ 16 }
    {
        self.below.len() / 3
    }

    fn price(&self) -> u8 {
        self.below.price().saturating_mul(3)
    }

    fn dues(&self) -> u8 {
        let more = self.below.price().saturating_mul(2);
        self.below.dues().saturating_add(more)
    }

    fn whole(&self) -> bool {
        true
    }

    fn lit(&self) -> bool {
        self.light.is_lit()
    }

    fn read(&self, place: u16) -> Result<u16, Fault> {
        self.reach(place)?.word(&self.below)
    }

    // Beyond what every memory promises: what the memory below then is.
    fn write(&mut self, place: u16, word: u16) -> Result<(), Fault>
        ensures wrote { Writes M.Memory self.old place word result self.new }
        ensures scrap { KeepsScrap M.Memory self.old.below self.new.below }
        ensures below { StoresBelow M.Memory self.old place word self.new }
    {
        let site = self.reach(place)?;
        let old = site.word(&self.below)?;
        // In doubt until all three cells are stored.
        self.light = Light::Dark(Some(Doubt {
            place,
            old,
            new: word,
        }));
        site.store(&mut self.below, word)?;
        self.light = Light::Lit;
        Ok(())
    }

    // Beyond what every memory promises: the memory below is relit, and all words are mended. Dark until that is done, with
    // what is in doubt as it was.
    fn relight(&mut self, charge: u32, scrap: u16) -> Result<(), Fault>
        ensures light { LightAfter M.Memory self.old result self.new }
        ensures relit { RelightsThree M.Memory self.old charge result self.new }
        ensures scrap { three_given M.Memory self.new scrap }
        ensures below { MendsBelow M.Memory self.old charge result self.new }
    {
        self.light = Light::Dark(self.light.doubt());
        recover(&mut self.below, charge, scrap)?;
        self.light = Light::Lit;
        Ok(())
    }
}
