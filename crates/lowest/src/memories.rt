// A lowest memory: words in a buffer, price 1, dues 0, and what a cut leaves by the last scrap given.
ghost use Rattle.std.specs.Prelude.{◌≡◌, ℕ};
ghost use Rattle.lowest.specs.Buffered.{Done, Leaves, Makes, Reaches, RelightsBy, Writes, lawful_by, limits_by, seen_by};

use crate::backing::{Backing, Bytes, Words};
use memory::doubt::Doubt;
use memory::fault::{Cut, Fault, Unfit, Unmade};
use memory::interface::Memory;
use memory::light::Light;

#[derive(Drop)]
pub struct Lowest<B: Backing> {
    backing: B,
    charge: u32,
    light: Light,
    // the last scrap given
    scrap: u16,
}

// Plain words, in a list that a caller hands in: whole.
pub type PlainWords<'a> = Lowest<Words<'a>>;

// An image, in bytes that a caller hands in: torn.
pub type Image<'a> = Lowest<Bytes<'a>>;

impl<B: Backing> Lowest<B> {
    // Lit, over the words that the buffer holds.
    pub fn new(backing: B, charge: u32, scrap: u16) -> Result<Lowest<B>, Unfit<B>>
        ensures { Makes B.Backing backing charge scrap result }
    {
        if backing.len() > 32768 || !backing.even() {
            return Err(Unfit {
                why: Unmade::Size,
                given: backing,
            });
        }
        Ok(Lowest {
            backing,
            charge,
            light: Light::Lit,
            scrap,
        })
    }

    // The place as the buffer counts it, or why the memory refuses it. A dark memory does not ask for the length, which a
    // buffer may have to count.
    fn reach(&self, place: u16) -> Result<usize, Fault>
        ensures { Reaches B.Backing self.now place result }
    {
        if let Light::Dark(_) = self.light {
            return Err(Fault::Dark);
        }
        self.light.reach(place, self.backing.len())?;
        Ok(usize::from(place))
    }

    // The buffer is handed back.
    pub fn into_backing(self) -> B
        ensures { result ≡ self.backing }
    {
        let Lowest { backing, .. } = self;
        backing
    }
}

impl<B: Backing> Memory for Lowest<B> {
    ghost seen = { seen_by B.Backing };

    ghost lawful = { lawful_by B.Backing };

    ghost limits = { limits_by B.Backing };

    ghost given = { λ m s. m.scrap ≡ s };

    fn len(&self) -> u16 {
        self.backing.len().min(32768) as u16
    }

    fn price(&self) -> u8 {
        1
    }

    fn dues(&self) -> u8 {
        0
    }

    fn whole(&self) -> bool {
        self.backing.whole()
    }

    fn lit(&self) -> bool {
        self.light.is_lit()
    }

    fn read(&self, place: u16) -> Result<u16, Fault> {
        let at = self.reach(place)?;
        Ok(self.backing.get(at))
    }

    // Beyond what every memory promises: what it leaves in the buffer.
    #[tactic(auto, using(std::proofs::Common::rules, crate::proofs::Cuts::left_there, crate::proofs::Cuts::back_after))]
    fn write(&mut self, place: u16, word: u16) -> Result<(), Fault>
        ensures wrote { Writes B.Backing self.old place word result self.new }
        ensures scrap { (s : ℕ) → self.old.scrap ≡ s → self.new.scrap ≡ s }
        ensures leaves { Leaves B.Backing self.old place word self.new }
    {
        let at = self.reach(place)?;
        if self.charge < 1 {
            let old = self.backing.get(at);
            let left = self.backing.left_by_cut(self.scrap, old, word);
            self.backing.put(at, left);
            let doubt = Doubt {
                place,
                old,
                new: word,
            };
            self.light = Light::Dark(Some(doubt));
            return Err(Fault::Cut(Cut { place, layers: 0 }));
        }
        self.backing.put(at, word);
        self.charge -= 1;
        Ok(())
    }

    // Beyond what every memory promises: it is always done, and alters no word.
    fn relight(&mut self, charge: u32, scrap: u16) -> Result<(), Fault>
        ensures relit { RelightsBy B.Backing self.old charge result self.new }
        ensures scrap { self.new.scrap ≡ scrap }
        ensures done { Done B.Backing self.old charge result self.new }
    {
        self.charge = charge;
        self.scrap = scrap;
        self.light = Light::Lit;
        Ok(())
    }
}
