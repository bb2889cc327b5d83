// The machine's page and record.
ghost use Rattle.std.specs.Prelude.{◌≡◌, ◌<◌, slice_index};
ghost use Rattle.words.specs.Lists.{items};
ghost use Rattle.plain.specs.Plain.{page};
ghost use Rattle.plain.specs.Machines.{plain_of, Paged};

use crate::machine::Machine;
use thiserror::Error;
use words::list::Words;

#[derive(Clone, Copy, PartialEq, Eq, Debug, Error)]
#[error("the buffer has not as many words as the page")]
pub struct WrongLength;

impl<'p> Machine<'p> {
    // The last visit's record.
    pub fn last_record(&self) -> Words<8>
        ensures { items result ≡ (plain_of self.now).emitted }
    {
        self.emitted
    }

    // The word at a place of the page.
    fn word(&self, place: usize) -> u16
        ensures { result ≡ slice_index (page (plain_of self.now)) place }
    {
        let emitted = self.last_record();
        // The number's two words by hand: std splits a number into bytes alone, and four bytes joined in pairs are longer.
        match place {
            0 => (self.number % 65536) as u16,
            1 => (self.number / 65536) as u16,
            2 => self.next.into(),
            3 => emitted.len() as u16,
            4..12 => emitted.get(place - 4),
            _ => self.variables.get(place - 12),
        }
    }

    // Fills a buffer of as many words as the page has.
    pub fn page(&self, buffer: &mut [u16]) -> Result<(), WrongLength>
        ensures { Paged (plain_of self.now) buffer.old result buffer.new }
    {
        if buffer.len() != 12 + self.variables.len() {
            return Err(WrongLength);
        }
        for (place, word) in buffer.iter_mut().enumerate() {
            *word = self.word(place);
        }
        Ok(())
    }
}
