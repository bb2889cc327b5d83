// The record of the last visit that was committed.
ghost use Rattle.std.specs.Prelude.{◌≡◌, ◌<◌, length, IfErr, IfOk};
ghost use Rattle.cabinet.specs.Recordings.{Fills, ReadsRecord, ReadsRecordWord, Records, Shows};

use crate::cabinet::Cabinet;
use crate::state::State;
use calls::refusal::{Refusal, Why};
use memory::fault::Fault;
use memory::interface::Memory;

impl<'r, M: Memory> Cabinet<'r, M> {
    // The record's length, where there is a record to be read.
    fn shown(&self) -> Result<u16, Why>
        ensures { Shows M.Memory self.now result }
    {
        match self.state {
            State::Settled | State::Rest | State::Running(_) | State::Logging(_) => {
                Ok(self.memory.read(self.layout().length())?)
            }
            State::Applying(_) => Err(Why::UnderWay),
            State::Dark => Err(Why::Memory(Fault::Dark)),
        }
    }

    // Reads a word of the record into the eight.
    fn read_record_word(&self, at: u16, words: &mut [u16]) -> Result<(), Fault>
        requires inside { at < length words.old }
        requires few { at < 8 }
        ensures { ReadsRecordWord M.Memory self.now at words.old result words.new }
    {
        words[usize::from(at)] = self.memory.read(self.layout().record() + at)?;
        Ok(())
    }

    // The eight words of a record of this size, 0 beyond it.
    #[tactic(auto, using(crate::proofs::Recordings::none_read, crate::proofs::Recordings::one_more_read, crate::proofs::Recordings::all_read))]
    fn record_words(&self, size: u16) -> Result<[u16; 8], Fault>
        ensures long { IfOk result (λ words. length words ≡ 8) }
        ensures words { ReadsRecord M.Memory self.now size result }
    {
        let mut words = [0; 8];
        for k in 0..size.min(8) {
            self.read_record_word(k, &mut words)?;
        }
        Ok(words)
    }

    // Fills a buffer of eight words with the record, or tells why not. All words are read before the first is stored, so that
    // the buffer is left as it was if one cannot be read.
    #[tactic(auto, unfolding(crate::specs::Recordings::record_of))]
    fn fill(&self, buffer: &mut [u16]) -> Result<u16, Why>
        ensures fills { Fills M.Memory self.now buffer.old result buffer.new }
        ensures left { IfErr result (λ _. buffer.new ≡ buffer.old) }
    {
        if buffer.len() != 8 {
            return Err(Why::BufferLength);
        }
        let size = self.shown()?;
        let words = self.record_words(size)?;
        buffer.copy_from_slice(&words);
        Ok(size)
    }

    // Fills a buffer of eight words with the record, 0 beyond its length, and tells the length.
    pub fn record(&self, buffer: &mut [u16]) -> Result<u16, Refusal>
        ensures records { Records M.Memory self.now buffer.old result buffer.new }
        ensures left { IfErr result (λ _. buffer.new ≡ buffer.old) }
    {
        self.answer(self.fill(buffer))
    }
}
