// A word stored in any memory, through a cut.
ghost use Rattle.memory.specs.Through.{Gives, Through};

use crate::fault::{Cut, Fault};
use crate::interface::Memory;

// The word that stands, and the cut that the store met.
#[derive(Clone, Copy, PartialEq, Eq, Debug)]
pub struct Stood {
    pub word: u16,
    pub cut: Option<Cut>,
}

// Stores a word; if the store is cut, brings power back. Tells the word that then stands.
pub fn write_through<M: Memory>(
    memory: &mut M,
    place: u16,
    word: u16,
    charge: u32,
    scrap: u16,
) -> Result<Stood, Fault>
    ensures through { M.Memory.lawful memory.old → M.Memory.lawful memory.new × Through (M.Memory.seen memory.old) place word charge result (M.Memory.seen memory.new) }
    ensures scrap { Gives M.Memory.given memory.old scrap result memory.new }
{
    let cut = match memory.write(place, word) {
        Ok(()) => None,
        Err(Fault::Cut(cut)) => {
            memory.relight(charge, scrap)?;
            Some(cut)
        }
        Err(fault) => return Err(fault),
    };
    let word = memory.read(place)?;
    Ok(Stood { word, cut })
}
