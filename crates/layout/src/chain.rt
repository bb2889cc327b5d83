// The words of a chain of entries in the log.
ghost use Rattle.std.specs.Prelude.{◌≡◌, ◌+◌, ◌*◌, ◌≤◌, length, slice_index};
ghost use Rattle.layout.specs.Chains.{chain_words};

use crate::store::Store;

// How many words an entry has: where the next entry stands, or 0 at the last; the place; the word.
pub const ENTRY_WORDS: u16 = 3;

// The word at an index of the chain of these entries, whose first entry stands at `first`; 0 beyond it.
#[tactic(auto, using(crate::proofs::Chains::next_of_last, crate::proofs::Chains::next_of, crate::proofs::Chains::place_of, crate::proofs::Chains::word_of, crate::proofs::Chains::none_behind))]
pub fn chain_word(entries: &[Store], first: u16, index: u16) -> u16
    ensures { first + 3 * length entries.now ≤ 65535 → result ≡ slice_index (chain_words first entries.now) index }
{
    let number = usize::from(index / ENTRY_WORDS);
    let Some(entry) = entries.get(number) else {
        return 0;
    };
    match index % ENTRY_WORDS {
        0 if number + 1 == entries.len() => 0,
        0 => first.wrapping_add(index).wrapping_add(ENTRY_WORDS),
        1 => entry.place,
        _ => entry.word,
    }
}
