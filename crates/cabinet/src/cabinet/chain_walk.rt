// The log of a memory, looked into before it becomes a cabinet's: its chain is walked from entry to entry.
ghost use Rattle.std.specs.Prelude.{◌≡◌, ◌+◌, ◌≤◌, length};
ghost use Rattle.program.specs.Sound.{scope_of};
ghost use Rattle.layout.specs.Chains.{entry_sound, next_known, word_fits};
ghost use Rattle.cabinet.specs.Cabinets.{source};
ghost use Rattle.cabinet.specs.Openings.{ChainWalked, EntryRead, LogWalked, look_of};

use crate::cabinet::reads::next_at;
use layout::chain::ENTRY_WORDS;
use layout::layout::Layout;
use layout::store::Store;
use memory::fault::Fault;
use memory::interface::Memory;
use program::statement::Next;
use rules::rules::Rules;

// An entry as it stands in the log: where the next one stands, or 0 at the last, and the store that it calls for.
#[derive(Clone, Copy)]
pub(crate) struct Entry {
    pub(crate) next: u16,
    pub(crate) store: Store,
}

// What is found at an entry of a chain.
enum Look {
    Astray,
    Last,
    // another entry follows, behind this one's place
    On(u16),
}

// Whether the word stands for a task of the program, or is 16 after a stop.
#[tactic(auto, using(crate::proofs::Openings::task_known, crate::proofs::Openings::stop_known))]
pub(crate) fn next_known(rules: &Rules, word: u16) -> bool
    ensures { result ≡ next_known (length (source rules.now).tasks) word }
{
    match next_at(word) {
        Next::Task(task) => rules.facts(task).is_some(),
        Next::Stopped => word == 16,
    }
}

// Whether the word may stand at its place.
fn word_fits(rules: &Rules, layout: Layout, store: Store) -> bool
    ensures { result ≡ word_fits (scope_of (source rules.now)) store }
{
    (store.place != layout.next() || next_known(rules, store.word))
        && (store.place != layout.length() || store.word <= 8)
}

// Whether an entry may stand behind one for the place `before`.
fn entry_sound(rules: &Rules, before: u16, store: Store) -> bool
    ensures { result ≡ entry_sound (scope_of (source rules.now)) before store }
{
    let layout = Layout::of(rules.program());
    before < store.place && store.place < layout.page_end() && word_fits(rules, layout, store)
}

// The entry at a place of the log.
pub(crate) fn entry_at<M: Memory>(memory: &M, at: u16) -> Result<Entry, Fault>
    ensures { EntryRead M.Memory memory.now at result }
{
    let next = memory.read(at)?;
    let place = memory.read(at.wrapping_add(1))?;
    let word = memory.read(at.wrapping_add(2))?;
    Ok(Entry {
        next,
        store: Store { place, word },
    })
}

impl Entry {
    // What is found at this entry, which stands at a place of the log behind one for the place `before`.
    #[tactic(auto, unfolding(crate::specs::Openings::look_of))]
    fn look(self, rules: &Rules, at: u16, before: u16) -> Look
        requires { at + 3 ≤ 65535 }
        ensures { result ≡ look_of (scope_of (source rules.now)) at before self }
    {
        if !entry_sound(rules, before, self.store) {
            return Look::Astray;
        }
        match self.next {
            0 => Look::Last,
            next if next == at + ENTRY_WORDS => Look::On(self.store.place),
            _ => Look::Astray,
        }
    }
}

// Whether the chain in the log is astray. Its places rise, so it has at most as many entries as a commit has places.
#[tactic(auto, using(crate::proofs::Openings::found_astray, crate::proofs::Openings::found_last, crate::proofs::Openings::found_on, crate::proofs::Openings::none_left))]
fn chain_astray<M: Memory>(rules: &Rules, memory: &M) -> Result<bool, Fault>
    ensures { ChainWalked M.Memory (source rules.now) memory.now result }
{
    let layout = Layout::of(rules.program());
    let mut before = layout.head();
    for number in 0..layout.page_end() - layout.number_low() {
        let at = layout.log() + ENTRY_WORDS * number;
        match entry_at(memory, at)?.look(rules, at, before) {
            Look::Astray => return Ok(true),
            Look::Last => return Ok(false),
            Look::On(place) => before = place,
        }
    }
    Ok(true)
}

// Whether the log is astray. Without a commit under way it is not looked at.
pub(crate) fn log_astray<M: Memory>(rules: &Rules, memory: &M) -> Result<bool, Fault>
    ensures { LogWalked M.Memory (source rules.now) memory.now result }
{
    let layout = Layout::of(rules.program());
    match memory.read(layout.head())? {
        0 => Ok(false),
        head if head == layout.log() => chain_astray(rules, memory),
        _ => Ok(true),
    }
}
