// A step: what the state and the memory's answer call for.
ghost use Rattle.std.specs.Prelude.{◌≡◌, ℕ, Some};
ghost use Rattle.calls.specs.Steps.{ends_commit};
ghost use Rattle.cabinet.specs.declared.state.State.{State};
ghost use Rattle.calls.specs.Calls.{Event};
ghost use Rattle.cabinet.specs.Cabinets.{KeepsScrap, Takes, source};
ghost use Rattle.cabinet.specs.Turns.{Advances, Applies, AppliesEntry, FitsThen, GoesOn, Logs, Puts, Settles, Turns};

use crate::cabinet::Cabinet;
use crate::cabinet::chain_walk::{Entry, entry_at};
use crate::state::{Log, State, Turn};
use calls::answer::Progress;
use calls::due::Due;
use calls::refusal::{Refusal, Why};
use layout::store::Store;
use memory::fault::Fault;
use memory::interface::Memory;

// Makes the store that is due, if any.
fn put<M: Memory>(memory: &mut M, store: Option<Store>) -> Result<(), Fault>
    ensures made { Puts M.Memory memory.old store result memory.new }
    ensures scrap { (s : ℕ) → M.Memory.given memory.old s → M.Memory.given memory.new s }
{
    if let Some(store) = store {
        memory.write(store.place, store.word)?;
    }
    Ok(())
}

impl<'r, M: Memory> Cabinet<'r, M> {
    // The entry of the log that stands at a place is to be stored where it belongs.
    fn entry(&self, at: u16) -> Result<Turn, Fault>
        ensures fits { FitsThen (source self.now.rules.now) result }
        ensures turn { AppliesEntry M.Memory self.now at result }
    {
        let Entry { next, store } = entry_at(&self.memory, at)?;
        let due = if next == 0 {
            Due::Head
        } else {
            Due::Entry(next)
        };
        Ok(Turn {
            store: Some(store),
            then: State::Applying(due),
        })
    }

    // The same of the entry that is due, which is always inside the memory.
    #[tactic(auto, using(crate::proofs::Turns::entry_inside))]
    fn apply(&self, at: u16) -> Result<Turn, Fault>
        ensures fits { FitsThen (source self.now.rules.now) result }
        ensures turn { Applies M.Memory self.now at result }
    {
        self.entry(at)
    }

    // The next word of the log is to be stored, or its head.
    fn log(&self, log: &Log) -> Turn
        ensures { Logs (source self.now.rules.now) log.now result }
    {
        log.turn(self.layout())
    }

    // The log's head is to be 0 again.
    fn end(&self) -> Turn
        ensures { result ≡ record { store = Some ends_commit; then = State.Settled } }
    {
        Turn {
            store: Some(Store {
                place: self.layout().head(),
                word: 0,
            }),
            then: State::Settled,
        }
    }

    // What the state calls for. Everything is read before the one store is made, so that a refusal alters nothing.
    fn due(&self) -> Result<Turn, Why>
        ensures fits { FitsThen (source self.now.rules.now) result }
        ensures turn { Turns M.Memory self.now result }
    {
        match &self.state {
            State::Settled | State::Rest => Err(Why::Idle),
            State::Running(attempt) => Ok(self.run(attempt)?),
            State::Logging(log) => Ok(self.log(log)),
            State::Applying(Due::Entry(at)) => Ok(self.apply(*at)?),
            State::Applying(Due::Head) => Ok(self.end()),
            State::Dark => Err(Why::Memory(Fault::Dark)),
        }
    }

    // The commit is over.
    fn settle(&mut self) -> Result<Progress, Why>
        ensures memory { self.new.memory ≡ self.old.memory }
        ensures settles { Settles M.Memory self.old result self.new }
    {
        let number = self.number()?;
        let task = self.next()?;
        self.task = task;
        self.state = State::Settled;
        Ok(Progress::Settled(number))
    }

    // Does what the state and the memory's answer call for.
    fn advance(&mut self) -> Result<Progress, Why>
        ensures scrap { KeepsScrap M.Memory self.old self.new }
        ensures advances { Advances M.Memory self.old result self.new }
    {
        let turn = self.due()?;
        match (&mut self.state, put(&mut self.memory, turn.store)) {
            (state, Err(fault)) => {
                if let Fault::Cut(_) = fault {
                    *state = State::Dark;
                }
                Err(Why::Memory(fault))
            }
            (State::Applying(Due::Head), Ok(())) => self.settle(),
            (state, Ok(())) => {
                *state = turn.then;
                Ok(Progress::Going)
            }
        }
    }

    // The same, after which a lawful cabinet is lawful.
    #[tactic(auto, using(crate::proofs::Turns::step_lawful))]
    fn go_on(&mut self) -> Result<Progress, Why>
        ensures scrap { KeepsScrap M.Memory self.old self.new }
        ensures goes_on { GoesOn M.Memory self.old result self.new }
    {
        self.advance()
    }

    // One step of the visit that is under way.
    pub fn step(&mut self) -> Result<Progress, Refusal>
        ensures scrap { KeepsScrap M.Memory self.old self.new }
        ensures takes { Takes M.Memory self.old (Event.Step result) self.new }
    {
        let before = self.state.phase();
        let task = self.task;
        match self.go_on() {
            Ok(progress) => Ok(progress),
            Err(why) => Err(Refusal { why, before, task }),
        }
    }
}
