// A relight.
ghost use Rattle.std.specs.Prelude.{◌≡◌};
ghost use Rattle.calls.specs.Calls.{Event};
ghost use Rattle.cabinet.specs.Cabinets.{Takes};
ghost use Rattle.cabinet.specs.Waking.{BringsBack, Wakes};

use crate::cabinet::Cabinet;
use crate::state::State;
use calls::answer::Woken;
use calls::due::Due;
use calls::refusal::Refusal;
use memory::fault::Fault;
use memory::interface::Memory;

impl<'r, M: Memory> Cabinet<'r, M> {
    // At rest, or with a commit under way that is applied from its first entry on: the head of a lit memory says which.
    fn wake(&mut self) -> Result<Woken, Fault>
        ensures rules { self.new.rules ≡ self.old.rules }
        ensures memory { self.new.memory ≡ self.old.memory }
        ensures wakes { Wakes M.Memory self.old result self.new }
    {
        if self.memory.read(self.layout().head())? != 0 {
            self.state = State::Applying(Due::Entry(self.layout().log()));
            return Ok(Woken::UnderWay);
        }
        let number = self.number()?;
        self.task = self.next()?;
        self.state = State::Rest;
        Ok(Woken::Rest(number))
    }

    // Brings power back to the memory, and then wakes.
    #[tactic(auto, using(crate::proofs::Waking::relit_readable), unfolding(crate::specs::Waking::WakesTo))]
    fn bring_back(&mut self, charge: u32, scrap: u16) -> Result<Woken, Fault>
        ensures rules { self.new.rules ≡ self.old.rules }
        ensures scrap { M.Memory.given self.new.memory scrap }
        ensures brings { BringsBack M.Memory self.old charge result self.new }
    {
        self.memory.relight(charge, scrap)?;
        Ok(self.wake()?)
    }

    // Relights the memory, and drops any attempt.
    #[tactic(auto, using(calls::proofs::Keeps::relight_keeps, crate::proofs::Waking::awake_lawful))]
    pub fn relight(&mut self, charge: u32, scrap: u16) -> Result<Woken, Refusal>
        ensures takes { Takes M.Memory self.old (Event.Relight charge scrap result) self.new }
        ensures scrap { M.Memory.given self.new.memory scrap }
    {
        let before = self.state.phase();
        let task = self.task;
        match self.bring_back(charge, scrap) {
            Ok(woken) => Ok(woken),
            Err(fault) => {
                self.state = State::Dark;
                Err(Refusal {
                    why: fault.into(),
                    before,
                    task,
                })
            }
        }
    }
}
