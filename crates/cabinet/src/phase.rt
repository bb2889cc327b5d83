// The phase of a state: the state alone, without what is remembered in it.
ghost use Rattle.std.specs.Prelude.{◌≡◌};
ghost use Rattle.calls.specs.Stages.{phase};
ghost use Rattle.cabinet.specs.States.{stage_of};

use crate::state::State;
use calls::refusal::Phase;

impl State {
    pub(crate) fn phase(&self) -> Phase
        ensures { result ≡ phase (stage_of self.now) }
    {
        match self {
            State::Settled => Phase::Settled,
            State::Rest => Phase::Rest,
            State::Running(_) => Phase::Running,
            State::Logging(_) => Phase::Logging,
            State::Applying(_) => Phase::Applying,
            State::Dark => Phase::Dark,
        }
    }
}
