// Laws of begin and step, each the contract of a function.
ghost use Rattle.calls.specs.StepLaws.{BeginRefusals, BeginStoresNothing, StepRefusals, StepStoresOnce};

// A lawful cabinet refuses a step with 3 when dark, with 35 when settled or at rest, with 5 when the step's store is cut, and else never.
#[tactic(auto, using(crate::proofs::StepLaws::step_refusals))]
pub fn step_refusals_stands()
    ensures { StepRefusals }
{}

// A step makes one store at most.
#[tactic(auto, using(crate::proofs::StepLaws::step_stores_once))]
pub fn step_stores_once_stands()
    ensures { StepStoresOnce }
{}

// A lawful cabinet refuses a begin with the numbers of the table, in their order.
#[tactic(auto, using(crate::proofs::StepLaws::begin_refusals))]
pub fn begin_refusals_stands()
    ensures { BeginRefusals }
{}

// Begin stores nothing, and where it is refused nothing alters.
#[tactic(auto, using(crate::proofs::StepLaws::begin_stores_nothing))]
pub fn begin_stores_nothing_stands()
    ensures { BeginStoresNothing }
{}
