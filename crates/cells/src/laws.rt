// Laws of the rule of three cells, over any unit and over any memory, and the definitions on examples. Each function stands for one: its contract is the law.
ghost use Rattle.cells.specs.Examples.{ExamplesHold};
ghost use Rattle.cells.specs.Laws.{MakingIsLawful, MendingIsARelight, MendsThroughACut, ReadsOldOrNew, StoresThroughACut, ThreeStoresAreOne};

// Cells on the way from an old unit to a new one read as one of the two.
#[tactic(auto, using(crate::proofs::Triples::reads_old_or_new))]
pub fn reads_old_or_new_stands<T>()
    ensures { ReadsOldOrNew T }
{}

// A unit stored to three equal cells is on its way at every cut.
#[tactic(auto, using(crate::proofs::Triples::stores_through_a_cut))]
pub fn stores_through_a_cut_stands<T>()
    ensures { StoresThroughACut T }
{}

// Cells that are mended stay on the way at every cut, and then hold what they read as.
#[tactic(auto, using(crate::proofs::Triples::mends_through_a_cut))]
pub fn mends_through_a_cut_stands<T>()
    ensures { MendsThroughACut T }
{}

// Over any memory, three stores are one store of the memory above.
#[tactic(auto, using(crate::proofs::Writing::stored_above))]
pub fn three_stores_are_one_stands()
    ensures { ThreeStoresAreOne }
{}

// A relight below, with all words mended, is a relight above.
#[tactic(auto, using(crate::proofs::Relighting::relit_above))]
pub fn mending_is_a_relight_stands()
    ensures { MendingIsARelight }
{}

// What is made over a lit memory with at most one unequal word is lawful.
#[tactic(auto, using(crate::proofs::Scans::made_above))]
pub fn making_is_lawful_stands()
    ensures { MakingIsLawful }
{}

// What the rule and a three-cell memory come to on examples.
pub fn examples_hold()
    ensures { ExamplesHold }
{}
