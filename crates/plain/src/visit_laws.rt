// Laws of the plain machine over any number of visits. Each function stands for one: its contract is the law.
ghost use Rattle.plain.specs.Examples.{ExamplesHold};
ghost use Rattle.plain.specs.Series.{NumbersVisits, NextKnown, RowsBelow, PageTellsNumber, PageLength};

// As long as the machine has not stopped, its visit number is the number of visits.
#[tactic(auto, using(crate::proofs::Series::numbers_visits))]
pub fn numbers_visits_stands()
    ensures { NumbersVisits }
{}

// Of a well-formed program, what comes next is always one of its tasks, or nothing after a stop.
#[tactic(auto, using(crate::proofs::Series::next_known))]
pub fn next_known_stands()
    ensures { NextKnown }
{}

// The page after n visits depends on the first n rows alone.
#[tactic(auto, using(crate::proofs::Series::rows_below))]
pub fn rows_below_stands()
    ensures { RowsBelow }
{}

// Two pages that are equal have one visit number.
#[tactic(auto, using(crate::proofs::Series::page_tells_number))]
pub fn page_tells_number_stands()
    ensures { PageTellsNumber }
{}

// A page has 12 words and one for each variable.
#[tactic(auto, using(crate::proofs::Series::page_is_long))]
pub fn page_length_stands()
    ensures { PageLength }
{}

// What well-formedness and the machine come to on examples.
#[tactic(auto, using(crate::proofs::Examples::examples_hold))]
pub fn examples_hold()
    ensures { ExamplesHold }
{}
