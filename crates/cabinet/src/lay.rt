// A memory is laid for a program.
ghost use Rattle.std.specs.Prelude.{◌+◌, ◌≤◌, length};
ghost use Rattle.cabinet.specs.Cabinets.{source};
ghost use Rattle.cabinet.specs.Laying.{Lays, LeavesPage, ScrapStays, StoresFrom, StoresPage};

use crate::fitting::fit;
use calls::unready::Unready;
use layout::layout::Layout;
use memory::fault::Fault;
use memory::interface::Memory;
use rules::rules::Rules;

// Stands for the next task while laying is unfinished: no task, and no stop.
const UNLAID: u16 = 65535;

// Stores words one after the other, from a place on.
#[tactic(auto, using(crate::proofs::Laying::all_answer, crate::proofs::Laying::all_left, crate::proofs::Laying::next_answer, crate::proofs::Laying::next_left, crate::proofs::Laying::no_answer, crate::proofs::Laying::all_is_left))]
fn store_from<M: Memory>(memory: &mut M, place: u16, words: &[u16]) -> Result<(), Fault>
    requires { place + length words.now ≤ 65535 }
    ensures stores { StoresFrom M.Memory place words.now memory.old result memory.new }
    ensures scrap { ScrapStays M.Memory memory.old memory.new }
{
    for (k, word) in words.iter().enumerate() {
        memory.write(place + k as u16, *word)?;
    }
    Ok(())
}

// Stores the page of a program that has made no visit.
#[tactic(auto, unfolding(crate::specs::Laying::page_answer, crate::specs::Laying::page_left))]
fn store_page<M: Memory>(rules: &Rules, memory: &mut M) -> Result<(), Fault>
    ensures stores { StoresPage M.Memory (source rules.now) memory.old result memory.new }
    ensures scrap { ScrapStays M.Memory memory.old memory.new }
{
    let layout = Layout::of(rules.program());
    store_from(memory, layout.next(), &[UNLAID])?;
    // the head and the visit number, and then the record's length and words
    store_from(memory, layout.head(), &[0; 3])?;
    store_from(memory, layout.length(), &[0; 9])?;
    store_from(
        memory,
        layout.variables(),
        rules.program().firsts().as_slice(),
    )?;
    store_from(memory, layout.next(), &[0])
}

// Lays a memory for a program: it then holds the page of a program that has made no visit. From the first store to the last the word
// for the next task is one with which no memory is opened.
#[tactic(auto, using(crate::proofs::Laying::page_answers, crate::proofs::Laying::page_leaves, crate::proofs::LaidWords::laid_page))]
pub fn lay<M: Memory>(rules: &Rules, memory: &mut M) -> Result<(), Unready>
    ensures laid { Lays M.Memory (source rules.now) memory.old result memory.new }
    ensures page { LeavesPage M.Memory (source rules.now) memory.old result memory.new }
    ensures scrap { ScrapStays M.Memory memory.old memory.new }
{
    fit(rules, memory)?;
    store_page(rules, memory)?;
    Ok(())
}
