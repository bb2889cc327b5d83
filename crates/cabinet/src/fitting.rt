// What a memory must be for a program before it is looked into.
ghost use Rattle.cabinet.specs.Cabinets.{source};
ghost use Rattle.cabinet.specs.Fitting.{Fits};

use calls::unready::Unready;
use layout::layout::Layout;
use memory::fault::Fault;
use memory::interface::Memory;
use rules::rules::Rules;

// Whole, long enough and lit; or the first that it is not.
pub(crate) fn fit<M: Memory>(rules: &Rules, memory: &M) -> Result<(), Unready>
    ensures { Fits M.Memory (source rules.now) memory.now result }
{
    if !memory.whole() {
        return Err(Unready::Torn);
    }
    if memory.len() < Layout::of(rules.program()).least_length() {
        return Err(Unready::Short);
    }
    if !memory.lit() {
        return Err(Unready::Memory(Fault::Dark));
    }
    Ok(())
}
