// A walk along every path of a task, one after the other. It joins no facts: it notes what a path meets.
ghost use Rattle.std.specs.Prelude.{◌<◌};

// How many statements a task has.
pub(crate) const LENGTH: usize = 5;

// In how many ways a path can go on at the first three, each of which may be a skip.
const WAYS: u8 = 8;

// What a statement reads and writes of two variables, the words that it emits, and what it can pass over.
#[derive(Clone, Copy)]
pub(crate) struct Deed {
    pub reads: [bool; 2],
    pub writes: [bool; 2],
    pub emits: u8,
    pub reach: u8,
}

// What a path has met, of one variable.
#[derive(Clone, Copy, Default)]
struct Met {
    written: bool,
    read_first: bool,
    sets: u8,
    emits: u8,
}

// And then a statement.
fn then(met: Met, deed: Deed, variable: usize) -> Met
    requires { variable < 2 }
{
    Met {
        written: met.written || deed.writes[variable],
        read_first: met.read_first || deed.reads[variable] && !met.written,
        sets: met.sets.saturating_add(u8::from(deed.writes[variable])),
        emits: met.emits.saturating_add(deed.emits),
    }
}

// What the path meets that passes over what it can at the places whose bits are 1.
fn walk(task: &[Deed; LENGTH], ways: u8, variable: usize) -> Met
    requires { variable < 2 }
{
    let mut met = Met::default();
    let mut next = 0;
    for (at, deed) in task.iter().enumerate() {
        if at == next {
            met = then(met, *deed, variable);
            let passes = ways & (1 << at) != 0;
            next = at + 1 + if passes { usize::from(deed.reach) } else { 0 };
        }
    }
    met
}

// Whether all paths write the variable, some path reads it first, and some path does so and writes it.
pub(crate) fn touched(task: &[Deed; LENGTH], variable: usize) -> [bool; 3]
    requires { variable < 2 }
{
    let mut touched = [true, false, false];
    for ways in 0..WAYS {
        let met = walk(task, ways, variable);
        touched[0] &= met.written;
        touched[1] |= met.read_first;
        touched[2] |= met.read_first && met.written;
    }
    touched
}

// The most words that a path emits.
pub(crate) fn emits(task: &[Deed; LENGTH]) -> u8 {
    let mut most = 0;
    for ways in 0..WAYS {
        most = walk(task, ways, 0).emits.max(most);
    }
    most
}

// How many sets a path makes of variables that are not logged.
fn stores_on(task: &[Deed; LENGTH], ways: u8, logged: [bool; 2]) -> u8 {
    let mut stores: u8 = 0;
    for variable in 0..2 {
        if !logged[variable] {
            stores = stores.saturating_add(walk(task, ways, variable).sets);
        }
    }
    stores
}

// The most that a path makes.
pub(crate) fn stores(task: &[Deed; LENGTH], logged: [bool; 2]) -> u8 {
    let mut most = 0;
    for ways in 0..WAYS {
        most = stores_on(task, ways, logged).max(most);
    }
    most
}
