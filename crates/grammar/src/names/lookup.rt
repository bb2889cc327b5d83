// How names are declared and looked up.
ghost use Rattle.std.specs.Prelude.{◌≡◌, ◌<◌, ◌++◌, [], length, map, ◌∷◌};
ghost use Rattle.std.specs.List.{list_any, position};
ghost use Rattle.std.specs.Option.{option_and_then, option_map};
ghost use Rattle.std.specs.Str.{bytes_eq};
ghost use Rattle.words.specs.Lists.{items, pushed};
ghost use Rattle.grammar.specs.Names.{index_of, bytes_of, declared, index_in, is_among, is_declared, nothing, place_among};
ghost use Rattle.grammar.specs.Reading.{target_named};

use crate::names::Names;
use program::statement::{Index, Local, Target, Task, Variable};
use words::list::Short;

// Which of the names is the word, from 0.
fn place(names: &[&[u8]], word: &[u8]) -> Option<usize>
    ensures { result ≡ position (λ name. bytes_eq name.now word.now) names.now }
{
    names.iter().position(|&name| name == word)
}

// Whether one of the names is the word.
fn is_one_of(names: &[&[u8]], word: &[u8]) -> bool
    ensures { result ≡ list_any (λ name. bytes_eq name.now word.now) names.now }
{
    names.iter().any(|&name| name == word)
}

// The same of a list.
fn place_in(names: &[&[u8]], word: &[u8]) -> Option<usize>
    ensures { result ≡ place_among (bytes_of names.now) word.now }
{
    place(names, word)
}

fn is_in(names: &[&[u8]], word: &[u8]) -> bool
    ensures { result ≡ is_among (bytes_of names.now) word.now }
{
    is_one_of(names, word)
}

// The number of the first name that is the word.
#[tactic(auto, using(crate::proofs::Found::index_made, crate::proofs::Found::index_unknown))]
fn index<const N: u8>(place: Option<usize>) -> Option<Index<N>>
    ensures { result ≡ option_and_then index_of place }
{
    Index::new(u8::try_from(place?).ok()?)
}

impl<'t> Names<'t> {
    // No names.
    pub(crate) fn new() -> Names<'t>
        ensures { declared result ≡ nothing }
    {
        Names {
            variables: Short::new(),
            locals: Short::new(),
            tasks: Short::new(),
        }
    }

    // The variable or local of a name.
    pub fn target(&self, name: &[u8]) -> Option<Target>
        ensures { result ≡ target_named (declared self.now) name.now }
    {
        if let Some(variable) = index(place_in(self.variables.as_slice(), name)) {
            return Some(Target::Variable(variable));
        }
        index(place_in(self.locals.as_slice(), name)).map(Target::Local)
    }

    // The task of a name.
    pub fn task(&self, name: &[u8]) -> Option<Task>
        ensures { result ≡ index_in (declared self.now).tasks name.now }
    {
        index(place_in(self.tasks.as_slice(), name))
    }

    // Whether a name is declared already.
    pub(crate) fn has(&self, name: &[u8]) -> bool
        ensures { result ≡ is_declared (declared self.now) name.now }
    {
        is_in(self.variables.as_slice(), name)
            || is_in(self.locals.as_slice(), name)
            || is_in(self.tasks.as_slice(), name)
    }
}

impl<'t> Names<'t> {
    // Declares a variable, a local, a task: each where there is room.
    #[tactic(auto, using(crate::proofs::Found::bytes_of_pushed))]
    pub(crate) fn add_variable(&mut self, name: &'t [u8])
        requires { length (declared self.old).variables < 48 }
        ensures { declared self.new ≡ record (declared self.old) { variables = (declared self.old).variables ++ name.now ∷ [] } }
    {
        let _ = self.variables.push(name);
    }

    #[tactic(auto, using(crate::proofs::Found::bytes_of_pushed))]
    pub(crate) fn add_local(&mut self, name: &'t [u8])
        requires { length (declared self.old).locals < 8 }
        ensures { declared self.new ≡ record (declared self.old) { locals = (declared self.old).locals ++ name.now ∷ [] } }
    {
        let _ = self.locals.push(name);
    }

    #[tactic(auto, using(crate::proofs::Found::bytes_of_pushed))]
    pub(crate) fn add_task(&mut self, name: &'t [u8])
        requires { length (declared self.old).tasks < 16 }
        ensures { declared self.new ≡ record (declared self.old) { tasks = (declared self.old).tasks ++ name.now ∷ [] } }
    {
        let _ = self.tasks.push(name);
    }

    // The names of the variables, of the locals and of the tasks, in the order of their declarations.
    pub fn variables(&self) -> &[&'t [u8]]
        ensures { bytes_of result.now ≡ (declared self.now).variables }
    {
        self.variables.as_slice()
    }

    pub fn locals(&self) -> &[&'t [u8]]
        ensures { bytes_of result.now ≡ (declared self.now).locals }
    {
        self.locals.as_slice()
    }

    pub fn tasks(&self) -> &[&'t [u8]]
        ensures { bytes_of result.now ≡ (declared self.now).tasks }
    {
        self.tasks.as_slice()
    }
}
