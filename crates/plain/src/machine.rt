// The machine: its program, the visit number, what comes next, the last visit's record, and the variables.
use program::program::Program;
use program::statement::Next;
use words::list::Words;

pub mod pages;
pub mod replay;
pub mod visits;

#[derive(Clone, Copy)]
pub struct Machine<'p> {
    program: &'p Program,
    number: u32,
    next: Next,
    emitted: Words<8>,
    variables: Words<48>,
}
