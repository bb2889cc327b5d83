// What the run of a task works on: the visit's row, the variables, the locals, the record, and what the ending chose.
use program::statement::Next;
use words::list::Words;

mod work;

// No model as a run, for the reason at `Short`: a visit has a lifetime and holds a frame.
#[derive(Clone, Copy)]
pub struct Frame {
    pub inputs: [u16; 8],
    pub variables: Words<48>,
    pub locals: [u16; 8],
    pub emitted: Words<8>,
    pub chosen: Next,
}
