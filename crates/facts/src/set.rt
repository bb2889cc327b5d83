// A set of variables: variable v is in it where bit v is 1.
ghost use Rattle.std.specs.Prelude.{◌<◌, ◌^◌};

pub mod members;

#[derive(Clone, Copy, PartialEq, Eq, Debug)]
pub struct VariableSet {
    bits: u64,
    ghost known: { bits < 2 ^ 48 },
}
