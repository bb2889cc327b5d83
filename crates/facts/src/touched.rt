// The variables that a task writes and reads, and those that it has to log.
ghost use Rattle.std.specs.Prelude.{◌≡◌, [], ◌∷◌};
ghost use Rattle.program.specs.Shapes.{operands, targets};
ghost use Rattle.facts.specs.Touched.{meet, note_reads, note_writes, read_by, touch, untouched, written_to};
ghost use Rattle.facts.specs.TouchedLaws.{meet_associative, meet_commutative, meet_idempotent, touch_distributes};

use crate::kind::Kind;
use crate::set::VariableSet;
use program::statement::{Operand, Statement, Target};

// What the paths of a task touch.
#[derive(Clone, Copy, PartialEq, Eq, Debug)]
pub struct Touches {
    // written on every path
    pub written: VariableSet,
    // read on some path with no earlier write on it
    pub read_first: VariableSet,
    // so read, and then written on that path
    pub logged: VariableSet,
}

// The kind of such facts.
#[derive(Clone, Copy, PartialEq, Eq, Debug)]
pub struct Touched;

// The variable that an operand reads, if it reads one.
#[tactic(auto, using(crate::proofs::Statements::reading))]
fn read_by_one(operand: Operand) -> VariableSet
    ensures { result ≡ read_by (operand ∷ []) }
{
    match operand {
        Operand::Variable(variable) => VariableSet::single(variable),
        Operand::Number(_) | Operand::Local(_) | Operand::Input(_) => VariableSet::empty(),
    }
}

// The variables that two operands read.
#[tactic(auto, using(crate::proofs::Statements::both_read))]
fn read_by_both(left: Operand, right: Operand) -> VariableSet
    ensures { result ≡ read_by (left ∷ right ∷ []) }
{
    read_by_one(left).union(read_by_one(right))
}

// The variables that a statement reads.
#[tactic(auto, using(crate::proofs::Statements::reading))]
fn reads(statement: Statement) -> VariableSet
    ensures { result ≡ read_by (operands statement) }
{
    match statement {
        Statement::Set { left, right, .. } => read_by_both(left, right),
        Statement::Emit(operand) => read_by_one(operand),
        Statement::Skip { test, .. } | Statement::Choose { test, .. } => {
            read_by_both(test.left, test.right)
        }
        Statement::Next(_) | Statement::Stop => VariableSet::empty(),
    }
}

// The variable that a target is, if it is one.
#[tactic(auto, using(crate::proofs::Statements::writing))]
fn written_to_one(target: Target) -> VariableSet
    ensures { result ≡ written_to (target ∷ []) }
{
    match target {
        Target::Variable(variable) => VariableSet::single(variable),
        Target::Local(_) => VariableSet::empty(),
    }
}

// The variables that a statement writes.
#[tactic(auto, using(crate::proofs::Statements::writing))]
fn writes(statement: Statement) -> VariableSet
    ensures { result ≡ written_to (targets statement) }
{
    match statement {
        Statement::Set { target, .. } => written_to_one(target),
        Statement::Emit(_)
        | Statement::Skip { .. }
        | Statement::Next(_)
        | Statement::Choose { .. }
        | Statement::Stop => VariableSet::empty(),
    }
}

// The fact after these variables are read: those that are not written before are read first.
fn note_reads(fact: Touches, read: VariableSet) -> Touches
    ensures { result ≡ note_reads read fact }
{
    let unwritten = read.difference(fact.written);
    Touches {
        read_first: fact.read_first.union(unwritten),
        ..fact
    }
}

// The fact after these variables are written: those that are read first are logged.
fn note_writes(fact: Touches, written: VariableSet) -> Touches
    ensures { result ≡ note_writes written fact }
{
    let logged = fact.read_first.intersection(written);
    Touches {
        written: fact.written.union(written),
        logged: fact.logged.union(logged),
        ..fact
    }
}

impl Kind for Touched {
    type Fact = Touches;

    ghost start = { λ _. untouched };

    ghost effect = { λ _. touch };

    ghost join = { λ _. meet };

    ghost associative = { λ _. meet_associative };

    ghost commutative = { λ _. meet_commutative };

    ghost idempotent = { λ _. meet_idempotent };

    ghost distributes = { λ _. touch_distributes };

    fn start(&self) -> Touches {
        Touches {
            written: VariableSet::empty(),
            read_first: VariableSet::empty(),
            logged: VariableSet::empty(),
        }
    }

    // A statement reads before it writes.
    fn effect(&self, statement: Statement, fact: Touches) -> Touches {
        note_writes(note_reads(fact, reads(statement)), writes(statement))
    }

    fn join(&self, one: Touches, other: Touches) -> Touches {
        Touches {
            written: one.written.intersection(other.written),
            read_first: one.read_first.union(other.read_first),
            logged: one.logged.union(other.logged),
        }
    }
}
