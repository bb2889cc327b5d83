// How the tests make statements, drafts and programs.
ghost use Rattle.std.specs.Prelude.{◌<◌, ◌≤◌};

use program::draft::Draft;
use program::draft::build::Flaw;
use program::program::Program;
use program::statement::{
    Comparison, Index, Operand, Operator, Reach, Statement, Target, Test, Variable,
};

// The thing with a number that its kind has. Beside `reach`, since the two take different numbers.
pub(crate) fn index<const N: u8>(number: u8) -> Index<N>
    requires { number < N }
{
    Index::new(number).unwrap()
}

// A reach that a skip may have.
pub(crate) fn reach(count: u8) -> Reach
    requires { (0 < count) × (count ≤ 15) }
{
    Reach::new(count).unwrap()
}

// set TARGET LEFT + RIGHT
pub(crate) fn set_sum(target: Target, left: Operand, right: Operand) -> Statement {
    Statement::Set {
        target,
        left,
        operator: Operator::Plus,
        right,
    }
}

// set VARIABLE VARIABLE + 1
pub(crate) fn increment(variable: Variable) -> Statement {
    set_sum(
        Target::Variable(variable),
        Operand::Variable(variable),
        Operand::Number(1),
    )
}

// LEFT = RIGHT
pub(crate) fn equal(left: Operand, right: Operand) -> Test {
    Test {
        left,
        comparison: Comparison::Equal,
        right,
    }
}

// One task more, with its statements.
pub(crate) fn add_task(draft: &mut Draft, statements: &[Statement]) -> Result<(), Flaw> {
    draft.task()?;
    for statement in statements {
        draft.statement(*statement)?;
    }
    Ok(())
}

// A draft of variables with these first values, and so many locals.
pub(crate) fn declared(firsts: &[u16], locals: u8) -> Result<Draft, Flaw> {
    let mut draft = Draft::new();
    for first in firsts {
        draft.variable(*first)?;
    }
    for _ in 0..locals {
        draft.local()?;
    }
    Ok(draft)
}

// A program of one task, over variables with these first values, and so many locals.
pub(crate) fn one_task(
    statements: &[Statement],
    firsts: &[u16],
    locals: u8,
) -> Result<Program, Flaw> {
    let mut draft = declared(firsts, locals)?;
    add_task(&mut draft, statements)?;
    Program::new(draft)
}

// The rule of due dates: var due 0, var n 5, loc t,
// task: set t in0 + 14, set due t + 0, set n n + 1, emit due, next task 0.
pub(crate) fn due_date() -> Result<Program, Flaw> {
    let (due, n, t) = (index(0), index(1), index(0));
    let day = Operand::Input(index(0));
    let statements = [
        set_sum(Target::Local(t), day, Operand::Number(14)),
        set_sum(Target::Variable(due), Operand::Local(t), Operand::Number(0)),
        increment(n),
        Statement::Emit(Operand::Variable(due)),
        Statement::Next(index(0)),
    ];
    one_task(&statements, &[0, 5], 1)
}
