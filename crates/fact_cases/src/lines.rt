// Tasks as tables write them, by plain numbers, and the programs made of them.
use program::draft::Draft;
use program::program::Program;
use program::statement::{
    Comparison, Index, Operand, Operator, Reach, Statement, Target, Task, Test,
};
use std::test::Fail;

// An operand.
#[derive(Clone, Copy)]
pub(crate) enum Name {
    Number(u16),
    Variable(u8),
    Local(u8),
    Input(u8),
}

// A statement. A set has the number of what it alters and the operands of a sum, a skip its reach and the operands of its
// test; the next task is always the first.
#[derive(Clone, Copy, Default)]
pub(crate) enum Line {
    #[default]
    Stop,
    Set(u8, Name, Name),
    SetLocal(u8, Name, Name),
    Emit(Name),
    Skip(u8, Name, Name),
    Next,
    Choose(Name, Name),
}

// The thing with a number that its kind has.
pub(crate) fn index<const N: u8>(number: u8) -> Result<Index<N>, Fail> {
    Ok(Index::new(number).ok_or("no such number")?)
}

fn operand(name: Name) -> Result<Operand, Fail> {
    Ok(match name {
        Name::Number(word) => Operand::Number(word),
        Name::Variable(number) => Operand::Variable(index(number)?),
        Name::Local(number) => Operand::Local(index(number)?),
        Name::Input(number) => Operand::Input(index(number)?),
    })
}

// LEFT < RIGHT
fn less(left: Name, right: Name) -> Result<Test, Fail> {
    Ok(Test {
        left: operand(left)?,
        comparison: Comparison::Less,
        right: operand(right)?,
    })
}

// set TARGET LEFT + RIGHT
fn sum(target: Target, left: Name, right: Name) -> Result<Statement, Fail> {
    Ok(Statement::Set {
        target,
        left: operand(left)?,
        operator: Operator::Plus,
        right: operand(right)?,
    })
}

fn statement(line: Line) -> Result<Statement, Fail> {
    let first: Task = index(0)?;
    Ok(match line {
        Line::Stop => Statement::Stop,
        Line::Set(number, left, right) => sum(Target::Variable(index(number)?), left, right)?,
        Line::SetLocal(number, left, right) => sum(Target::Local(index(number)?), left, right)?,
        Line::Emit(name) => Statement::Emit(operand(name)?),
        Line::Skip(count, left, right) => Statement::Skip {
            reach: Reach::new(count).ok_or("no reach")?,
            test: less(left, right)?,
        },
        Line::Next => Statement::Next(first),
        Line::Choose(left, right) => Statement::Choose {
            test: less(left, right)?,
            then: first,
            otherwise: first,
        },
    })
}

// A draft of all variables and locals that there may be.
fn declared() -> Result<Draft, Fail> {
    let mut draft = Draft::new();
    for _ in 0..48 {
        draft.variable(0)?;
    }
    for _ in 0..8 {
        draft.local()?;
    }
    Ok(draft)
}

// A program of these tasks.
pub(crate) fn program(tasks: &[&[Line]]) -> Result<Program, Fail> {
    let mut draft = declared()?;
    for task in tasks {
        draft.task()?;
        for line in task.iter() {
            draft.statement(statement(*line)?)?;
        }
    }
    Ok(Program::new(draft)?)
}
