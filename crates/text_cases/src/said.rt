// The statements that a text says, in every form.
use crate::accepted::{compiled, index};
use program::program::Program;
use program::statement::{Comparison, Operand, Operator, Reach, Statement, Target, Test};
use std::process::Abort;
use std::test::Fail;

// What a statement names.
#[derive(Clone, Copy)]
enum Name {
    Number(u16),
    Variable(usize),
    Local(usize),
    Input(usize),
}

// A statement, with tasks by their numbers.
#[derive(Clone, Copy)]
enum Line {
    Set(Name, Name, Operator, Name),
    Emit(Name),
    Skip(u8, Name, Comparison, Name),
    Next(usize),
    Choose(usize, Name, Comparison, Name, usize),
    Stop,
}

use Line::{Choose, Emit, Next, Set, Skip, Stop};
use Name::{Input, Local, Number, Variable};

const DECLARATIONS: &str = "var a 1\nloc s\nvar b 2\nvar c 3\nloc t\n";

// A task of a text, and the statements that it says.
const TASKS: [(&str, &[Line]); 5] = [
    (
        "task first\nset a in0 + 14\nset b a - 00005\nset c b & in7\nset s 65535 | c\nset t s ^ t\nset a 0 / b\nset t t % 3\nnext third\n",
        &[
            Set(Variable(0), Input(0), Operator::Plus, Number(14)),
            Set(Variable(1), Variable(0), Operator::Minus, Number(5)),
            Set(Variable(2), Variable(1), Operator::And, Input(7)),
            Set(Local(0), Number(65535), Operator::Or, Variable(2)),
            Set(Local(1), Local(0), Operator::Xor, Local(1)),
            Set(Variable(0), Number(0), Operator::Quotient, Variable(1)),
            Set(Local(1), Local(1), Operator::Remainder, Number(3)),
            Next(2),
        ],
    ),
    (
        "task second\nemit a\n# emit b\nemit t\n\n  emit   in3\nemit 9\nnext first 1 < a second\n",
        &[
            Emit(Variable(0)),
            Emit(Local(1)),
            Emit(Input(3)),
            Emit(Number(9)),
            Choose(0, Number(1), Comparison::Less, Variable(0), 1),
        ],
    ),
    (
        "task third\nskip 3 a = b\nskip 02 in6 < 007\nskip 00001 c = s\nset a a + a\nnext fourth s = in5 last\n",
        &[
            Skip(3, Variable(0), Comparison::Equal, Variable(1)),
            Skip(2, Input(6), Comparison::Less, Number(7)),
            Skip(1, Variable(2), Comparison::Equal, Local(0)),
            Set(Variable(0), Variable(0), Operator::Plus, Variable(0)),
            Choose(3, Local(0), Comparison::Equal, Input(5), 4),
        ],
    ),
    ("task fourth\nnext fourth\n", &[Next(3)]),
    ("task last\nstop\n", &[Stop]),
];

fn operand(name: Name) -> Result<Operand, Fail> {
    Ok(match name {
        Name::Number(word) => Operand::Number(word),
        Name::Variable(number) => Operand::Variable(index(number)?),
        Name::Local(number) => Operand::Local(index(number)?),
        Name::Input(number) => Operand::Input(index(number)?),
    })
}

fn target(name: Name) -> Result<Target, Fail> {
    match operand(name)? {
        Operand::Variable(variable) => Ok(Target::Variable(variable)),
        Operand::Local(local) => Ok(Target::Local(local)),
        Operand::Number(_) | Operand::Input(_) => Err(Fail::from("no target")),
    }
}

fn test(left: Name, comparison: Comparison, right: Name) -> Result<Test, Fail> {
    Ok(Test {
        left: operand(left)?,
        comparison,
        right: operand(right)?,
    })
}

fn statement(line: Line) -> Result<Statement, Fail> {
    Ok(match line {
        Set(name, left, operator, right) => Statement::Set {
            target: target(name)?,
            left: operand(left)?,
            operator,
            right: operand(right)?,
        },
        Emit(name) => Statement::Emit(operand(name)?),
        Skip(count, left, comparison, right) => Statement::Skip {
            reach: Reach::new(count).ok_or("no reach")?,
            test: test(left, comparison, right)?,
        },
        Next(task) => Statement::Next(index(task)?),
        Choose(then, left, comparison, right, otherwise) => Statement::Choose {
            test: test(left, comparison, right)?,
            then: index(then)?,
            otherwise: index(otherwise)?,
        },
        Stop => Statement::Stop,
    })
}

// A task says what these lines do.
fn check_statements(
    rt: &impl Abort,
    program: &Program,
    number: usize,
    lines: &[Line],
) -> Result<(), Fail> {
    let statements = program.statements(index(number)?);
    assert_eq!(rt; statements.len(), lines.len());
    for (found, line) in statements.iter().zip(lines) {
        let expected = statement(*line)?;
        assert_eq!(rt; *found, expected);
    }
    Ok(())
}

// Each task of a text does; there is no other.
fn check_text(rt: &impl Abort, text: &str) -> Result<(), Fail> {
    let compiled = compiled(text)?;
    let program = compiled.rules.program();
    for (number, (_, lines)) in TASKS.iter().enumerate() {
        check_statements(rt, program, number, lines)?;
    }
    for number in TASKS.len()..16 {
        check_statements(rt, program, number, &[])?;
    }
    Ok(())
}

#[test]
fn statements(rt: HostRuntime) -> Result<(), Fail> {
    let mut text = String::from_str(rt.alloc(), DECLARATIONS)?;
    for (task, _) in TASKS {
        text.push_str(task)?;
    }
    check_text(&rt, &text)
}
