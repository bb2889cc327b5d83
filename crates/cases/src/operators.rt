// What the operators give at their edges.
use crate::build::{index, one_task};
use crate::read::visited;
use program::statement::{Operand, Operator, Statement, Target};
use std::process::Abort;
use std::test::Fail;

// var x LEFT, var y RIGHT, var z 0, task: set z x OPERATOR y, stop. Answers z after a visit.
fn result_of(left: u16, operator: Operator, right: u16) -> Result<u16, Fail> {
    let set = Statement::Set {
        target: Target::Variable(index(2)),
        left: Operand::Variable(index(0)),
        operator,
        right: Operand::Variable(index(1)),
    };
    let program = one_task(&[set, Statement::Stop], &[left, right, 0], 0)?;
    let words = visited::<15>(&program, &[0; 8])?;
    Ok(words[14])
}

// Of each left word and right word the operator has the third word as its result.
fn check_results(
    rt: &impl Abort,
    operator: Operator,
    cases: &[(u16, u16, u16)],
) -> Result<(), Fail> {
    for &(left, right, expected) in cases {
        assert_eq!(rt;
            result_of(left, operator, right)?,
            expected,
            "{left} {operator} {right}"
        );
    }
    Ok(())
}

// A sum of 65536 or more wraps.
#[test]
fn sums(rt: HostRuntime) -> Result<(), Fail> {
    let cases = [
        (0, 0, 0),
        (65535, 1, 0),
        (65535, 65535, 65534),
        (100, 14, 114),
    ];
    check_results(&rt, Operator::Plus, &cases)
}

// A difference below 0 wraps.
#[test]
fn differences(rt: HostRuntime) -> Result<(), Fail> {
    let cases = [(0, 1, 65535), (5, 5, 0), (65535, 65535, 0), (0, 65535, 1)];
    check_results(&rt, Operator::Minus, &cases)
}

// And, or and exclusive or go bit by bit.
#[test]
fn bits(rt: HostRuntime) -> Result<(), Fail> {
    let cases = [
        (0, 0, 0),
        (0, 65535, 0),
        (65535, 65535, 65535),
        (12, 10, 8),
        (12, 65535, 12),
    ];
    check_results(&rt, Operator::And, &cases)?;
    let cases = [
        (0, 0, 0),
        (0, 65535, 65535),
        (65535, 65535, 65535),
        (12, 10, 14),
        (12, 0, 12),
    ];
    check_results(&rt, Operator::Or, &cases)?;
    let cases = [
        (0, 0, 0),
        (0, 65535, 65535),
        (65535, 65535, 0),
        (12, 10, 6),
        (12, 65535, 65523),
    ];
    check_results(&rt, Operator::Xor, &cases)
}

// A quotient is rounded down, and by 0 it is 0.
#[test]
fn quotients(rt: HostRuntime) -> Result<(), Fail> {
    let cases = [
        (7, 2, 3),
        (65535, 1, 65535),
        (0, 5, 0),
        (0, 0, 0),
        (1, 0, 0),
        (65535, 0, 0),
        (65535, 65535, 1),
        (65534, 65535, 0),
    ];
    check_results(&rt, Operator::Quotient, &cases)
}

// A remainder is what the quotient leaves, and by 0 it is 0.
#[test]
fn remainders(rt: HostRuntime) -> Result<(), Fail> {
    let cases = [
        (7, 2, 1),
        (5, 5, 0),
        (3, 65535, 3),
        (0, 0, 0),
        (3, 0, 0),
        (65535, 0, 0),
        (65535, 2, 1),
    ];
    check_results(&rt, Operator::Remainder, &cases)
}
