// When the comparisons hold at their edges, in the two statements that compare.
use crate::build::{add_task, declared, index, reach, set_sum};
use crate::read::visited;
use program::draft::build::Flaw;
use program::program::Program;
use program::statement::{Comparison, Operand, Statement, Target, Test};
use std::process::Abort;
use std::test::Fail;

// var a LEFT, var b RIGHT, var z 0, task 0: skip 1 a COMPARISON b, set z 0 + 1, next 1 a COMPARISON b 2;
// tasks 1 and 2: stop.
fn comparing(left: u16, comparison: Comparison, right: u16) -> Result<Program, Flaw> {
    let test = Test {
        left: Operand::Variable(index(0)),
        comparison,
        right: Operand::Variable(index(1)),
    };
    let skip = Statement::Skip {
        reach: reach(1),
        test,
    };
    let target = Target::Variable(index(2));
    let set = set_sum(target, Operand::Number(0), Operand::Number(1));
    let choose = Statement::Choose {
        test,
        then: index(1),
        otherwise: index(2),
    };
    let mut draft = declared(&[left, right, 0], 0)?;
    add_task(&mut draft, &[skip, set, choose])?;
    add_task(&mut draft, &[Statement::Stop])?;
    add_task(&mut draft, &[Statement::Stop])?;
    Program::new(draft)
}

// The comparison of each left word with the right word holds or not. Where it holds, the set is skipped and task 1 comes
// next; else it is done and task 2 comes.
fn check_holds(
    rt: &impl Abort,
    comparison: Comparison,
    cases: &[(u16, u16, bool)],
) -> Result<(), Fail> {
    for &(left, right, holds) in cases {
        let program = comparing(left, comparison, right)?;
        let words = visited::<15>(&program, &[0; 8])?;
        let (next, z) = if holds { (1, 0) } else { (2, 1) };
        assert_eq!(rt;
            (words[2], words[14]),
            (next, z),
            "{left} {comparison} {right}"
        );
    }
    Ok(())
}

// `=` holds of equal words alone.
#[test]
fn equal(rt: HostRuntime) -> Result<(), Fail> {
    let cases = [
        (0, 0, true),
        (65535, 65535, true),
        (7, 7, true),
        (0, 65535, false),
        (65535, 0, false),
        (6, 7, false),
        (7, 6, false),
    ];
    check_holds(&rt, Comparison::Equal, &cases)
}

// `<` holds where the left word is less.
#[test]
fn less(rt: HostRuntime) -> Result<(), Fail> {
    let cases = [
        (0, 1, true),
        (0, 65535, true),
        (65534, 65535, true),
        (6, 7, true),
        (0, 0, false),
        (65535, 65535, false),
        (7, 7, false),
        (7, 6, false),
        (65535, 0, false),
    ];
    check_holds(&rt, Comparison::Less, &cases)
}
