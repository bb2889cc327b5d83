// What is printed for texts: a refusal's first line and marked line word for word, and a part of its sentence.
use super::*;
use std::alloc::{AllocError, Global};
use std::process::Abort;
use std::test::Fail;

// A text, the lines above the sentence, and a part of the sentence.
type Case<'a> = (&'a [u8], &'a str, &'a str);

fn printed(alloc: Global, text: &[u8]) -> Result<String, AllocError> {
    match answer(text) {
        Ok(accepted) => format!(in alloc; "{accepted}"),
        Err(refused) => format!(in alloc; "{refused}"),
    }
}

fn check(rt: &(impl Abort + AllocGlobal), case: Case<'_>) -> Result<(), Fail> {
    let (text, above, part) = case;
    let printed = printed(rt.alloc(), text)?;
    let Some((lines, sentence)) = printed.as_str().rsplit_once('\n') else {
        panic!(rt; "one line: {printed}")
    };
    assert_eq!(rt; lines, above);
    assert!(rt; sentence.contains(part), "{sentence}");
    Ok(())
}

// Logged names stand in the order of their declarations; a task may log none.
#[test]
fn accepted(rt: HostRuntime) -> Result<(), Fail> {
    let text =
        b"var b 1\nvar a 2\nvar c 3\ntask first\nset c 1 + 1\nset a a + c\nset b b - 1\nnext second\ntask second\nstop";
    let printed = printed(rt.alloc(), text)?;
    assert_eq!(rt;
        printed.as_str(),
        "accepted\ntask first logged b a emits 0 direct 1\ntask second logged emits 0 direct 0\nbounds 27 90"
    );
    Ok(())
}

// A byte that is no plain text is shown as a `?`, and the mark stands under the first of them.
#[test]
fn strange_bytes(rt: HostRuntime) -> Result<(), Fail> {
    check(
        &rt,
        (
            b"\xc8\xc8",
            "refused 11 1 0\n??\n^",
            "plain English keyboard",
        ),
    )?;
    check(
        &rt,
        (
            b"var a 1\n# f\xc3\xbcr\t~\x7f\ntask a",
            "refused 11 2 11\n# f??r?~?\n   ^",
            "not even in a remark",
        ),
    )
}

// Where no line is told there is only a sentence.
#[test]
fn no_line(rt: HostRuntime) -> Result<(), Fail> {
    check(&rt, (&[b'\n'; 16_385], "refused 10 0 0", "at most 16,384"))?;
    check(&rt, (b"", "refused 18 0 0", "at least one task"))?;
    check(
        &rt,
        (
            b"task a\nemit in0\n",
            "refused 18 0 16",
            "is a next or a stop",
        ),
    )
}

// What is allowed depends on the word with which the line begins.
#[test]
fn forms(rt: HostRuntime) -> Result<(), Fail> {
    for case in [
        (
            &b"var a\n"[..],
            "refused 12 1 0\nvar a\n^",
            "var NAME NUMBER,",
        ),
        (b"loc a 1", "refused 12 1 0\nloc a 1\n^", "loc NAME,"),
        (b"task a\ntask b", "refused 12 2 7\ntask b\n^", "task NAME,"),
        (
            b"task a\n  set x 1 * 2\nstop\n",
            "refused 12 2 9\n  set x 1 * 2\n  ^",
            "+ - & | ^ / %,",
        ),
        (b"emit 1", "refused 12 1 0\nemit 1\n^", "emit A,"),
        (
            b"task a\nskip 1 in0 > 1",
            "refused 12 2 7\nskip 1 in0 > 1\n^",
            "CMP is = or <",
        ),
        (
            b"task a\nnext a b",
            "refused 12 2 7\nnext a b\n^",
            "next TASK A CMP B TASK",
        ),
        (
            b"task a\nstop # done",
            "refused 12 2 7\nstop # done\n^",
            "no other words",
        ),
        (
            b"\n lend 5",
            "refused 12 2 2\n lend 5\n ^",
            "one of the words var,",
        ),
    ] {
        check(&rt, case)?;
    }
    Ok(())
}

// The word that offends.
#[test]
fn words(rt: HostRuntime) -> Result<(), Fail> {
    for case in [
        (
            &b"var in3 0"[..],
            "refused 13 1 4\nvar in3 0\n    ^",
            "none of in0 to in7",
        ),
        (
            b"task a\nset  in1 1 + 2",
            "refused 14 2 12\nset  in1 1 + 2\n     ^",
            "a local can be set",
        ),
        (
            b"task a\nemit t",
            "refused 14 2 12\nemit t\n     ^",
            "inputs in0 to in7",
        ),
        (
            b"task a\nnext b\n",
            "refused 14 2 12\nnext b\n     ^",
            "No task",
        ),
        (
            b"task a\nnext a in0 = 0 b",
            "refused 14 2 22\nnext a in0 = 0 b\n               ^",
            "No task",
        ),
        (
            b"task a\nnext a in8 = 0 a",
            "refused 14 2 14\nnext a in8 = 0 a\n       ^",
            "inputs in0 to in7",
        ),
        (
            b"var a 65536",
            "refused 15 1 6\nvar a 65536\n      ^",
            "at most 65,535",
        ),
        (
            b"task a\nskip 16 1 = 1",
            "refused 15 2 12\nskip 16 1 = 1\n     ^",
            "from 1 to 15",
        ),
        (
            b"task a\nskip 1 1x = 1",
            "refused 15 2 14\nskip 1 1x = 1\n       ^",
            "at most 65,535",
        ),
        (
            b"task a\nskip 1 in0 = 0\nstop\n",
            "refused 17 2 7\nskip 1 in0 = 0\n^",
            "the end of its task",
        ),
    ] {
        check(&rt, case)?;
    }
    Ok(())
}

// A limit passed.
#[test]
fn limits(rt: HostRuntime) -> Result<(), Fail> {
    for case in [
        (
            &b"loc a\nloc b\nloc c\nloc d\nloc e\nloc f\nloc g\nloc h\nloc i\n"[..],
            "refused 16 9 48\nloc i\n^",
            "at most 8.",
        ),
        (
            b"task a\nemit 1\nemit 2\nemit 3\nemit 4\nemit 5\nemit 6\nemit 7\nemit 8\nemit 9\nstop",
            "refused 19 1 0\ntask a\n^",
            "at most 8.",
        ),
    ] {
        check(&rt, case)?;
    }
    Ok(())
}
