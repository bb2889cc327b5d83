// Making memories: each refusal with its number, and what is handed back.
use crate::make::{lowest, three_cells};
use crate::trial::OLD;
use lowest::backing::{Backing, Bytes, Words};
use lowest::memories::Lowest;
use memory::fault::Unmade;
use memory::interface::Memory;
use std::process::Abort;
use std::test::Fail;
use three_cell::memories::ThreeCell;

// The length of the memory over a buffer, or the number of the refusal, which hands back a buffer of the same size. The
// tests are about the numbers, as the rules have them.
fn length<B: Backing + Drop, F: Fn(&B) -> usize>(
    rt: &impl Abort,
    backing: B,
    size: F,
) -> Result<u16, u8>
    requires { F.IsAlwaysCallable size }
{
    let before = size(&backing);
    match Lowest::new(backing, 1, 0) {
        Ok(memory) => Ok(memory.len()),
        Err(unfit) => {
            assert_eq!(rt; size(&unfit.given), before);
            Err(unfit.why.number())
        }
    }
}

// At most 32,768 words, and no part of one.
#[test]
fn sizes(rt: HostRuntime) -> Result<(), Fail> {
    for (count, made) in [(0, Ok(0)), (32768, Ok(32768)), (32769, Err(1))] {
        let mut list = vec![in rt.alloc(); OLD; count]?;
        let words = Words(list.as_mut_slice());
        assert_eq!(rt;
            length(&rt, words, |words| words.0.len()),
            made,
            "of {count} words"
        );
    }
    for (count, made) in [
        (0, Ok(0)),
        (1, Err(1)),
        (65536, Ok(32768)),
        (65537, Err(1)),
        (65538, Err(1)),
    ] {
        let mut list = vec![in rt.alloc(); 7u8; count]?;
        let bytes = Bytes(list.as_mut_slice());
        assert_eq!(rt;
            length(&rt, bytes, |bytes| bytes.0.len()),
            made,
            "of {count} bytes"
        );
    }
    Ok(())
}

// What is made over these words, lit: nothing, the word in doubt read after a relight, or the refusal.
fn cells_over(list: &mut [u16]) -> Result<Option<u16>, Unmade> {
    let words = lowest(Words(list), 9, 0)?;
    let mut memory = three_cells(words)?;
    if memory.lit() {
        return Ok(None);
    }
    let _ = memory.relight(2, 0);
    Ok(memory.read(0).ok())
}

// Lit over equal cells; dark over one unequal triple, and relit to what it reads as; refused over two. Places over are not looked at.
#[test]
fn unequal_triples(rt: HostRuntime) {
    assert_eq!(rt; cells_over(&mut [5, 5, 5, 6, 6, 6, 1, 2]), Ok(None));
    assert_eq!(rt; cells_over(&mut [9, 4, 4, 6, 6, 6]), Ok(Some(4)));
    assert_eq!(rt; cells_over(&mut [9, 4, 7, 6, 6, 6]), Ok(Some(9)));
    assert_eq!(rt; cells_over(&mut [9, 9, 4, 6, 6, 6]), Ok(Some(9)));
    assert_eq!(rt; cells_over(&mut [9, 9, 4, 6, 6, 5]), Err(Unmade::Unequal));
    assert_eq!(rt; cells_over(&mut []), Ok(None));
}

// A third level is too dear, and a dark memory is refused first; what was given comes back as it was.
#[test]
fn levels(rt: HostRuntime) -> Result<(), Fail> {
    let mut list = [OLD; 27];
    let words = lowest(Words(&mut list), 0, 0)?;
    let one = three_cells(words)?;
    let two = three_cells(one)?;
    let Err(unfit) = ThreeCell::new(two) else {
        return Err(Fail::new("a third level"));
    };
    assert_eq!(rt; unfit.why.number(), 2);
    let mut two = unfit.given;
    assert_eq!(rt; two.read(2).ok(), Some(OLD));
    assert!(rt; two.write(0, 1).is_err());
    let Err(unfit) = ThreeCell::new(two) else {
        return Err(Fail::new("made over a dark one"));
    };
    assert_eq!(rt; unfit.why.number(), 3);
    let Words(list) = unfit.given.into_below().into_below().into_backing();
    assert_eq!(rt; &*list, &[OLD; 27][..]);
    Ok(())
}
