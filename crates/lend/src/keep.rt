// One word kept through a cut, in three cells over an image.
ghost use Rattle.std.specs.Prelude.{[], ◌∷◌, ◌≡◌};
ghost use Rattle.lowest.specs.Image.{words_in};

use lowest::backing::Bytes;
use lowest::memories::Image;
use memory::fault::{Cut, Fault};
use memory::interface::Memory;
use three_cell::memories::ThreeCell;

// A word read again, where power had failed when it was stored, and the bytes that hold it.
#[derive(Drop)]
pub(crate) struct Kept<'a> {
    pub(crate) word: u16,
    pub(crate) cut: Cut,
    pub(crate) cells: Bytes<'a>,
}

// Stored with a charge for one of its three cells, so that power fails at the second and leaves 7 there; the old word is 0.
// Then both memories are made anew, since after a loss of power nothing but the bytes remembers, and relit with the dues.
// No `unwrap` of what is made: of a value whose two variants both hold the borrowed buffer there is no proof.
pub(crate) fn through_a_cut<'a>(bytes: &'a mut [u8; 6], word: u16) -> Kept<'a>
    ensures word { result.word ≡ word }
    ensures cut { result.cut ≡ record { place = 1; layers = 1 } }
    ensures cells { words_in result.cells.0.now ≡ word ∷ word ∷ word ∷ [] }
{
    *bytes = [0; 6];
    let Ok(image) = Image::new(Bytes(bytes), 1, 7) else {
        unreachable!()
    };
    let Ok(mut cells) = ThreeCell::new(image) else {
        unreachable!()
    };
    let Err(Fault::Cut(cut)) = cells.write(0, word) else {
        unreachable!()
    };
    let bytes = cells.into_below().into_backing();
    let Ok(image) = Image::new(bytes, 2, 0) else {
        unreachable!()
    };
    let Ok(mut cells) = ThreeCell::new(image) else {
        unreachable!()
    };
    cells.relight(2, 0).unwrap();
    let word = cells.read(0).unwrap();
    Kept {
        word,
        cut,
        cells: cells.into_below().into_backing(),
    }
}

#[cfg(test)]
mod tests {
    use super::*;

    // Cut at the second cell, where the scrap then stands, it is mended from the first.
    #[test]
    fn kept_through_a_cut(rt: HostRuntime) {
        let mut bytes = [0u8; 6];
        let kept = through_a_cut(&mut bytes, 114);
        assert_eq!(rt; kept.word, 114);
        assert_eq!(rt;
            kept.cut,
            Cut {
                place: 1,
                layers: 1,
            }
        );
        assert_eq!(rt; &*kept.cells.0, &[114, 0, 114, 0, 114, 0][..]);
    }
}
