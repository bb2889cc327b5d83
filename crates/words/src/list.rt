// Short lists: an array, and how many of its items count.
ghost use Rattle.std.specs.Prelude.{◌≡◌, ◌≤◌, ⊤, length};

use std::alloc::AllocError;

pub mod methods;

// At most N items: an array with a count, since a fixed memory has no `Vec`, and an `ArrayVec` is not `Copy`, as drafts,
// visits and machines are. It has no `==`, which would compare what lies past the items that count, and no model. One was
// tried: a value with a lifetime that holds one with a model can neither be copied nor taken through `?` in proved code,
// and visits and machines are such.
#[derive(Copy)]
pub struct Short<T, const N: usize> {
    items: [T; N],
    count: usize,
    ghost full: { length items ≡ N },
    ghost within: { count ≤ N },
}

// By hand, since no `Clone` is derived over a parameter and a ghost field.
impl<T: Copy, const N: usize> Clone for Short<T, N> {
    ghost is_clone = { λ list copy. copy ≡ list };

    ghost is_infallible = { λ _. ⊤ };

    fn clone(&self) -> Result<Self, AllocError> {
        Ok(*self)
    }
}

// At most N words.
pub type Words<const N: usize> = Short<u16, N>;
