// What a short list answers and how it grows.
ghost use Rattle.std.specs.Prelude.{◌≡◌, ◌≤◌, [], length, is_ok, nat_lt, slice_index, slice_set};
ghost use Rattle.words.specs.Lists.{items, pushed};

use crate::list::{Short, Words};
use thiserror::Error;

#[derive(Clone, Copy, PartialEq, Eq, Debug, Error)]
#[error("the list holds as many items as it can")]
pub struct Full;

impl<T: Copy + Default, const N: usize> Short<T, N> {
    // No items.
    pub fn new() -> Self
        ensures { items result ≡ [] }
    {
        Short {
            items: [T::default(); N],
            count: 0,
        }
    }
}

impl<T: Copy, const N: usize> Short<T, N> {
    // The items.
    pub fn as_slice(&self) -> &[T]
        ensures value { result.now ≡ items self.now }
        ensures bound { length result.now ≤ N }
    {
        &self.items[..self.count]
    }

    // How many items there are.
    pub fn len(&self) -> usize
        ensures value { result ≡ length (items self.now) }
        ensures bound { result ≤ N }
    {
        self.as_slice().len()
    }

    // Puts an item in place of the one there; past the last it alters nothing.
    pub fn set(&mut self, place: usize, item: T)
        ensures { items self.new ≡ slice_set (items self.old) place item }
    {
        if place < self.len() {
            self.items[place] = item;
        }
    }

    // One item more at the end, if there is room.
    pub fn push(&mut self, item: T) -> Result<(), Full>
        ensures answer { is_ok result ≡ nat_lt (length (items self.old)) N }
        ensures after { items self.new ≡ pushed N (items self.old) item }
    {
        let count = self.len();
        if count >= N {
            return Err(Full);
        }
        self.items[count] = item;
        self.count = count + 1;
        Ok(())
    }
}

impl<const N: usize> Words<N> {
    // The word at a place, 0 past the last.
    pub fn get(&self, place: usize) -> u16
        ensures { result ≡ slice_index (items self.now) place }
    {
        self.as_slice().get(place).copied().unwrap_or(0)
    }
}
