// Whether storage is well formed.
ghost use Rattle.std.specs.Prelude.{◌^◌, ◌≤◌, ◌↔◌, IsTrue};
ghost use Rattle.raw_vec.specs.Held.{IsRawIn};

use crate::raw::RawVec;
use arena_chunks::{Allocator, ChunkSource};
use arena_items::Item;

impl<T: Item> RawVec<T> {
    /// Returns whether the handle is well formed in this arena: its block has the layout of its capacity and is
    /// readable, and the length is at most the capacity. For values of no bytes the capacity must be 4,294,967,295.
    pub fn is_held<C: ChunkSource>(&self, a: &Allocator<C>) -> bool
        requires { T.SIZE ≤ 2 ^ 24 }
        ensures { IsTrue result ↔ IsRawIn T.Item a.now.memory self.now }
    {
        a.is_held_place(self.block)
            && self.block.align == T::ALIGN
            && self.block.size == self.cap as u64 * T::SIZE
            && self.len <= self.cap
            && (T::SIZE > 0 || self.cap == u32::MAX)
    }
}
