// Whether a handle is well formed.
ghost use Rattle.std.specs.Prelude.{◌^◌, ◌≤◌, ◌↔◌, IsTrue};
ghost use Rattle.arena_vec.specs.Vecs.{IsVecIn};

use crate::vec::Vec;
use arena_chunks::{Allocator, ChunkSource};
use arena_items::Item;

impl<T: Item> Vec<T> {
    /// Returns whether the handle is well formed in this arena. It tests handles that were read from an arena, or that
    /// a reset may have made invalid.
    pub fn is_held<C: ChunkSource>(&self, a: &Allocator<C>) -> bool
        requires { T.SIZE ≤ 2 ^ 24 }
        ensures { IsTrue result ↔ IsVecIn T.Item a.now.memory self.now }
    {
        self.raw.is_held(a)
    }
}
