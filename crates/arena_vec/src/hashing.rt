// A vector's hash, which is that of its list.
ghost use Rattle.std.specs.Prelude.{◌≡◌, ◌^◌, ◌≤◌, fold};
ghost use Rattle.std.specs.Hash as fed;
ghost use Rattle.arena_vec.specs.Vecs.{IsVecIn, vec_list};

use crate::vec::Vec;
use arena_chunks::{Allocator, ChunkSource};
use arena_items::Item;
use std::hash::{Hash, Hasher};

#[tactic(auto, using(crate::proofs::VecLemmas::vec_laws))]
impl<T: Item + Hash> Vec<T> {
    /// Feeds a hasher the length, and then each value.
    pub fn hash<C: ChunkSource, H: Hasher>(&self, a: &Allocator<C>, state: &mut H)
        requires small { T.SIZE ≤ 2 ^ 24 }
        requires held { IsVecIn T.Item a.now.memory self.now }
        ensures { state.new ≡ fold H.write state.old
            (fed.slice T.hash_input (vec_list T.Item a.now.memory self.now)) }
    {
        state.write_usize(self.raw.len as usize);
        for i in 0..self.raw.len {
            self.get(a, i).hash(state);
        }
    }
}
