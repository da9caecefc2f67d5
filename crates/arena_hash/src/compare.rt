// Equality of maps, by content.
ghost use Rattle.std.specs.Prelude.{◌↔◌, ◌^◌, ◌≤◌, IsTrue};
ghost use Rattle.hash_ring.specs.Walks.{AreEqual};
ghost use Rattle.arena_table.specs.Contents.{kind};
ghost use Rattle.arena_hash.specs.Maps.{IsMapIn, map_in};

use crate::map::HashMap;
use arena_chunks::{Allocator, ChunkSource};
use arena_items::Item;
use arena_table::ArenaKey;
use hash_ring::KeyHasher;

impl<K: ArenaKey, V: Item + PartialEq, S: KeyHasher> HashMap<K, V, S> {
    /// Returns whether the same contents are keys of both maps, with equal values.
    pub fn eq<C: ChunkSource>(&self, a: &Allocator<C>, other: &HashMap<K, V, S>) -> bool
        requires keys_small { K.SIZE ≤ 2 ^ 24 }
        requires values_small { V.SIZE ≤ 2 ^ 24 }
        requires held { IsMapIn (kind K.Item K.key V.Item S.hash_of) a.now.memory self.now }
        requires other { IsMapIn (kind K.Item K.key V.Item S.hash_of) a.now.memory other.now }
        ensures { IsTrue result ↔ AreEqual V.eq
            (map_in (kind K.Item K.key V.Item S.hash_of) a.now.memory self.now)
            (map_in (kind K.Item K.key V.Item S.hash_of) a.now.memory other.now) }
    {
        if self.len != other.len {
            return false;
        }
        for (key, value) in self.iter(a) {
            match other.get(a, key) {
                Some(found) => {
                    if value != found {
                        return false;
                    }
                }
                None => return false,
            }
        }
        true
    }
}
