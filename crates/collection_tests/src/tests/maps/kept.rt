// A map whose keys have no text, in an arena of its own.
ghost use Rattle.std.specs.Prelude.{◌≡◌, ◌^◌, ◌≤◌};
ghost use Rattle.std.specs.Iterator.{IsFinite};
ghost use Rattle.arena_hash.specs.Contents.{kind};
ghost use Rattle.collection_tests.specs.Held.{IsKept, ArePlain};

use arena_chunks::{Allocator, ChunkSource, MemoryChunks};
use arena_hash::{ArenaKey, HashMap, IntoKeys, IntoValues, KeyHasher};
use arena_items::{Grown, Item};
use std::marker::Model;

// The map is always held in this arena.
#[derive(Drop)]
pub(super) struct Kept<K: ArenaKey, V: Item, S: KeyHasher + Copy, C: ChunkSource> {
    a: Allocator<C>,
    map: HashMap<K, V, S>,
}

impl<K: ArenaKey, V: Item, S: KeyHasher + Copy, C: ChunkSource> Model for Kept<K, V, S, C> {
    ghost Value = { Unit {0} };

    ghost view = { λ s. tt };

    ghost invariant = { λ s. ArePlain K.key
        × IsKept (kind K.Item K.key V.Item S.hash_of) s.a.memory s.map };
}

impl<K: ArenaKey, V: Item, S: KeyHasher + Copy, C: ChunkSource> Kept<K, V, S, C> {
    pub(super) fn new(a: Allocator<C>) -> Kept<K, V, S, C>
        requires keys_small { K.SIZE ≤ 2 ^ 24 }
        requires values_small { V.SIZE ≤ 2 ^ 24 }
        requires plain { (x : K) → (K.key.text x).size ≡ 0 }
    {
        let map = HashMap::new_in();
        Kept { a, map }
    }

    // Replaces the map by one of an iterator's pairs.
    pub(super) fn collect<I: Iterator<Item = (K, V)>>(&mut self, pairs: I) -> Grown<()>
    where
        I: Drop,
        requires can { I.can_next pairs }
        requires ends { IsFinite (I.remaining pairs) }
    {
        let map = HashMap::from_iter_in(pairs, &mut self.a)?;
        self.map = map;
        Ok(())
    }

    pub(super) fn insert(&mut self, key: K, value: V) -> Grown<Option<V>> {
        self.map.insert(&mut self.a, key, value)
    }

    pub(super) fn get(&self, key: K) -> Option<V> {
        self.map.get(&self.a, key)
    }

    pub(super) fn contains(&self, key: K) -> bool {
        self.map.contains_key(&self.a, key)
    }

    // The keys, in the order of a walk.
    pub(super) fn keys(&self) -> IntoKeys<'_, K, V, C> {
        self.map.into_keys(&self.a)
    }

    // The values, in the order of a walk.
    pub(super) fn values(&self) -> IntoValues<'_, K, V, C> {
        self.map.into_values(&self.a)
    }

    pub(super) fn remove(&mut self, key: K) -> Option<V> {
        self.map.remove(&mut self.a, key)
    }

    pub(super) fn len(&self) -> u32 {
        self.map.len()
    }
}

pub(super) type Numbers<S> = Kept<u32, u32, S, MemoryChunks>;
