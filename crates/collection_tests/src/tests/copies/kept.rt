// Maps, each in an arena of its own.
ghost use Rattle.std.specs.Prelude.{◌^◌, ◌≤◌, IsTrue};
ghost use Rattle.arena_hash.specs.Contents.{kind};
ghost use Rattle.arena_hash.specs.Maps.{IsMapIn};
ghost use Rattle.arena_clone.specs.MapKind.{map_of};
ghost use Rattle.collection_tests.specs.Held.{IsKept};

use super::checked::Checked;
use crate::tests::{Memory, ample};
use arena_chunks::Str;
use arena_clone::{CloneIn, CloneInSemanticIds, CloneKey};
use arena_hash::{ArenaKey, FxHasher, HashMap, KeyHasher};
use arena_items::Item;
use std::alloc::Global;
use std::marker::Model;
use std::process::Abort;

// Whether the keys and values of a map are readable, at every depth.
fn are_held<K: CloneKey + Checked, V: Checked + Item>(map: &HashMap<K, V>, a: &Memory) -> bool
    requires { IsKept (kind K.Item K.key V.Item ⟦<FxHasher as KeyHasher>⟧.hash_of) a.now.memory map.now }
    ensures { IsTrue result → (map_of (kind K.Item K.key V.Item ⟦<FxHasher as KeyHasher>⟧.hash_of)
        ⟦<FxHasher as Default>⟧.is_default K.kind V.kind).is_held a.now.memory map.now }
{
    for slot in 0..map.table.slots {
        let Some(pair) = map.pair_at(a, slot) else {
            continue;
        };
        if !pair.0.is_held(a) || !pair.1.is_held(a) {
            return false;
        }
    }
    true
}

// A map in an arena of its own, in which it is always held.
#[derive(Drop)]
pub struct Kept<K: ArenaKey, V: Item> {
    a: Memory,
    map: HashMap<K, V>,
}

impl<K: ArenaKey, V: Item> Model for Kept<K, V> {
    ghost Value = { Unit {0} };

    ghost view = { λ s. tt };

    ghost invariant = { λ s. IsKept
        (kind K.Item K.key V.Item ⟦<FxHasher as KeyHasher>⟧.hash_of) s.a.memory s.map };
}

impl<K: CloneKey + Checked, V: Checked + Item> Kept<K, V> {
    pub fn with_capacity(rt: &impl Abort, alloc: Global, capacity: u64) -> Kept<K, V> {
        assert!(rt; K::SIZE <= 1 << 24 && V::SIZE <= 1 << 24);
        let mut a = ample(alloc);
        let map = HashMap::with_capacity_in(capacity, &mut a).expect(rt, "room");
        Kept { a, map }
    }

    // A copy of the map in another arena.
    pub fn copied(&self, rt: &impl Abort, ids: CloneInSemanticIds, alloc: Global) -> Kept<K, V> {
        assert!(rt; K::is_small() && V::is_small());
        assert!(rt; are_held(&self.map, &self.a));
        let mut to = ample(alloc);
        let map = self
            .map
            .clone_in_impl(ids, &self.a, &mut to)
            .expect(rt, "a copy");
        Kept { a: to, map }
    }

    pub fn handle(&self) -> HashMap<K, V> {
        self.map
    }
}

impl Kept<Str, Str> {
    // Places two texts, and inserts them as a pair.
    pub fn put_text(&mut self, rt: &impl Abort, key: &str, value: &str) {
        let value = self.a.alloc_str(value).expect(rt, "a text");
        let key = self.a.alloc_str(key).expect(rt, "a text");
        self.map.insert(&mut self.a, key, value).expect(rt, "room");
    }

    // Whether a text is a key with this text as its value.
    pub fn has_text(&mut self, rt: &impl Abort, key: &str, value: &str) -> bool {
        let key = self.a.alloc_str(key).expect(rt, "a text");
        let Some(found) = self.map.get(&self.a, key) else {
            return false;
        };
        assert!(rt; self.a.is_held_place(found.block));
        self.a.read(found.block) == value.as_bytes()
    }
}
