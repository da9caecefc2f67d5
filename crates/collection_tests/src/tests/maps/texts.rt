// Tests of texts as keys: a text in two blocks is one key.
ghost use Rattle.arena_hash.specs.Contents.{kind};
ghost use Rattle.collection_tests.specs.Held.{IsKept};

use super::Zero;
use crate::tests::{ample, same};
use arena_chunks::{Allocator, MemoryChunks, Str};
use arena_hash::{ArenaKey, FxHasher, HashMap, KeyHasher};
use arena_items::{Grown, Item};
use std::alloc::Global;
use std::marker::Model;
use std::process::Abort;

// A map whose keys are texts, in an arena of its own, in which it is always held.
#[derive(Drop)]
struct Texts<S: KeyHasher + Copy> {
    a: Allocator<MemoryChunks>,
    map: HashMap<Str, u32, S>,
}

impl<S: KeyHasher + Copy> Model for Texts<S> {
    ghost Value = { Unit {0} };

    ghost view = { λ s. tt };

    ghost invariant = { λ s. IsKept
        (kind ⟦<Str as Item>⟧ ⟦<Str as ArenaKey>⟧.key ⟦<u32 as Item>⟧ S.hash_of) s.a.memory s.map };
}

impl<S: KeyHasher + Copy> Texts<S> {
    fn new(alloc: Global) -> Texts<S> {
        let (a, map) = (ample(alloc), HashMap::new_in());
        Texts { a, map }
    }

    // Places a text, inserts it as a key, and returns it with the call's result.
    fn insert(&mut self, rt: &impl Abort, text: &str, value: u32) -> (Str, Grown<Option<u32>>) {
        let key = self.a.alloc_str(text).expect(rt, "a text");
        (key, self.map.insert(&mut self.a, key, value))
    }

    fn len(&self) -> u32 {
        self.map.len()
    }
}

// Inserts one text in two blocks.
fn two_blocks<S: KeyHasher + Copy>(rt: &impl Abort, alloc: Global) {
    let mut map: Texts<S> = Texts::new(alloc);
    let (first, was) = map.insert(rt, "x", 1);
    same(rt, was, Ok(None));
    let (second, was) = map.insert(rt, "x", 2);
    same(rt, was, Ok(Some(1)));
    assert!(rt; first != second);
    same(rt, map.len(), 1);
}

#[test]
fn two_blocks_of_one_text(rt: HostRuntime) {
    two_blocks::<FxHasher>(&rt, rt.alloc());
    two_blocks::<Zero>(&rt, rt.alloc());
}
