// Sets: maps whose values have no bytes.
ghost use Rattle.std.specs.Prelude.{◌≡◌, ◌==◌, ◌^◌, ◌≤◌, ◌↔◌, IfOk, IfErr, OnErr, IsTrue};
ghost use Rattle.std.specs.Prelude.{List, [], ◌∷◌, Some, IfSome, length};
ghost use Rattle.std.specs.Iterator.{IsFinite, Yields, YieldsFirst, UpTo, at_most, item_count};
ghost use Rattle.std.specs.Iterator.SizeHint.{IsWithinCount};
ghost use Rattle.hash_ring.specs.Finite.{has};
ghost use Rattle.arena_table.specs.Contents.{content_in};
ghost use Rattle.arena_chunks.specs.Memory.{is_readable};
ghost use Rattle.arena_chunks.specs.Frame.{AreBlocksApart, Frame};
ghost use Rattle.arena_hash.specs.Collecting.{CollectsAll, CollectsSome};
ghost use Rattle.arena_hash.specs.Sets.{set_kind, ListsKeys, HaveSame, StepsInPairs};
ghost use Rattle.arena_hash.specs.Maps.{IsMapIn, map_in};
ghost use Rattle.arena_hash.specs.Changes.{IsNew, PlacesMap, Puts, TakesOut, is_new, was_there};

use crate::map::HashMap;
use crate::walk::IntoKeys;
use arena_chunks::{Allocator, ChunkSource};
use arena_items::{Grown, Item};
use arena_table::ArenaKey;
use hash_ring::{FxHasher, KeyHasher};
use std::marker::Model;

/// A finite set by content. It is a handle: two of them may refer to the same table.
#[derive(Clone, Copy)]
pub struct HashSet<T, S = FxHasher> {
    /// The map whose keys are the items.
    pub map: HashMap<T, (), S>,
}

/// The name of this type in the Rust crate.
pub type ArenaHashSet<T, S = FxHasher> = HashSet<T, S>;

impl<T: ArenaKey, S: KeyHasher> HashSet<T, S> {
    /// Returns an empty set with `S::default()` as its hasher. Nothing is placed.
    pub fn new_in() -> HashSet<T, S>
        ensures set { IsNew (set_kind T.Item T.key S.hash_of) result.map.hasher result.map }
        ensures hasher { S.is_default result.map.hasher }
    {
        HashSet {
            map: HashMap::new_in(),
        }
    }

    /// Returns an empty set with this hasher. Nothing is placed.
    pub fn with_hasher_in(hasher: S) -> HashSet<T, S>
        ensures { IsNew (set_kind T.Item T.key S.hash_of) hasher result.map }
    {
        HashSet {
            map: HashMap::with_hasher_in(hasher),
        }
    }

    /// Returns an empty set with room for `capacity` items, and `S::default()` as its hasher.
    ///
    /// # Errors
    ///
    /// As for the map's `with_capacity_in`.
    pub fn with_capacity_in<C: ChunkSource>(
        capacity: u64,
        a: &mut Allocator<C>,
    ) -> Grown<HashSet<T, S>>
        requires { T.SIZE ≤ 2 ^ 24 }
        ensures placed { PlacesMap (set_kind T.Item T.key S.hash_of) (λ s. s.map)
            a.old a.new capacity result }
        ensures hasher { IfOk result (λ s. S.is_default s.map.hasher) }
    {
        HashSet::with_capacity_and_hasher_in(capacity, S::default(), a)
    }

    /// Returns an empty set with room for `capacity` items, and this hasher.
    ///
    /// # Errors
    ///
    /// As for the map's `with_capacity_and_hasher_in`.
    pub fn with_capacity_and_hasher_in<C: ChunkSource>(
        capacity: u64,
        hasher: S,
        a: &mut Allocator<C>,
    ) -> Grown<HashSet<T, S>>
        requires { T.SIZE ≤ 2 ^ 24 }
        ensures placed { PlacesMap (set_kind T.Item T.key S.hash_of) (λ s. s.map)
            a.old a.new capacity result }
        ensures hasher { IfOk result (λ s. s.map.hasher ≡ hasher) }
    {
        let map = HashMap::with_capacity_and_hasher_in(capacity, hasher, a)?;
        Ok(HashSet { map })
    }

    /// Collects an iterator's items into a set, inserting them one by one. The size hint isn't used.
    ///
    /// # Errors
    ///
    /// As for `insert`. What was placed stays in the arena.
    pub fn from_iter_in<C: ChunkSource, I: Iterator<Item = T>>(
        iter: I,
        a: &mut Allocator<C>,
    ) -> Grown<HashSet<T, S>>
    where
        I: Drop,
        requires small { T.SIZE ≤ 2 ^ 24 }
        requires can { I.can_next iter }
        requires ends { IsFinite (I.remaining iter) }
        requires texts { (items : List T) (now rest : I) (last : T)
            → Yields I.next_gives iter items now → I.next_gives now (Some last) rest
            → IsTrue (is_readable a.old.memory.state (T.key.text last)) }
        ensures held { IfOk result (λ s. IsMapIn (set_kind T.Item T.key S.hash_of) a.new.memory s.map) }
        ensures frame { IfOk result (λ s. Frame a.old.memory a.new.memory [] (s.map.table.block ∷ [])) }
        ensures beside { OnErr result (Frame a.old.memory a.new.memory [] []) }
        ensures hasher { IfOk result (λ s. S.is_default s.map.hasher) }
        ensures collects { IfOk result (λ s. CollectsAll (set_kind T.Item T.key S.hash_of)
            (StepsInPairs I.next_gives) iter a.old a.new s.map) }
        ensures refused { IfErr result (CollectsSome (set_kind T.Item T.key S.hash_of)
            (StepsInPairs I.next_gives) iter a.old a.new) }
    {
        let mut iter = iter;
        let mut map = HashMap::new_in();
        while let Some(item) = iter.next() {
            map.insert(a, item, ())?;
        }
        Ok(HashSet { map })
    }

    /// Returns the set of a map's keys.
    pub fn from(map: HashMap<T, (), S>) -> HashSet<T, S>
        ensures { result.map ≡ map }
    {
        HashSet { map }
    }

    /// Inserts an item, and returns whether it is new. An item that is there stays.
    ///
    /// # Errors
    ///
    /// As for the map's `insert`. The set and the memory are unchanged.
    #[inline]
    pub fn insert<C: ChunkSource>(&mut self, a: &mut Allocator<C>, item: T) -> Grown<bool>
        requires small { T.SIZE ≤ 2 ^ 24 }
        requires held { IsMapIn (set_kind T.Item T.key S.hash_of) a.old.memory self.old.map }
        requires text { IsTrue (is_readable a.old.memory.state (T.key.text item)) }
        requires apart { AreBlocksApart (T.key.text item) self.old.map.table.block }
        ensures { Puts (set_kind T.Item T.key S.hash_of) a.old a.new self.old.map item tt is_new
            self.new.map result }
    {
        let old = self.map.insert(a, item, ())?;
        Ok(old.is_none())
    }

    /// Removes an item, and returns whether it was there.
    #[inline]
    pub fn remove<C: ChunkSource>(&mut self, a: &mut Allocator<C>, item: T) -> bool
        requires small { T.SIZE ≤ 2 ^ 24 }
        requires held { IsMapIn (set_kind T.Item T.key S.hash_of) a.old.memory self.old.map }
        requires text { IsTrue (is_readable a.old.memory.state (T.key.text item)) }
        ensures { TakesOut (set_kind T.Item T.key S.hash_of) a.old a.new self.old.map item was_there
            self.new.map result }
    {
        self.map.remove(a, item).is_some()
    }

    /// Returns whether an item is there.
    #[inline]
    pub fn contains<C: ChunkSource>(&self, a: &Allocator<C>, item: T) -> bool
        requires small { T.SIZE ≤ 2 ^ 24 }
        requires held { IsMapIn (set_kind T.Item T.key S.hash_of) a.now.memory self.now.map }
        requires text { IsTrue (is_readable a.now.memory.state (T.key.text item)) }
        ensures { result ≡ has (map_in (set_kind T.Item T.key S.hash_of) a.now.memory self.now.map)
            (content_in T.key a.now.memory item) }
    {
        self.map.contains_key(a, item)
    }

    /// Returns the number of items.
    #[inline]
    pub fn len(&self) -> u32
        ensures { result ≡ self.now.map.len }
    {
        self.map.len
    }

    /// Returns whether there is no item.
    #[inline]
    pub fn is_empty(&self) -> bool
        ensures { result ≡ (self.now.map.len == 0) }
    {
        self.map.len == 0
    }

    /// Returns an iterator over the items, each once, in unspecified order.
    pub fn iter<'a, C: ChunkSource>(&self, a: &'a Allocator<C>) -> SetIter<'a, T, C>
        requires small { T.SIZE ≤ 2 ^ 24 }
        requires held { IsMapIn (set_kind T.Item T.key S.hash_of) a.now.memory self.now.map }
        ensures { ListsKeys (content_in T.key a.now.memory)
            (map_in (set_kind T.Item T.key S.hash_of) a.now.memory self.now.map) result }
    {
        SetIter {
            keys: IntoKeys {
                pairs: self.map.iter(a),
            },
        }
    }

    /// Returns whether the same contents are items of both sets.
    pub fn eq<C: ChunkSource>(&self, a: &Allocator<C>, other: &HashSet<T, S>) -> bool
        requires small { T.SIZE ≤ 2 ^ 24 }
        requires held { IsMapIn (set_kind T.Item T.key S.hash_of) a.now.memory self.now.map }
        requires other { IsMapIn (set_kind T.Item T.key S.hash_of) a.now.memory other.now.map }
        ensures { IsTrue result ↔ HaveSame
            (map_in (set_kind T.Item T.key S.hash_of) a.now.memory self.now.map)
            (map_in (set_kind T.Item T.key S.hash_of) a.now.memory other.now.map) }
    {
        self.map.eq(a, &other.map)
    }
}

/// An iterator over the items of a set, each once.
#[derive(Drop)]
pub struct SetIter<'a, T: Item, C: ChunkSource> {
    keys: IntoKeys<'a, T, (), C>,
}

impl<'a, T: Item, C: ChunkSource> Model for SetIter<'a, T, C> {
    ghost use Rattle.std.specs.Prelude.{List};

    ghost Value = { List T };

    ghost view = { λ s. s.keys };
}

impl<'a, T: Item, C: ChunkSource> Iterator for SetIter<'a, T, C> {
    type Item = T;

    ghost next_gives = { YieldsFirst (λ s. s) };

    ghost remaining = { item_count (λ s. s) };

    #[inline]
    fn next(&mut self) -> Option<T> {
        self.keys.next()
    }

    #[inline]
    fn size_hint(&self) -> (usize, Option<usize>)
        ensures lower { IsWithinCount result.0 (at_most (length self.now)) }
        ensures upper { IfSome result.1 (UpTo (at_most (length self.now))) }
        ensures exact { result ≡ (length self.now, Some (length self.now)) }
    {
        self.keys.size_hint()
    }
}
