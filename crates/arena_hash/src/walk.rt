// The pairs of a map, in the order of its slots.
ghost use Rattle.std.specs.Prelude.{◌≡◌, ◌*◌, ◌^◌, ◌<◌, ◌≤◌};
ghost use Rattle.std.specs.Prelude.{List, Some, IfSome, length, map, slice_get};
ghost use Rattle.std.specs.Iterator.{YieldsFirst, UpTo, at_most, item_count};
ghost use Rattle.std.specs.Iterator.SizeHint.{IsWithinCount};
ghost use Rattle.hash_ring.specs.Walks.{Lists};
ghost use Rattle.arena_table.specs.Contents.{kind, content_in};
ghost use Rattle.arena_table.specs.Tables.{slots_in, IsTableHandle};
ghost use Rattle.arena_hash.specs.Maps.{IsMapIn, map_in};
ghost use Rattle.arena_hash.specs.Sets.{ListsKeys};

use crate::map::HashMap;
use arena_chunks::{Allocator, ChunkSource};
use arena_items::Item;
use arena_table::{ArenaKey, key_at, value_at};
use hash_ring::{KeyHasher, Scan, start, step};
use std::marker::{Model, PhantomData};

/// An iterator over the pairs of a map, each once, in unspecified order.
#[derive(Drop)]
pub struct Iter<'a, K: Item, V: Item, C: ChunkSource> {
    bytes: &'a [u8],
    slots: u64,
    scan: Scan,
    left: u32,
    // The types of the pairs, and the source of the arena's chunks, which isn't used.
    of: PhantomData<(K, V)>,
    source: PhantomData<C>,
}

impl<'a, K: Item, V: Item, C: ChunkSource> Model for Iter<'a, K, V, C> {
    ghost use Rattle.std.specs.Prelude.{List, map};
    ghost use Rattle.arena_table.specs.Walks.{left_in, IsWalk};

    ghost Value = { List (K × V) };

    ghost view = { λ s. left_in K.Item V.Item s.slots s.bytes.now s.scan };

    ghost invariant = { λ s. IsWalk K.Item V.Item s.slots s.bytes.now s.scan s.left };
}

impl<K: ArenaKey, V: Item, S: KeyHasher> HashMap<K, V, S> {
    /// Returns an iterator over the pairs, each once, in unspecified order.
    #[tactic(auto, using(arena_table::proofs::WalkLemmas::walk_laws))]
    pub fn iter<'a, C: ChunkSource>(&self, a: &'a Allocator<C>) -> Iter<'a, K, V, C>
        requires keys_small { K.SIZE ≤ 2 ^ 24 }
        requires values_small { V.SIZE ≤ 2 ^ 24 }
        requires held { IsMapIn (kind K.Item K.key V.Item S.hash_of) a.now.memory self.now }
        ensures { Lists (content_in K.key a.now.memory)
            (map_in (kind K.Item K.key V.Item S.hash_of) a.now.memory self.now) result }
    {
        let bytes = a.read(self.table.block);
        Iter {
            bytes,
            slots: self.table.slots,
            scan: start(bytes, self.table.slots),
            left: self.len,
            of: PhantomData,
            source: PhantomData,
        }
    }

    /// Returns the pair in a slot of the table, or `None` if the slot is free. A walk by slots can continue while the
    /// arena changes elsewhere.
    #[tactic(auto, using(arena_table::proofs::SlotLemmas::slot_laws, arena_table::proofs::HandleLemmas::handle_laws))]
    #[inline]
    pub fn pair_at<C: ChunkSource>(&self, a: &Allocator<C>, slot: u64) -> Option<(K, V)>
        requires keys_small { K.SIZE ≤ 2 ^ 24 }
        requires values_small { V.SIZE ≤ 2 ^ 24 }
        requires handle { IsTableHandle K.Item V.Item a.now.memory self.now.table }
        requires index { slot < self.now.table.slots }
        ensures { slice_get (slots_in K.Item V.Item a.now.memory self.now.table) slot ≡ Some result }
    {
        let bytes = a.read(self.table.block);
        if bytes[slot as usize] == 0 {
            return None;
        }
        Some((
            key_at::<K, V>(bytes, self.table.slots, slot),
            value_at::<K, V>(bytes, self.table.slots, slot),
        ))
    }

    /// Returns an iterator over the keys, each once, in unspecified order.
    pub fn into_keys<'a, C: ChunkSource>(self, a: &'a Allocator<C>) -> IntoKeys<'a, K, V, C>
        requires keys_small { K.SIZE ≤ 2 ^ 24 }
        requires values_small { V.SIZE ≤ 2 ^ 24 }
        requires held { IsMapIn (kind K.Item K.key V.Item S.hash_of) a.now.memory self }
        ensures { ListsKeys (content_in K.key a.now.memory)
            (map_in (kind K.Item K.key V.Item S.hash_of) a.now.memory self) result }
    {
        IntoKeys {
            pairs: self.iter(a),
        }
    }

    /// Returns an iterator over the values, one for each pair, in unspecified order.
    pub fn into_values<'a, C: ChunkSource>(self, a: &'a Allocator<C>) -> IntoValues<'a, K, V, C>
        requires keys_small { K.SIZE ≤ 2 ^ 24 }
        requires values_small { V.SIZE ≤ 2 ^ 24 }
        requires held { IsMapIn (kind K.Item K.key V.Item S.hash_of) a.now.memory self }
        ensures { (pairs : List (K × V)) × (result ≡ map (λ p. p.1) pairs)
            × Lists (content_in K.key a.now.memory)
            (map_in (kind K.Item K.key V.Item S.hash_of) a.now.memory self) pairs }
    {
        IntoValues {
            pairs: self.iter(a),
        }
    }
}

impl<'a, K: Item, V: Item, C: ChunkSource> Iterator for Iter<'a, K, V, C> {
    type Item = (K, V);

    ghost next_gives = { YieldsFirst (λ s. s) };

    ghost remaining = { item_count (λ s. s) };

    #[inline]
    fn next(&mut self) -> Option<(K, V)> {
        let (slot, scan) = step(self.bytes, self.slots, self.scan);
        self.scan = scan;
        match slot {
            Some(i) => {
                self.left -= 1;
                Some((
                    key_at::<K, V>(self.bytes, self.slots, i),
                    value_at::<K, V>(self.bytes, self.slots, i),
                ))
            }
            None => None,
        }
    }

    #[inline]
    fn size_hint(&self) -> (usize, Option<usize>)
        ensures lower { IsWithinCount result.0 (at_most (length self.now)) }
        ensures upper { IfSome result.1 (UpTo (at_most (length self.now))) }
        ensures exact { result ≡ (length self.now, Some (length self.now)) }
    {
        (self.left as usize, Some(self.left as usize))
    }
}

/// An iterator over the keys of a map, each once.
#[derive(Drop)]
pub struct IntoKeys<'a, K: Item, V: Item, C: ChunkSource> {
    pub(crate) pairs: Iter<'a, K, V, C>,
}

impl<'a, K: Item, V: Item, C: ChunkSource> Model for IntoKeys<'a, K, V, C> {
    ghost use Rattle.std.specs.Prelude.{List, map};
    ghost use Rattle.arena_table.specs.Walks.{left_in, IsWalk};

    ghost Value = { List K };

    ghost view = { λ s. map (λ p. p.0) s.pairs };
}

impl<'a, K: Item, V: Item, C: ChunkSource> Iterator for IntoKeys<'a, K, V, C> {
    type Item = K;

    ghost next_gives = { YieldsFirst (λ s. s) };

    ghost remaining = { item_count (λ s. s) };

    #[inline]
    fn next(&mut self) -> Option<K> {
        match self.pairs.next() {
            Some((key, _)) => Some(key),
            None => None,
        }
    }

    #[inline]
    fn size_hint(&self) -> (usize, Option<usize>)
        ensures lower { IsWithinCount result.0 (at_most (length self.now)) }
        ensures upper { IfSome result.1 (UpTo (at_most (length self.now))) }
        ensures exact { result ≡ (length self.now, Some (length self.now)) }
    {
        self.pairs.size_hint()
    }
}

/// An iterator over the values of a map, one for each pair.
#[derive(Drop)]
pub struct IntoValues<'a, K: Item, V: Item, C: ChunkSource> {
    pairs: Iter<'a, K, V, C>,
}

impl<'a, K: Item, V: Item, C: ChunkSource> Model for IntoValues<'a, K, V, C> {
    ghost use Rattle.std.specs.Prelude.{List, map};
    ghost use Rattle.arena_table.specs.Walks.{left_in, IsWalk};

    ghost Value = { List V };

    ghost view = { λ s. map (λ p. p.1) s.pairs };
}

impl<'a, K: Item, V: Item, C: ChunkSource> Iterator for IntoValues<'a, K, V, C> {
    type Item = V;

    ghost next_gives = { YieldsFirst (λ s. s) };

    ghost remaining = { item_count (λ s. s) };

    #[inline]
    fn next(&mut self) -> Option<V> {
        match self.pairs.next() {
            Some((_, value)) => Some(value),
            None => None,
        }
    }

    #[inline]
    fn size_hint(&self) -> (usize, Option<usize>)
        ensures lower { IsWithinCount result.0 (at_most (length self.now)) }
        ensures upper { IfSome result.1 (UpTo (at_most (length self.now))) }
        ensures exact { result ≡ (length self.now, Some (length self.now)) }
    {
        self.pairs.size_hint()
    }
}
