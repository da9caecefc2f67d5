// Calls on whole maps.
ghost use Rattle.std.specs.Prelude.{◌≡◌, ◌^◌, ◌≤◌, IfOk};
ghost use Rattle.hash_ring.specs.Finite.{empty};
ghost use Rattle.arena_table.specs.Contents.{kind};
ghost use Rattle.arena_hash.specs.Maps.{IsMapIn};
ghost use Rattle.arena_hash.specs.Changes.{Becomes, IsNew, PlacesMap};

use crate::map::HashMap;
use arena_chunks::{Allocator, ChunkSource};
use arena_items::{AllocError, Grown, Item};
use arena_table::{ArenaKey, Table};
use hash_ring::{KeyHasher, slots_for};

impl<K: ArenaKey, V: Item, S: KeyHasher> HashMap<K, V, S> {
    /// Returns an empty map with `S::default()` as its hasher. Nothing is placed.
    pub fn new_in() -> HashMap<K, V, S>
        ensures map { IsNew (kind K.Item K.key V.Item S.hash_of) result.hasher result }
        ensures hasher { S.is_default result.hasher }
    {
        HashMap::with_hasher_in(S::default())
    }

    /// Returns an empty map with this hasher. Nothing is placed.
    pub fn with_hasher_in(hasher: S) -> HashMap<K, V, S>
        ensures { IsNew (kind K.Item K.key V.Item S.hash_of) hasher result }
    {
        HashMap {
            table: Table::none(),
            len: 0,
            hasher,
        }
    }

    /// Returns an empty map with room for `capacity` pairs, and `S::default()` as its hasher.
    ///
    /// # Errors
    ///
    /// As for `with_capacity_and_hasher_in`.
    pub fn with_capacity_in<C: ChunkSource>(
        capacity: u64,
        a: &mut Allocator<C>,
    ) -> Grown<HashMap<K, V, S>>
        requires keys_small { K.SIZE ≤ 2 ^ 24 }
        requires values_small { V.SIZE ≤ 2 ^ 24 }
        ensures placed { PlacesMap (kind K.Item K.key V.Item S.hash_of) (λ m. m)
            a.old a.new capacity result }
        ensures hasher { IfOk result (λ m. S.is_default m.hasher) }
    {
        HashMap::with_capacity_and_hasher_in(capacity, S::default(), a)
    }

    /// Returns an empty map with room for `capacity` pairs, and this hasher. Nothing is placed if `capacity` is 0.
    ///
    /// # Errors
    ///
    /// `CapacityOverflow` if `capacity` exceeds 4,294,967,295; otherwise as for the arena's `alloc_layout`. The memory
    /// is unchanged.
    pub fn with_capacity_and_hasher_in<C: ChunkSource>(
        capacity: u64,
        hasher: S,
        a: &mut Allocator<C>,
    ) -> Grown<HashMap<K, V, S>>
        requires keys_small { K.SIZE ≤ 2 ^ 24 }
        requires values_small { V.SIZE ≤ 2 ^ 24 }
        ensures placed { PlacesMap (kind K.Item K.key V.Item S.hash_of) (λ m. m)
            a.old a.new capacity result }
        ensures hasher { IfOk result (λ m. m.hasher ≡ hasher) }
    {
        if capacity == 0 {
            return Ok(HashMap::with_hasher_in(hasher));
        }
        if capacity > u32::MAX as u64 {
            return Err(AllocError::CapacityOverflow);
        }
        let table = Table::place(a, slots_for(capacity))?;
        Ok(HashMap {
            table,
            len: 0,
            hasher,
        })
    }

    /// Removes all pairs. The table stays.
    pub fn clear<C: ChunkSource>(&mut self, a: &mut Allocator<C>)
        requires keys_small { K.SIZE ≤ 2 ^ 24 }
        requires values_small { V.SIZE ≤ 2 ^ 24 }
        requires held { IsMapIn (kind K.Item K.key V.Item S.hash_of) a.old.memory self.old }
        ensures becomes { Becomes (kind K.Item K.key V.Item S.hash_of) a.old a.new self.old empty self.new }
        ensures len { self.new.len ≡ 0 }
    {
        self.table.free_all(a);
        self.len = 0;
    }
}
