// Maps: their handles, and calls on one key.
ghost use Rattle.std.specs.Prelude.{◌≡◌, ◌+◌, ◌^◌, ◌<◌, ◌≤◌, ◌==◌, [], ◌∷◌, Some, IsTrue};
ghost use Rattle.std.specs.Prelude.{slice_get, slice_set};
ghost use Rattle.arena_chunks.specs.Memory.{is_readable};
ghost use Rattle.arena_chunks.specs.Frame.{AreBlocksApart, Frame};
ghost use Rattle.arena_items.specs.Room.{SamePlaces};
ghost use Rattle.arena_items.specs.Values.{bytes_of};
ghost use Rattle.hash_ring.specs.Finite.{has, value_of};
ghost use Rattle.arena_table.specs.Tables.{slots_in, HasFree, IsTableHandle, IsTableIn};
ghost use Rattle.arena_table.specs.Contents.{kind, content_in};
ghost use Rattle.arena_hash.specs.Maps.{IsMapIn, IsLookIn, map_in};
ghost use Rattle.arena_hash.specs.Changes.{Puts, TakesOut, is_value};

use arena_chunks::{Allocator, ChunkSource};
use arena_items::{Grown, Item};
use arena_table::{ArenaKey, PutValue, Table, find, value_at};
use hash_ring::{FxHasher, KeyHasher, Spot, limit_of};
use std::marker::PhantomData;

/// A finite map by the content of its keys. It is a handle: two of them may refer to the same table.
#[derive(Clone, Copy)]
pub struct HashMap<K, V, S = FxHasher> {
    /// Where the pairs are stored.
    pub table: Table<K, V>,
    /// The number of pairs.
    pub len: u32,
    /// What hashes the keys' contents.
    pub hasher: S,
}

/// The name of this type in the Rust crate.
pub type ArenaHashMap<K, V, S = FxHasher> = HashMap<K, V, S>;

/// Where a map's search for a content ended, with the content's hash. As long as the map is unchanged, a key with that
/// content goes there.
#[derive(Clone, Copy)]
pub struct Look {
    pub(crate) hash: u64,
    pub(crate) spot: Spot,
}

impl<K: ArenaKey, V: Item, S: KeyHasher> HashMap<K, V, S> {
    // The hash of a key.
    #[inline]
    pub(crate) fn hash_of<C: ChunkSource>(&self, a: &Allocator<C>, key: K) -> u64
        requires { IsTrue (is_readable a.now.memory.state (K.key.text key)) }
        ensures { result ≡ S.hash_of self.now.hasher (content_in K.key a.now.memory key) }
    {
        let mut room = [0u8; 16];
        self.hasher.hash(key.content(a, &mut room))
    }

    // Searches the table's bytes for a content.
    #[inline(always)]
    pub(crate) fn look_by<C: ChunkSource>(
        &self,
        a: &Allocator<C>,
        bytes: &[u8],
        wanted: &[u8],
    ) -> Look
        requires keys_small { K.SIZE ≤ 2 ^ 24 }
        requires values_small { V.SIZE ≤ 2 ^ 24 }
        requires held { IsTableIn
            (kind K.Item K.key V.Item S.hash_of) a.now.memory self.now.hasher self.now.table }
        requires bytes { bytes.now ≡ bytes_of a.now.memory self.now.table.block }
        requires free { 0 < self.now.table.slots → HasFree K.Item V.Item a.now.memory self.now.table }
        ensures { IsLookIn
            (kind K.Item K.key V.Item S.hash_of) a.now.memory self.now wanted.now result }
    {
        let hash = self.hasher.hash(wanted);
        let spot = if self.table.slots == 0 {
            Spot::Open { at: 0, mark: 0 }
        } else {
            find(a, self.table, bytes, hash, wanted)
        };
        Look { hash, spot }
    }

    // Searches for a key.
    #[inline(always)]
    pub(crate) fn look<C: ChunkSource>(&self, a: &Allocator<C>, key: K) -> Look
        requires keys_small { K.SIZE ≤ 2 ^ 24 }
        requires values_small { V.SIZE ≤ 2 ^ 24 }
        requires held { IsTableIn
            (kind K.Item K.key V.Item S.hash_of) a.now.memory self.now.hasher self.now.table }
        requires free { 0 < self.now.table.slots → HasFree K.Item V.Item a.now.memory self.now.table }
        requires text { IsTrue (is_readable a.now.memory.state (K.key.text key)) }
        ensures { IsLookIn (kind K.Item K.key V.Item S.hash_of) a.now.memory self.now
            (content_in K.key a.now.memory key) result }
    {
        let mut room = [0u8; 16];
        let wanted = key.content(a, &mut room);
        self.look_by(a, a.read(self.table.block), wanted)
    }

    // The value in a slot.
    #[tactic(auto, using(arena_table::proofs::HandleLemmas::handle_laws))]
    #[inline(always)]
    fn value<C: ChunkSource>(&self, a: &Allocator<C>, at: u64) -> V
        requires keys_small { K.SIZE ≤ 2 ^ 24 }
        requires values_small { V.SIZE ≤ 2 ^ 24 }
        requires handle { IsTableHandle K.Item V.Item a.now.memory self.now.table }
        requires index { at < self.now.table.slots }
        ensures { (x : K × V) → slice_get (slots_in K.Item V.Item a.now.memory self.now.table) at ≡ Some
            (Some x) → result ≡ x.1 }
    {
        value_at::<K, V>(a.read(self.table.block), self.table.slots, at)
    }

    /// Returns the number of pairs.
    #[inline]
    pub fn len(&self) -> u32
        ensures { result ≡ self.now.len }
    {
        self.len
    }

    /// Returns whether there is no pair.
    #[inline]
    pub fn is_empty(&self) -> bool
        ensures { result ≡ (self.now.len == 0) }
    {
        self.len == 0
    }

    /// Returns the value of a key, if the key is there.
    #[inline(always)]
    pub fn get<C: ChunkSource>(&self, a: &Allocator<C>, key: K) -> Option<V>
        requires keys_small { K.SIZE ≤ 2 ^ 24 }
        requires values_small { V.SIZE ≤ 2 ^ 24 }
        requires held { IsMapIn (kind K.Item K.key V.Item S.hash_of) a.now.memory self.now }
        requires text { IsTrue (is_readable a.now.memory.state (K.key.text key)) }
        ensures { result ≡ value_of (map_in (kind K.Item K.key V.Item S.hash_of) a.now.memory self.now
            (content_in K.key a.now.memory key)) }
    {
        let mut room = [0u8; 16];
        let wanted = key.content(a, &mut room);
        self.get_by(a, wanted)
    }

    /// Returns the value of the key with this content, so that a text can be looked up without placing it.
    #[inline(always)]
    pub fn get_by<C: ChunkSource>(&self, a: &Allocator<C>, content: &[u8]) -> Option<V>
        requires keys_small { K.SIZE ≤ 2 ^ 24 }
        requires values_small { V.SIZE ≤ 2 ^ 24 }
        requires held { IsMapIn (kind K.Item K.key V.Item S.hash_of) a.now.memory self.now }
        ensures { result ≡ value_of (map_in (kind K.Item K.key V.Item S.hash_of) a.now.memory self.now
            content.now) }
    {
        self.search(a, content).0
    }

    /// Returns the value of the key with this content, and where the search for it ended: `insert_at` puts a key with
    /// this content there.
    #[inline(always)]
    pub fn search<C: ChunkSource>(&self, a: &Allocator<C>, content: &[u8]) -> (Option<V>, Look)
        requires keys_small { K.SIZE ≤ 2 ^ 24 }
        requires values_small { V.SIZE ≤ 2 ^ 24 }
        requires held { IsMapIn (kind K.Item K.key V.Item S.hash_of) a.now.memory self.now }
        ensures value { result.0 ≡ value_of (map_in
            (kind K.Item K.key V.Item S.hash_of) a.now.memory self.now content.now) }
        ensures look { IsLookIn
            (kind K.Item K.key V.Item S.hash_of) a.now.memory self.now content.now result.1 }
    {
        let bytes = a.read(self.table.block);
        let look = self.look_by(a, bytes, content);
        match look.spot {
            Spot::Taken { at } => (Some(value_at::<K, V>(bytes, self.table.slots, at)), look),
            Spot::Open { .. } => (None, look),
        }
    }

    /// Returns whether a key is there.
    #[inline(always)]
    pub fn contains_key<C: ChunkSource>(&self, a: &Allocator<C>, key: K) -> bool
        requires keys_small { K.SIZE ≤ 2 ^ 24 }
        requires values_small { V.SIZE ≤ 2 ^ 24 }
        requires held { IsMapIn (kind K.Item K.key V.Item S.hash_of) a.now.memory self.now }
        requires text { IsTrue (is_readable a.now.memory.state (K.key.text key)) }
        ensures { result ≡ has (map_in (kind K.Item K.key V.Item S.hash_of) a.now.memory self.now)
            (content_in K.key a.now.memory key) }
    {
        self.get(a, key).is_some()
    }

    /// Inserts a pair, and returns the previous value of the key. A key that is there stays, with the new value.
    ///
    /// # Errors
    ///
    /// `CapacityOverflow` if the key is new and there are 4,294,967,295 pairs; `AllocErr` and `OutOfMemory` as for the
    /// arena's `alloc_layout`, if the key is new and the table is full. The map and the memory are unchanged.
    #[inline(always)]
    pub fn insert<C: ChunkSource>(
        &mut self,
        a: &mut Allocator<C>,
        key: K,
        value: V,
    ) -> Grown<Option<V>>
        requires keys_small { K.SIZE ≤ 2 ^ 24 }
        requires values_small { V.SIZE ≤ 2 ^ 24 }
        requires held { IsMapIn (kind K.Item K.key V.Item S.hash_of) a.old.memory self.old }
        requires text { IsTrue (is_readable a.old.memory.state (K.key.text key)) }
        requires apart { AreBlocksApart (K.key.text key) self.old.table.block }
        ensures { Puts (kind K.Item K.key V.Item S.hash_of) a.old a.new self.old key value is_value
            self.new result }
    {
        let look = self.look(a, key);
        self.insert_at(a, look, key, value)
    }

    /// Inserts a pair as `insert` does, where the search for the key's content ended. The map must be unchanged since
    /// then.
    ///
    /// # Errors
    ///
    /// As for `insert`.
    #[inline(always)]
    pub fn insert_at<C: ChunkSource>(
        &mut self,
        a: &mut Allocator<C>,
        look: Look,
        key: K,
        value: V,
    ) -> Grown<Option<V>>
        requires keys_small { K.SIZE ≤ 2 ^ 24 }
        requires values_small { V.SIZE ≤ 2 ^ 24 }
        requires held { IsMapIn (kind K.Item K.key V.Item S.hash_of) a.old.memory self.old }
        requires text { IsTrue (is_readable a.old.memory.state (K.key.text key)) }
        requires apart { AreBlocksApart (K.key.text key) self.old.table.block }
        requires look { IsLookIn (kind K.Item K.key V.Item S.hash_of) a.old.memory self.old
            (content_in K.key a.old.memory key) look }
        ensures { Puts (kind K.Item K.key V.Item S.hash_of) a.old a.new self.old key value is_value
            self.new result }
    {
        match look.spot {
            Spot::Taken { at } => Ok(Some(self.replace(a, at, value))),
            Spot::Open { at, mark } => {
                if (self.len as u64) < limit_of(self.table.slots) {
                    self.table
                        .put(a, &self.hasher, look.hash, at, mark, key, value);
                    self.len += 1;
                    Ok(None)
                } else {
                    // A copy, so that the key itself stays in registers.
                    let apart = key;
                    self.insert_grown(a, look.hash, apart, value)
                }
            }
        }
    }

    // Replaces the value in a slot, and returns the old one.
    #[inline(always)]
    fn replace<C: ChunkSource>(&self, a: &mut Allocator<C>, at: u64, value: V) -> V
        requires keys_small { K.SIZE ≤ 2 ^ 24 }
        requires values_small { V.SIZE ≤ 2 ^ 24 }
        requires held { IsTableIn
            (kind K.Item K.key V.Item S.hash_of) a.old.memory self.now.hasher self.now.table }
        requires taken { (x : K × V) × (slice_get (slots_in K.Item V.Item a.old.memory self.now.table) at
            ≡ Some (Some x)) }
        ensures held { IsTableIn
            (kind K.Item K.key V.Item S.hash_of) a.new.memory self.now.hasher self.now.table }
        ensures replaced { (x : K × V) → slice_get (slots_in K.Item V.Item a.old.memory self.now.table) at
            ≡ Some (Some x)
            → (result ≡ x.1) × (slots_in K.Item V.Item a.new.memory self.now.table
            ≡ slice_set (slots_in K.Item V.Item a.old.memory self.now.table) at (Some (x.0, value))) }
        ensures places { SamePlaces a.old a.new }
        ensures frame { Frame a.old.memory a.new.memory (self.now.table.block ∷ [])
            (self.now.table.block ∷ []) }
    {
        let old = self.value(a, at);
        let put = PutValue::<K, V> {
            slots: self.table.slots,
            at,
            value,
            of: PhantomData,
        };
        a.write_with(self.table.block, 0, self.table.block.size, &put);
        old
    }

    /// Removes a key, and returns its value, if the key was there.
    #[inline(always)]
    pub fn remove<C: ChunkSource>(&mut self, a: &mut Allocator<C>, key: K) -> Option<V>
        requires keys_small { K.SIZE ≤ 2 ^ 24 }
        requires values_small { V.SIZE ≤ 2 ^ 24 }
        requires held { IsMapIn (kind K.Item K.key V.Item S.hash_of) a.old.memory self.old }
        requires text { IsTrue (is_readable a.old.memory.state (K.key.text key)) }
        ensures { TakesOut (kind K.Item K.key V.Item S.hash_of) a.old a.new self.old key is_value
            self.new result }
    {
        match self.look(a, key).spot {
            Spot::Taken { at } => {
                let value = self.value(a, at);
                self.table.close(a, &self.hasher, at);
                self.len -= 1;
                Some(value)
            }
            Spot::Open { .. } => None,
        }
    }
}
