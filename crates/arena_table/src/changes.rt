// Changes of a table: a pair is put, or a slot's pair goes. A key is hashed again if its mark doesn't give its distance
// from its home.
ghost use Rattle.std.specs.Prelude.{◌≡◌, ℕ, ◌+◌, ◌^◌, ◌<◌, ◌≤◌, [], ◌∷◌, Some};
ghost use Rattle.std.specs.Prelude.{slice_get, slice_index};
ghost use Rattle.arena_chunks.specs.Frame.{Frame};
ghost use Rattle.arena_items.specs.Values.{bytes_of};
ghost use Rattle.arena_items.specs.Room.{SamePlaces};
ghost use Rattle.hash_ring.specs.Searches.{IsSpotFor};
ghost use Rattle.hash_ring.specs.Slots.{Closed, IsAway, IsPlaceFor, Settled};
ghost use Rattle.hash_ring.specs.Marks.{home_of, mark_of};
ghost use Rattle.arena_table.specs.Contents.{kind, content_in};
ghost use Rattle.arena_table.specs.Tables.{pair_hash, slots_in, HasFree};
ghost use Rattle.arena_table.specs.Tables.{IsTableIn, IsTextBeside};

use crate::far::{far_spot, hash_at};
use crate::gap::{CloseGap, PullBack, is_near};
use crate::key::ArenaKey;
use crate::put::PutPair;
use crate::table::Table;
use arena_chunks::{Allocator, ChunkSource};
use arena_items::{Item, Zeros};
use hash_ring::{AWAY, FAR, KeyHasher, distance, mark_of, ring};
use std::marker::PhantomData;

// The mark that the pair of a slot has after it moves back by one.
fn mark_back<K: ArenaKey, V: Item, S: KeyHasher, C: ChunkSource>(
    a: &Allocator<C>,
    table: Table<K, V>,
    hasher: &S,
    from: u64,
    mark: u8,
) -> u8
    requires keys_small { K.SIZE ≤ 2 ^ 24 }
    requires values_small { V.SIZE ≤ 2 ^ 24 }
    requires held { IsTableIn (kind K.Item K.key V.Item S.hash_of) a.now.memory hasher.now table }
    requires index { from < table.slots }
    requires mark { mark ≡ slice_index (bytes_of a.now.memory table.block) from }
    requires away { 32 ≤ mark }
    ensures { (x : K × V) → slice_get (slots_in K.Item V.Item a.now.memory table) from ≡ Some (Some x)
        → (d : ℕ) × IsAway (λ p. home_of table.slots (pair_hash
        (kind K.Item K.key V.Item S.hash_of) a.now.memory hasher.now p)) table.slots
        (slots_in K.Item V.Item a.now.memory table) from x (d + 1)
        × (result ≡ mark_of (pair_hash
        (kind K.Item K.key V.Item S.hash_of) a.now.memory hasher.now x) d) }
{
    if mark < FAR {
        return mark - 0x10;
    }
    let hash = hash_at(a, table, hasher, from);
    mark_of(hash, distance(table.slots, hash, from) - 1)
}

// Frees a slot and closes the gap, one slot at a time, where marks alone don't suffice.
#[cold]
#[inline(never)]
fn close_far<K: ArenaKey, V: Item, S: KeyHasher, C: ChunkSource>(
    a: &mut Allocator<C>,
    table: Table<K, V>,
    hasher: &S,
    at: u64,
)
    requires keys_small { K.SIZE ≤ 2 ^ 24 }
    requires values_small { V.SIZE ≤ 2 ^ 24 }
    requires held { IsTableIn (kind K.Item K.key V.Item S.hash_of) a.old.memory hasher.now table }
    requires free { HasFree K.Item V.Item a.old.memory table }
    requires taken { (x : K × V) × (slice_get (slots_in K.Item V.Item a.old.memory table) at ≡ Some
        (Some x)) }
    ensures held { IsTableIn (kind K.Item K.key V.Item S.hash_of) a.new.memory hasher.now table }
    ensures closed { Closed (slots_in K.Item V.Item a.old.memory table)
        (slots_in K.Item V.Item a.new.memory table) at }
    ensures places { SamePlaces a.old a.new }
    ensures frame { Frame a.old.memory a.new.memory (table.block ∷ []) (table.block ∷ []) }
{
    let slots = table.slots;
    let mut gap = at;
    'slots: for _ in 0..slots {
        let from = ring(slots, gap + 1);
        let mark = a.read(table.block)[from as usize];
        if mark < AWAY {
            a.write_with(table.block, gap, 1, &Zeros);
            return;
        }
        let pull = PullBack::<K, V> {
            slots,
            from,
            to: gap,
            mark: mark_back(a, table, hasher, from, mark),
            of: PhantomData,
        };
        a.write_with(table.block, 0, table.block.size, &pull);
        gap = from;
    }
}

impl<K: ArenaKey, V: Item> Table<K, V> {
    // The slot for a pair with this hash, given where the search for it ended.
    #[inline]
    fn place_for<S: KeyHasher, C: ChunkSource>(
        self,
        a: &Allocator<C>,
        hasher: &S,
        hash: u64,
        spot: u64,
        mark: u8,
    ) -> u64
        requires keys_small { K.SIZE ≤ 2 ^ 24 }
        requires values_small { V.SIZE ≤ 2 ^ 24 }
        requires held { IsTableIn (kind K.Item K.key V.Item S.hash_of) a.now.memory hasher.now self }
        requires free { HasFree K.Item V.Item a.now.memory self }
        requires spot { IsSpotFor (λ p. home_of self.slots (pair_hash
            (kind K.Item K.key V.Item S.hash_of) a.now.memory hasher.now p)) self.slots
            (slots_in K.Item V.Item a.now.memory self) hash spot mark }
        ensures { (d : ℕ) × IsPlaceFor (λ p. home_of self.slots (pair_hash
            (kind K.Item K.key V.Item S.hash_of) a.now.memory hasher.now p)) self.slots
            (slots_in K.Item V.Item a.now.memory self) (home_of self.slots hash) result d
            × (mark ≡ mark_of hash d) }
    {
        if mark < FAR {
            return spot;
        }
        // A separate copy, so that the common path doesn't write one for the call.
        let table = self;
        far_spot(a, table, hasher, hash)
    }

    /// Inserts a pair with a new content, where the search for it ended.
    #[inline(always)]
    pub fn put<S: KeyHasher, C: ChunkSource>(
        self,
        a: &mut Allocator<C>,
        hasher: &S,
        hash: u64,
        spot: u64,
        mark: u8,
        key: K,
        value: V,
    )
        requires keys_small { K.SIZE ≤ 2 ^ 24 }
        requires values_small { V.SIZE ≤ 2 ^ 24 }
        requires held { IsTableIn (kind K.Item K.key V.Item S.hash_of) a.old.memory hasher.now self }
        requires free { HasFree K.Item V.Item a.old.memory self }
        requires text { IsTextBeside K.key a.old.memory self.block key }
        requires hash { hash ≡ S.hash_of hasher.now (content_in K.key a.old.memory key) }
        requires spot { IsSpotFor (λ p. home_of self.slots (pair_hash
            (kind K.Item K.key V.Item S.hash_of) a.old.memory hasher.now p)) self.slots
            (slots_in K.Item V.Item a.old.memory self) hash spot mark }
        ensures held { IsTableIn (kind K.Item K.key V.Item S.hash_of) a.new.memory hasher.now self }
        ensures settled { Settled (slots_in K.Item V.Item a.old.memory self)
            (slots_in K.Item V.Item a.new.memory self) (key, value) }
        ensures places { SamePlaces a.old a.new }
        ensures frame { Frame a.old.memory a.new.memory (self.block ∷ []) (self.block ∷ []) }
    {
        let put = PutPair {
            slots: self.slots,
            at: self.place_for(a, hasher, hash, spot, mark),
            mark,
            key,
            value,
        };
        a.write_with(self.block, 0, self.block.size, &put);
    }

    /// Inserts a pair with a new content.
    #[tactic(auto, using(crate::proofs::HandleLemmas::handle_laws))]
    #[inline(always)]
    pub fn settle<S: KeyHasher, C: ChunkSource>(
        self,
        a: &mut Allocator<C>,
        hasher: &S,
        hash: u64,
        key: K,
        value: V,
    )
        requires keys_small { K.SIZE ≤ 2 ^ 24 }
        requires values_small { V.SIZE ≤ 2 ^ 24 }
        requires held { IsTableIn (kind K.Item K.key V.Item S.hash_of) a.old.memory hasher.now self }
        requires free { HasFree K.Item V.Item a.old.memory self }
        requires text { IsTextBeside K.key a.old.memory self.block key }
        requires hash { hash ≡ S.hash_of hasher.now (content_in K.key a.old.memory key) }
        ensures held { IsTableIn (kind K.Item K.key V.Item S.hash_of) a.new.memory hasher.now self }
        ensures settled { Settled (slots_in K.Item V.Item a.old.memory self)
            (slots_in K.Item V.Item a.new.memory self) (key, value) }
        ensures places { SamePlaces a.old a.new }
        ensures frame { Frame a.old.memory a.new.memory (self.block ∷ []) (self.block ∷ []) }
    {
        let (at, mark) = self.spot_for(a.read(self.block), hash);
        self.put(a, hasher, hash, at, mark, key, value);
    }

    /// Frees a slot, and closes the gap.
    #[tactic(auto, using(crate::proofs::HandleLemmas::handle_laws))]
    #[inline(always)]
    pub fn close<S: KeyHasher, C: ChunkSource>(self, a: &mut Allocator<C>, hasher: &S, at: u64)
        requires keys_small { K.SIZE ≤ 2 ^ 24 }
        requires values_small { V.SIZE ≤ 2 ^ 24 }
        requires held { IsTableIn (kind K.Item K.key V.Item S.hash_of) a.old.memory hasher.now self }
        requires free { HasFree K.Item V.Item a.old.memory self }
        requires taken { (x : K × V) × (slice_get (slots_in K.Item V.Item a.old.memory self) at ≡ Some
            (Some x)) }
        ensures held { IsTableIn (kind K.Item K.key V.Item S.hash_of) a.new.memory hasher.now self }
        ensures closed { Closed (slots_in K.Item V.Item a.old.memory self)
            (slots_in K.Item V.Item a.new.memory self) at }
        ensures places { SamePlaces a.old a.new }
        ensures frame { Frame a.old.memory a.new.memory (self.block ∷ []) (self.block ∷ []) }
    {
        if !is_near(a.read(self.block), self.slots, at) {
            let table = self;
            close_far(a, table, hasher, at);
            return;
        }
        let close = CloseGap::<K, V> {
            slots: self.slots,
            at,
            of: PhantomData,
        };
        a.write_with(self.block, 0, self.block.size, &close);
    }
}
