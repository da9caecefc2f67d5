// The table of the older chunks: all but the newest.
ghost use Rattle.std.specs.Prelude.{◌≡◌, ◌+◌, ◌-◌, ◌*◌, ◌^◌, ◌<◌, ◌≤◌, [], ◌∷◌, ◌++◌, length, get_or, take, drop, IsOk, OnOk, nat_le, ◌&&◌};
ghost use Rattle.std.specs.Borrow.{sem};
ghost use Rattle.std.specs.List.{All, list_any, sum_by};
ghost use Rattle.arena_rules.specs.State.{used_length, is_used_by};
ghost use Rattle.arena_region.specs.Bytes.{bytes, written_from};
ghost use Rattle.arena_store.specs.Copies.{HasBytes, CopiesKept};
ghost use Rattle.arena_store.specs.Stored.{stored_chunk, oldest, IsOrdered, IsOldest, IsTopmost, HasPartIn, part_in, with_part_in};

use crate::below::{base, last_below, search};
use crate::block::Block;
use crate::chunk::StoredChunk;
use crate::shift::shift;
use arena_bases::{Bases, Steps};
use arena_region::Region;
use arena_rules::OutOfMemory;
use std::alloc::Global;
use std::marker::Model;
use std::sync::ledger::Ledger;

/// A chunk's bytes, and how many of them are used, at the end.
#[derive(Drop)]
pub struct Kept {
    bytes: Region,
    used: u64,
}

/// The base of a chunk, and the address and the bytes of its used part.
#[derive(Drop)]
pub struct Used<'a> {
    pub base: u64,
    pub start: u64,
    pub bytes: &'a [u8],
}

/// The chunks but the newest. Contracts see them as a list, newest first, with the spare capacity.
#[derive(Drop)]
pub struct Table {
    // Oldest first, so that the bases increase.
    bases: Bases,
    kept: Vec<Kept>,
}

impl Model for Table {
    ghost use Rattle.std.specs.Prelude.{◌-◌, vec_len, vec_capacity};
    ghost use Rattle.arena_store.specs.Chunks.{Chunks};

    ghost Value = { Chunks };

    ghost use Rattle.arena_store.specs.Table.{IsTable, table_of};

    ghost view = { λ t. table_of t.bases t.kept.items (vec_capacity t.kept - vec_len t.kept) };

    ghost invariant = { λ t. IsTable t.bases.items t.kept.items };
}

impl Table {
    ghost use Rattle.arena_store.specs.Table.{IsKept, chunk_of, number_in};
    ghost use Rattle.arena_store.specs.Lends.{LendsPartIn};

    /// Returns an empty table. Doesn't allocate.
    pub fn new(alloc: Global) -> Table
        ensures { result.items ≡ [] }
    {
        Table {
            bases: Bases::new(alloc),
            kept: Vec::new(alloc),
        }
    }

    /// Makes room for one more chunk. Fails only if there is no room yet and memory runs out.
    pub fn reserve(&mut self) -> Result<(), OutOfMemory>
        ensures items { self.new.items ≡ self.old.items }
        ensures room { OnOk result (1 ≤ self.new.spare) }
        ensures succeeds { 1 ≤ self.old.spare → IsOk result }
    {
        if self.bases.reserve().is_err() {
            return Err(OutOfMemory);
        }
        Ok(self.kept.reserve(1)?)
    }

    /// Adds a chunk that begins above all others. There must be room for it.
    pub fn push(&mut self, chunk: StoredChunk)
        requires room { 1 ≤ self.old.spare }
        requires ordered { IsOrdered chunk }
        requires above { IsTopmost chunk.base self.old.items }
        ensures { self.new.items ≡ chunk ∷ self.old.items }
    {
        let used = chunk.used();
        let StoredChunk {
            base,
            cursor: _,
            bytes,
        } = chunk;
        self.bases.push(base);
        self.kept.push_reserved(Kept { bytes, used });
    }

    /// Removes and frees all chunks.
    pub fn clear(&mut self)
        ensures { self.new.items ≡ [] }
    {
        self.bases.truncate(0);
        self.kept.clear();
    }

    /// Returns the allocator.
    pub fn alloc(&self) -> Global {
        *self.kept.allocator()
    }

    /// Frees all but the `n` oldest chunks, and returns the newest of those, which leaves the table.
    pub fn back_to(&mut self, n: usize) -> StoredChunk
        requires some { 0 < n }
        requires within { n ≤ length self.old.items }
        requires ordered { All IsOrdered self.old.items }
        ensures { oldest n self.old.items ≡ result ∷ self.new.items }
    {
        let base = base(&self.bases, n as u64 - 1);
        self.bases.truncate(n as u64 - 1);
        let Kept { bytes, used } = last_of(&mut self.kept, n);
        let cursor = base + (bytes.len() as u64 - used);
        StoredChunk {
            base,
            cursor,
            bytes,
        }
    }

    /// Returns the number of chunks.
    pub fn len(&self) -> usize
        ensures value { result ≡ length self.now.items }
        ensures bound { result < 2 ^ 63 }
    {
        self.kept.len()
    }

    /// Returns the number of the chunk that has an address, from its base to its data end, or `None`: from 0, oldest
    /// first. Each read of a base counts one step.
    pub fn number_of<L: Ledger>(&self, addr: u64, steps: &mut Steps<L>) -> Option<u64>
        ensures number { result ≡ number_in addr self.now.items }
        ensures rises { steps.old ≤ steps.new }
        ensures cost { 2 ^ (steps.new - steps.old) ≤ 2 * length self.now.items + 1 }
    {
        let (n, base) = search(&self.bases, addr, steps);
        if n == 0 {
            return None;
        }
        let len = self.kept[(n - 1) as usize].bytes.len() as u64;
        if addr - base <= len {
            Some(n - 1)
        } else {
            None
        }
    }

    /// Returns the bytes at these addresses, which must be used.
    #[inline]
    pub fn bytes(&self, addr: u64, n: u64) -> &[u8]
        requires { HasPartIn self.now.items addr n }
        ensures { result.now ≡ part_in self.now.items addr n }
    {
        let (i, from) = last_below(&self.bases, addr);
        self.kept[i].bytes.part(from, n as usize)
    }

    /// Returns the bytes at these addresses, which must be used, for writing. What is written there is in the chunk
    /// afterwards. It is kept out of line, so that a write in the newest chunk is small enough to be inlined.
    #[cold]
    #[inline(never)]
    pub fn bytes_mut(&mut self, addr: u64, n: u64) -> &mut [u8]
        requires { HasPartIn self.old.items addr n }
        ensures* writes_back { sem 𝓛 (LendsPartIn self.entry addr result) }
        ensures value { result.now ≡ part_in self.old.items addr n }
    {
        let (i, from) = last_below(&self.bases, addr);
        self.kept[i].bytes.part_mut(from, n as usize)
    }

    /// Copies used bytes to a used place. The two ranges may overlap.
    pub fn copy(&mut self, from: u64, to: u64, n: u64)
        requires source { HasPartIn self.old.items from n }
        requires target { HasPartIn self.old.items to n }
        ensures { self.new.items ≡ with_part_in self.old.items to (part_in self.old.items from n) }
    {
        let (i, source) = last_below(&self.bases, from);
        let (j, target) = last_below(&self.bases, to);
        copy_kept(&mut self.kept, i, j, source, target, n as usize);
    }

    // Returns the base of a chunk and the rest of it, by its number.
    #[inline]
    fn chunk(&self, i: usize) -> (u64, &Kept)
        requires index { i < length self.now.items }
        requires ordered { All IsOrdered self.now.items }
        ensures chunk { IsOldest self.now.items i (chunk_of result.0 result.1.now) }
        ensures used { IsKept result.1.now }
        ensures ordered { IsOrdered (chunk_of result.0 result.1.now) }
    {
        (base(&self.bases, i as u64), &self.kept[i])
    }

    /// Returns the used part of a chunk, by its number.
    pub fn used_part(&self, i: usize) -> Used<'_>
        requires index { i < length self.now.items }
        requires ordered { All IsOrdered self.now.items }
        ensures { (c : StoredChunk) × IsOldest self.now.items i c
            × (result.base ≡ c.base) × (result.start ≡ c.cursor)
            × (result.bytes.now ≡ drop (c.cursor - c.base) c.bytes.items) }
    {
        let (base, kept) = self.chunk(i);
        let len = kept.bytes.len();
        let from = len - kept.used as usize;
        Used {
            base,
            start: base + from as u64,
            bytes: kept.bytes.part(from, kept.used as usize),
        }
    }

    /// Returns the base and the data end of a chunk, by its number.
    pub fn ends(&self, i: usize) -> (u64, u64)
        requires index { i < length self.now.items }
        requires ordered { All IsOrdered self.now.items }
        ensures { (c : StoredChunk) × IsOldest self.now.items i c
            × (result.0 ≡ c.base) × (result.1 ≡ c.base + length c.bytes.items) }
    {
        let (start, kept) = self.chunk(i);
        (start, start + kept.bytes.len() as u64)
    }

    /// Returns whether the block's bytes are in the used part of one of the chunks.
    pub fn has(&self, block: Block) -> bool
        requires { All IsOrdered self.now.items }
        ensures { result ≡ list_any (λ c. is_used_by block.addr block.size (stored_chunk c)) self.now.items }
    {
        for i in 0..self.kept.len() {
            if self.chunk_has(i, block) {
                return true;
            }
        }
        false
    }

    fn chunk_has(&self, i: usize, block: Block) -> bool
        requires index { i < length self.now.items }
        requires ordered { All IsOrdered self.now.items }
        ensures { (c : StoredChunk) × IsOldest self.now.items i c
            × (result ≡ is_used_by block.addr block.size (stored_chunk c)) }
    {
        let (base, kept) = self.chunk(i);
        let end = base + kept.bytes.len() as u64;
        lies_in(end - kept.used, end, block)
    }

    /// Returns how many bytes of the older chunks are used.
    pub fn used(&self) -> u64
        requires { sum_by (λ c. used_length (stored_chunk c)) self.now.items < 2 ^ 64 }
        ensures { result ≡ sum_by (λ c. used_length (stored_chunk c)) self.now.items }
    {
        let mut used = 0;
        for kept in &self.kept {
            used += kept.used;
        }
        used
    }

    /// Returns how many bytes the older chunks have.
    pub fn size(&self) -> u64
        requires { sum_by (λ c. length c.bytes.items) self.now.items < 2 ^ 64 }
        ensures { result ≡ sum_by (λ c. length c.bytes.items) self.now.items }
    {
        let mut size = 0;
        for kept in &self.kept {
            size += kept.bytes.len() as u64;
        }
        size
    }
}

// Removes all but the first `n` items, and then the last of those, which it returns.
fn last_of(kept: &mut Vec<Kept>, n: usize) -> Kept
    requires some { 0 < n }
    requires within { n ≤ length kept.old.items }
    ensures items { kept.new.items ≡ take (n - 1) kept.old.items }
    ensures last { (d : Kept) → result ≡ get_or kept.old.items (n - 1) d }
{
    kept.truncate(n);
    match kept.pop() {
        Some(last) => last,
        None => unreachable!(),
    }
}

// Returns whether the block's bytes are between two addresses.
fn lies_in(start: u64, end: u64, block: Block) -> bool
    ensures { result ≡ (nat_le start block.addr && nat_le (block.addr + block.size) end) }
{
    start <= block.addr && block.addr <= end && block.size <= end - block.addr
}

// Copies bytes of one item into another or the same. The two ranges may overlap.
fn copy_kept(kept: &mut [Kept], i: usize, j: usize, from: usize, to: usize, n: usize)
    requires source { HasBytes kept.old i from n }
    requires target { HasBytes kept.old j to n }
    ensures { CopiesKept kept.old kept.new i j from to n }
{
    if i == j {
        let bytes = &mut kept[j].bytes;
        let low = bytes.low();
        let place = bytes.part_mut(low, bytes.len() - low);
        shift(place, from - low, to - low, n);
    } else if i < j {
        let (first, rest) = kept.split_at_mut(j);
        copy_bytes(&first[i].bytes, &mut rest[0].bytes, from, to, n);
    } else {
        let (first, rest) = kept.split_at_mut(i);
        copy_bytes(&rest[0].bytes, &mut first[j].bytes, from, to, n);
    }
}

fn copy_bytes(source: &Region, target: &mut Region, from: usize, to: usize, n: usize)
    requires low { (source.now.low ≤ from) × (target.old.low ≤ to) }
    requires source { from + n ≤ length source.now.items }
    requires target { to + n ≤ length target.old.items }
    ensures { target.new ≡ bytes (written_from target.old.items to (take n (drop from source.now.items)))
        target.old.low }
{
    target.part_mut(to, n).copy_from_slice(source.part(from, n));
}
