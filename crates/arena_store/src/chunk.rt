// A chunk with its bytes.
ghost use Rattle.std.specs.Prelude.{◌≡◌, ℕ, ◌<◌, ◌^◌, [], ◌∷◌, ◌++◌, ◌==◌, if◌then◌else◌, vec_len, vec_capacity, length, take, drop, ◌≤◌, ◌+◌, ◌-◌, Some, None, nat_lt, min};
ghost use Rattle.std.specs.Borrow.{sem};
ghost use Rattle.std.specs.List.{All, list_any, count_by};
ghost use Rattle.arena_rules.specs.State.{used_length, is_used_by};
ghost use Rattle.arena_region.specs.Bytes.{bytes, written_from};
ghost use Rattle.arena_store.specs.Lends.{LendsPart};
ghost use Rattle.arena_store.specs.Stored.{stored_chunk, floor_in, part_of, part_in, with_part_in, HasPartIn, IsOrdered, IsMovedTo, IsTopmost};

use crate::block::Block;
use crate::edit::shift_in;
use crate::table::Table;
use arena_region::Region;
use std::alloc::Global;
use std::mem;

/// The base and the data end of the value that means "no chunk".
pub const NOWHERE: u64 = 16;

// How many bytes are made ready at once: an eighth of those that are already, at least a page, so that this is rare,
// and at most as many as stay in the fastest cache until they are written.
const SHARE: usize = 8;

const LEAST_STEP: usize = 4096;

const LARGEST_STEP: usize = 16384;

/// A chunk with its bytes. Those from the cursor on are used, and are ready.
// A base of 16 means that there is no chunk: a chunk's base is at least 4096, and a cursor at 16 has room for nothing.
#[derive(Drop)]
pub struct StoredChunk {
    /// Its lowest address.
    pub base: u64,
    /// The lowest address in use.
    pub cursor: u64,
    /// Its bytes, upwards from the base.
    pub bytes: Region,
}

impl StoredChunk {
    /// Returns the value that means "no chunk".
    pub fn none(alloc: Global) -> StoredChunk
        ensures base { result.base ≡ 16 }
        ensures cursor { result.cursor ≡ 16 }
        ensures bytes { result.bytes ≡ bytes [] 0 }
    {
        StoredChunk {
            base: NOWHERE,
            cursor: NOWHERE,
            bytes: Region::none(alloc),
        }
    }

    /// Returns a chunk with nothing used.
    pub fn unused(base: u64, bytes: Region) -> StoredChunk
        requires { base + length bytes.items < 2 ^ 64 }
        ensures chunk { result ≡ record { base = base; cursor = base + length bytes.items; bytes = bytes } }
        ensures ready { floor_in result ≤ result.cursor }
    {
        // For the proof: the ready bytes of a region begin within it.
        let _ = bytes.low();
        let cursor = base + bytes.len() as u64;
        StoredChunk {
            base,
            cursor,
            bytes,
        }
    }

    /// Returns the number of its bytes.
    pub fn size(&self) -> u64
        ensures { result ≡ length self.now.bytes.items }
    {
        self.bytes.len() as u64
    }

    /// Returns the lowest address whose byte is ready.
    pub fn floor(&self) -> u64
        requires { floor_in self.now ≤ self.now.cursor }
        ensures { result ≡ floor_in self.now }
    {
        self.base + self.bytes.low() as u64
    }

    /// Returns whether the byte at an address isn't ready.
    pub fn is_untouched(&self, addr: u64) -> bool
        requires { self.now.base ≤ addr }
        ensures { result ≡ nat_lt addr (floor_in self.now) }
    {
        ((addr - self.base) as usize) < self.bytes.low()
    }

    /// Moves the cursor, and makes the bytes from there on ready.
    #[inline(always)]
    pub fn set_cursor(&mut self, addr: u64)
        requires { self.old.base ≤ addr }
        ensures { IsMovedTo self.old self.new addr }
    {
        let from = (addr - self.base) as usize;
        if from < self.bytes.low() {
            make_ready(&mut self.bytes, from);
        }
        self.cursor = addr;
    }

    /// Makes the bytes from an address on ready, and writes these there.
    pub fn make_ready_with(&mut self, addr: u64, list: &[u8])
        requires low { self.old.base ≤ addr }
        requires high { addr - self.old.base + length list.now ≤ length self.old.bytes.items }
        ensures { self.new ≡ record self.old {
          bytes = bytes
              (written_from self.old.bytes.items (addr - self.old.base) list.now)
              (min self.old.bytes.low (addr - self.old.base));
        } }
    {
        self.bytes
            .make_ready_with((addr - self.base) as usize, list);
    }

    /// Returns the data end, or `None` if there is no chunk.
    pub fn end(&self) -> Option<u64>
        requires { IsOrdered self.now }
        ensures { let end = self.now.base + length self.now.bytes.items in
            result ≡ (if self.now.base == 16 then None else Some end) }
    {
        if self.base == NOWHERE {
            None
        } else {
            Some(self.base + self.size())
        }
    }

    /// Returns the number of used bytes.
    pub fn used(&self) -> u64
        requires { IsOrdered self.now }
        ensures { result ≡ used_length (stored_chunk self.now) }
    {
        self.base + self.size() - self.cursor
    }

    /// Returns whether the block's bytes are in the used part.
    pub fn has(&self, block: Block) -> bool
        requires { IsOrdered self.now }
        ensures { result ≡ is_used_by block.addr block.size (stored_chunk self.now) }
    {
        let end = self.base + self.size();
        self.cursor <= block.addr && block.addr <= end && block.size <= end - block.addr
    }
}

// Makes the bytes from an index on ready, and some below it. It is kept out of line, so that a move of the cursor in the
// ready part is small enough to be inlined.
#[cold]
#[inline(never)]
fn make_ready(region: &mut Region, from: usize)
    ensures { (low : ℕ) × (low ≤ from) × (region.new ≡ bytes region.old.items low) }
{
    let low = region.low();
    let step = ((region.len() - low) / SHARE)
        .max(LEAST_STEP)
        .min(LARGEST_STEP);
    region.make_ready(from.min(low.saturating_sub(step)));
}

/// Makes a granted chunk the newest, with nothing used in it. The previous newest chunk, if there was one, is added to
/// the table, which must have room for it.
pub fn install(newest: &mut StoredChunk, older: &mut Table, base: u64, bytes: Region)
    requires room { 1 ≤ older.old.spare }
    requires ordered { IsOrdered newest.old }
    requires above { IsTopmost newest.old.base older.old.items }
    requires fits { base + length bytes.items < 2 ^ 64 }
    ensures newest { newest.new ≡ record { base = base; cursor = base + length bytes.items; bytes = bytes } }
    ensures ready { floor_in newest.new ≤ newest.new.cursor }
    ensures older { older.new.items
        ≡ (if newest.old.base == 16 then older.old.items else newest.old ∷ older.old.items) }
{
    let last = mem::replace(newest, StoredChunk::unused(base, bytes));
    if last.base == NOWHERE {
        return;
    }
    older.push(last);
}

/// Returns the bytes at these addresses, which must be used, in the newest chunk or in an older one.
#[inline(always)]
pub fn bytes_at<'a>(newest: &'a StoredChunk, older: &'a Table, addr: u64, n: u64) -> &'a [u8]
    requires { HasPartIn (newest.now ∷ older.now.items) addr n }
    ensures { result.now ≡ part_in (newest.now ∷ older.now.items) addr n }
{
    if addr >= newest.base {
        part_at(newest, addr, n)
    } else {
        older.bytes(addr, n)
    }
}

/// Copies used bytes to a used place, in one memory move. Each may be in the newest chunk or in an older one. The two
/// ranges may overlap.
#[inline(always)]
pub fn copy_bytes(newest: &mut StoredChunk, older: &mut Table, from: u64, to: u64, n: u64)
    requires source { HasPartIn (newest.old ∷ older.old.items) from n }
    requires target { HasPartIn (newest.old ∷ older.old.items) to n }
    ensures { let list = part_in (newest.old ∷ older.old.items) from n in
        newest.new ∷ older.new.items ≡ with_part_in (newest.old ∷ older.old.items) to list }
{
    if to >= newest.base && from >= newest.base {
        shift_in(newest, from, to, n);
    } else {
        copy_older(newest, older, from, to, n);
    }
}

// Copies bytes from an older chunk or to one. It is kept out of line, so that a copy in the newest chunk is small enough
// to be inlined.
#[cold]
#[inline(never)]
fn copy_older(newest: &mut StoredChunk, older: &mut Table, from: u64, to: u64, n: u64)
    requires source { HasPartIn (newest.old ∷ older.old.items) from n }
    requires target { HasPartIn (newest.old ∷ older.old.items) to n }
    requires older { newest.old.base ≤ to → from < newest.old.base }
    ensures { let list = part_in (newest.old ∷ older.old.items) from n in
        newest.new ∷ older.new.items ≡ with_part_in (newest.old ∷ older.old.items) to list }
{
    if to >= newest.base {
        part_at_mut(newest, to, n).copy_from_slice(older.bytes(from, n));
    } else if from >= newest.base {
        older
            .bytes_mut(to, n)
            .copy_from_slice(part_at(newest, from, n));
    } else {
        older.copy(from, to, n);
    }
}

/// Returns the chunk's bytes at these addresses, which must be ready.
pub fn part_at(chunk: &StoredChunk, addr: u64, size: u64) -> &[u8]
    requires low { floor_in chunk.now ≤ addr }
    requires high { addr - chunk.now.base + size ≤ length chunk.now.bytes.items }
    ensures { result.now ≡ part_of chunk.now addr size }
{
    chunk
        .bytes
        .part((addr - chunk.base) as usize, size as usize)
}

/// Returns the chunk's bytes at these addresses, which must be ready, for writing. What is written there is in the
/// chunk afterwards.
pub fn part_at_mut(chunk: &mut StoredChunk, addr: u64, size: u64) -> &mut [u8]
    requires low { floor_in chunk.old ≤ addr }
    requires high { addr - chunk.old.base + size ≤ length chunk.old.bytes.items }
    ensures* writes_back { sem 𝓛 (LendsPart chunk.entry addr result) }
    ensures value { result.now ≡ part_of chunk.old addr size }
{
    let from = (addr - chunk.base) as usize;
    chunk.bytes.part_mut(from, size as usize)
}
