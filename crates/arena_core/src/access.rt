// How the bytes of blocks are read and written.
ghost use Rattle.std.specs.Prelude.{◌≡◌, ◌+◌, ◌-◌, ◌≤◌, ◌<◌, ℕ, List, IsTrue, length, replicate};
ghost use Rattle.std.specs.Borrow.{sem};

use crate::arena::Arena;
use arena_store::Block;
use arena_store::chunk::{bytes_at, copy_bytes, part_at_mut};
use arena_store::edit::{Edit, Fill, Put, Shift, shift_in};

impl<const MIN_ALIGN: usize> Arena<MIN_ALIGN> {
    ghost use Rattle.arena_rules.specs.State.{is_range_used, start_of};
    ghost use Rattle.arena_store.specs.Memory.{Memory, Writes, is_readable, image, bytes_from};
    ghost use Rattle.arena_core.specs.BlockCalls.{WritesBlock, EditsBlock};
    ghost use Rattle.arena_store.specs.Lends.{with_block};
    ghost use Rattle.arena_core.specs.BlockLends.{LendsBlock, LendsRange, with_range};

    /// Returns whether a block is readable: it is empty, or of the arena's generation with its bytes in one chunk's
    /// used part. A non-empty block from before a reset isn't, unless the generation was already at its maximum.
    pub fn is_held_place(&self, block: Block) -> bool
        ensures { result ≡ is_readable self.now.state block }
    {
        block.size == 0
            || block.generation == self.generation
                && (self.newest.has(block) || self.older.has(block))
    }

    /// Returns the bytes of a block.
    pub fn read(&self, block: Block) -> &[u8]
        requires { IsTrue (is_readable self.now.state block) }
        ensures { result.now ≡ bytes_from (image self.now) block.addr block.size }
    {
        if block.size == 0 {
            return &[];
        }
        bytes_at(&self.newest, &self.older, block.addr, block.size)
    }

    /// Returns the bytes of a block, for writing. What is written there is in the block afterwards.
    pub fn read_mut(&mut self, block: Block) -> &mut [u8]
        requires { IsTrue (is_readable self.old.state block) }
        ensures* writes_back { sem 𝓛 (LendsBlock MIN_ALIGN.row self.entry block result) }
        ensures value { result.now ≡ bytes_from (image self.old) block.addr block.size }
        ensures writes { (list : List ℕ) → length list ≡ block.size
            → WritesBlock self.old (with_block self.old block list) block 0 list }
    {
        self.range_mut(block, 0, block.size)
    }

    /// Replaces bytes of a block, from the index `at` on.
    pub fn write(&mut self, block: Block, at: u64, bytes: &[u8])
        requires readable { IsTrue (is_readable self.old.state block) }
        requires range { at + length bytes.now ≤ block.size }
        ensures { WritesBlock self.old self.new block at bytes.now }
    {
        self.edit(block, at, bytes.len() as u64, &Put { bytes });
    }

    /// Changes `size` bytes of a block in place, from the index `at` on, without a buffer.
    #[inline(always)]
    pub fn write_with<E: Edit>(&mut self, block: Block, at: u64, size: u64, e: &E)
        requires readable { IsTrue (is_readable self.old.state block) }
        requires range { at + size ≤ block.size }
        requires suits { E.suits e.now (bytes_from (image self.old) (block.addr + at) size) }
        ensures { EditsBlock self.old self.new block at size (E.relates e.now) }
    {
        self.edit(block, at, size, e);
    }

    /// Moves `size` bytes of a block from the index `from` to the index `to`, in one memory move. The two ranges may
    /// overlap.
    #[inline(always)]
    pub fn move_within(&mut self, block: Block, from: u64, to: u64, size: u64)
        requires readable { IsTrue (is_readable self.old.state block) }
        requires source { from + size ≤ block.size }
        requires target { to + size ≤ block.size }
        ensures { WritesBlock self.old self.new block to (bytes_from (image self.old)
            (block.addr + from) size) }
    {
        self.edit(block, 0, block.size, &Shift { from, to, size });
    }

    /// Copies `size` bytes of a block, from the index `from` on, to the index `to` of another block of this arena or of
    /// the same block, in one memory move. The two ranges may overlap.
    pub fn copy_between(&mut self, source: Block, from: u64, target: Block, to: u64, size: u64)
        requires source { IsTrue (is_readable self.old.state source) }
        requires target { IsTrue (is_readable self.old.state target) }
        requires source_range { from + size ≤ source.size }
        requires target_range { to + size ≤ target.size }
        ensures { WritesBlock self.old self.new target to (bytes_from (image self.old)
            (source.addr + from) size) }
    {
        self.known();
        if size == 0 {
            return;
        }
        let (from, to) = (source.addr + from, target.addr + to);
        copy_bytes(&mut self.newest, &mut self.older, from, to, size);
    }

    /// Sets all bytes of a block from an index on.
    #[inline(always)]
    pub fn fill(&mut self, block: Block, at: u64, value: u8)
        requires readable { IsTrue (is_readable self.old.state block) }
        requires range { at ≤ block.size }
        ensures { WritesBlock self.old self.new block at (replicate (block.size - at) value) }
    {
        self.edit(block, at, block.size - at, &Fill { value });
    }

    // Changes a range of a block's bytes.
    #[inline(always)]
    fn edit<E: Edit>(&mut self, block: Block, at: u64, size: u64, e: &E)
        requires readable { IsTrue (is_readable self.old.state block) }
        requires range { at + size ≤ block.size }
        requires suits { E.suits e.now (bytes_from (image self.old) (block.addr + at) size) }
        ensures { EditsBlock self.old self.new block at size (E.relates e.now) }
    {
        let newest = self.newest.base;
        if size == 0 || block.addr < newest {
            e.edit(self.range_mut(block, at, size));
            return;
        }
        // The newest chunk has a path of its own: where both join, a write takes one more addition.
        e.edit(part_at_mut(&mut self.newest, block.addr + at, size));
    }

    // Returns a range of a block's bytes, for writing.
    #[inline(always)]
    fn range_mut(&mut self, block: Block, at: u64, size: u64) -> &mut [u8]
        requires readable { IsTrue (is_readable self.old.state block) }
        requires range { at + size ≤ block.size }
        ensures* writes_back { sem 𝓛 (LendsRange MIN_ALIGN.row self.entry (block.addr + at) size result) }
        ensures value { result.now ≡ bytes_from (image self.old) (block.addr + at) size }
        ensures writes { (list : List ℕ) → length list ≡ size
            → WritesBlock self.old (with_range self.old (block.addr + at) size list) block at list }
    {
        if size == 0 {
            // The block's address may be anywhere.
            let end = self.newest.base + self.newest.size();
            return part_at_mut(&mut self.newest, end, 0);
        }
        let addr = block.addr + at;
        if block.addr >= self.newest.base {
            return part_at_mut(&mut self.newest, addr, size);
        }
        self.older.bytes_mut(addr, size)
    }

    // Moves n bytes within the newest chunk, in one memory move. The two ranges may overlap.
    #[inline(always)]
    pub(crate) fn move_in_newest(&mut self, from: u64, to: u64, n: u64)
        requires source { 0 < n → IsTrue (is_range_used self.old.state.chunks from n) }
        requires target { 0 < n → IsTrue (is_range_used self.old.state.chunks to n) }
        requires newest { 0 < n → (start_of self.old.state.chunks ≤ from) × (start_of self.old.state.chunks ≤ to) }
        ensures state { self.new.state ≡ self.old.state }
        ensures statistics { self.new.statistics ≡ self.old.statistics }
        ensures bytes { Writes self.old self.new to (bytes_from (image self.old) from n) }
    {
        if n == 0 {
            return;
        }
        shift_in(&mut self.newest, from, to, n);
    }
}
