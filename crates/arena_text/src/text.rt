// Texts: how they are made and read.
ghost use Rattle.std.specs.Prelude.{◌≡◌, ◌^◌, ◌<◌, ◌≤◌, ◌↔◌, ◌==◌, [], IsTrue, IfOk, IfSome, IfNone, IsUtf8, length, slice_set};
ghost use Rattle.std.specs.List.{flat_map};
ghost use Rattle.arena_chunks.specs.Memory.{Memory, is_readable};
ghost use Rattle.arena_chunks.specs.BlockCalls.{WritesBlock};
ghost use Rattle.arena_items.specs.Values.{IsTextIn, text_bytes};
ghost use Rattle.arena_text.specs.Builders.{IsBuilderIn, builder_bytes, no_block};
ghost use Rattle.arena_text.specs.Changes.{Becomes, Makes};

use crate::growth::plan_new;
use crate::pieces::{Byte, write_piece};
use crate::room::grown;
use arena_chunks::{Allocator, Block, ChunkSource, Str};
use arena_items::{AllocError, Grown};
use std::convert::AsStr;
use std::str;

/// The handle of growing bytes in an arena: a text while it is built. It is a name: two of them may name the same
/// bytes.
#[derive(Clone, Copy)]
pub struct StringBuilder {
    /// The block of the bytes.
    pub block: Block,
    /// The number of bytes.
    pub len: u64,
    /// The number of bytes for which there is room.
    pub cap: u64,
}

/// The Rust crate's name for it.
pub type ArenaStringBuilder = StringBuilder;

#[tactic(auto, using(crate::proofs::TextLemmas::text_laws))]
impl StringBuilder {
    /// Returns a text without bytes or room.
    pub fn new_in() -> StringBuilder
        ensures held { (memory : Memory) → IsBuilderIn memory result }
        ensures bytes { (memory : Memory) → builder_bytes memory result ≡ [] }
        ensures block { result.block ≡ no_block }
        ensures len { result.len ≡ 0 }
        ensures cap { result.cap ≡ 0 }
    {
        StringBuilder {
            block: Block::empty(1),
            len: 0,
            cap: 0,
        }
    }

    /// Returns a text without bytes, with room for exactly `capacity` bytes. For 0 no block is placed.
    ///
    /// # Errors
    ///
    /// `CapacityOverflow` if the capacity exceeds 2^63 - 1, and otherwise as for the arena's `alloc_layout`. Nothing
    /// changes.
    pub fn with_capacity_in<C: ChunkSource>(
        capacity: u64,
        a: &mut Allocator<C>,
    ) -> Grown<StringBuilder>
        ensures { Makes a.old a.new capacity [] result }
    {
        let text = grown(a, StringBuilder::new_in(), plan_new(capacity))?;
        Ok(text)
    }

    /// Returns a copy of a text, with room for it alone. For the empty text no block is placed.
    ///
    /// # Errors
    ///
    /// As for `with_capacity_in`.
    pub fn from_str_in<C: ChunkSource>(s: &str, a: &mut Allocator<C>) -> Grown<StringBuilder>
        ensures { Makes a.old a.new (length s.now) s.now result }
    {
        let mut text = StringBuilder::with_capacity_in(s.len() as u64, a)?;
        a.write(text.block, 0, s.as_bytes());
        text.len = text.cap;
        Ok(text)
    }

    /// Returns the bytes of texts, one after another, with room for them alone. For no bytes no block is placed.
    ///
    /// # Errors
    ///
    /// As for `with_capacity_in`, with the total length.
    pub fn from_strs_array_in<T: AsStr + Drop, const N: usize, C: ChunkSource>(
        strings: [T; N],
        a: &mut Allocator<C>,
    ) -> Grown<StringBuilder>
        ensures made { let bytes = flat_map T.text strings in Makes a.old a.new (length bytes) bytes result }
        ensures utf8 { IfOk result (λ text. IsUtf8 (builder_bytes a.new.memory text)) }
    {
        let Some(n) = whole_length(&strings) else {
            return Err(AllocError::CapacityOverflow);
        };
        let mut text = StringBuilder::with_capacity_in(n, a)?;
        write_all(a, text.block, &strings);
        text.len = text.cap;
        Ok(text)
    }

    /// Returns whether the handle is well formed and readable in this arena.
    pub fn is_held<C: ChunkSource>(&self, a: &Allocator<C>) -> bool
        ensures { IsTrue result ↔ IsBuilderIn a.now.memory self.now }
    {
        self.len <= self.cap
            && self.block.size == self.cap
            && self.block.align == 1
            && a.is_held_place(self.block)
    }

    /// Returns the number of bytes.
    #[inline]
    pub fn len(&self) -> u64
        ensures { result ≡ self.now.len }
    {
        self.len
    }

    /// Returns whether there are none.
    #[inline]
    pub fn is_empty(&self) -> bool
        ensures { result ≡ (self.now.len == 0) }
    {
        self.len == 0
    }

    /// Returns the number of bytes for which there is room.
    #[inline]
    pub fn capacity(&self) -> u64
        ensures { result ≡ self.now.cap }
    {
        self.cap
    }

    /// Returns the bytes.
    #[inline]
    pub fn as_bytes<'x, C: ChunkSource>(&self, a: &'x Allocator<C>) -> &'x [u8]
        requires { IsBuilderIn a.now.memory self.now }
        ensures { result.now ≡ builder_bytes a.now.memory self.now }
    {
        &a.read(self.block)[..self.len as usize]
    }

    /// Returns the text. The bytes aren't checked: that they are UTF-8 is a precondition (`utf8_rule`).
    #[inline]
    pub fn as_str<'x, C: ChunkSource>(&self, a: &'x Allocator<C>) -> &'x str
        requires held { IsBuilderIn a.now.memory self.now }
        requires utf8 { IsUtf8 (builder_bytes a.now.memory self.now) }
        ensures { result.now ≡ builder_bytes a.now.memory self.now }
    {
        unsafe { str::from_utf8_unchecked(self.as_bytes(a)) }
    }

    /// Replaces the byte at an index. If both bytes are ASCII, UTF-8 stays UTF-8 (`utf8_rule`).
    #[inline]
    pub fn set_byte<C: ChunkSource>(&mut self, a: &mut Allocator<C>, i: u64, byte: u8)
        requires held { IsBuilderIn a.old.memory self.old }
        requires index { i < self.old.len }
        ensures { let bytes = slice_set (builder_bytes a.old.memory self.old) i byte in
            Becomes a.old a.new self.old bytes self.new }
    {
        write_piece(a, self.block, i, &Byte(byte));
    }

    /// Returns the text, which is a front of the builder's block. Nothing is moved.
    pub fn into_str(self) -> Str
        ensures held { (memory : Memory) → IsBuilderIn memory self → IsTextIn memory result }
        ensures bytes { (memory : Memory) → IsBuilderIn memory self
            → text_bytes memory result ≡ builder_bytes memory self }
        ensures block { result.block ≡ record self.block { size = self.len } }
    {
        let block = self.block;
        Str {
            block: Block {
                generation: block.generation,
                addr: block.addr,
                size: self.len,
                align: block.align,
            },
        }
    }

    /// Returns whether the bytes are those of a text.
    pub fn eq_str<C: ChunkSource>(&self, a: &Allocator<C>, s: &str) -> bool
        requires { IsBuilderIn a.now.memory self.now }
        ensures { IsTrue result ↔ (builder_bytes a.now.memory self.now ≡ s.now) }
    {
        self.as_bytes(a) == s.as_bytes()
    }

    /// Returns whether the bytes are those of another builder.
    pub fn eq<C: ChunkSource>(&self, a: &Allocator<C>, other: &StringBuilder) -> bool
        requires held { IsBuilderIn a.now.memory self.now }
        requires other { IsBuilderIn a.now.memory other.now }
        ensures { IsTrue result
            ↔ (builder_bytes a.now.memory self.now ≡ builder_bytes a.now.memory other.now) }
    {
        self.as_bytes(a) == other.as_bytes(a)
    }
}

// Returns the total length of texts, or `None` if it doesn't fit in 64 bits.
#[tactic(auto, using(crate::proofs::TextLemmas::rows))]
fn whole_length<T: AsStr>(strings: &[T]) -> Option<u64>
    ensures none { IfNone result (2 ^ 64 ≤ length (flat_map T.text strings.now)) }
    ensures some { IfSome result (λ n. n ≡ length (flat_map T.text strings.now)) }
{
    let mut n = 0u64;
    for s in strings {
        n = n.checked_add(s.as_str().len() as u64)?;
    }
    Some(n)
}

// Writes texts, one after another, from the start of a block on.
#[tactic(auto, using(crate::proofs::TextLemmas::rows))]
fn write_all<T: AsStr, C: ChunkSource>(a: &mut Allocator<C>, block: Block, strings: &[T])
    requires readable { IsTrue (is_readable a.old.memory.state block) }
    requires room { length (flat_map T.text strings.now) ≤ block.size }
    ensures writes { WritesBlock a.old.memory a.new.memory block 0 (flat_map T.text strings.now) }
    ensures utf8 { IsUtf8 (flat_map T.text strings.now) }
    ensures source { a.new.source ≡ a.old.source }
{
    // For the proof: the arena's state is valid.
    a.known();
    let mut at = 0;
    for s in strings {
        let text = s.as_str();
        a.write(block, at, text.as_bytes());
        at += text.len() as u64;
    }
}
