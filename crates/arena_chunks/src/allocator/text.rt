// Strings and bytes in an arena.
ghost use Rattle.std.specs.Prelude.{◌≡◌, ◌-◌, ◌^◌, ◌<◌, ◌≤◌, [], Ok, IfOk, IfSome, IfNone, IsTrue, length};
ghost use Rattle.std.specs.List.{flat_map};
ghost use Rattle.std.specs.Str.{IsUtf8};
ghost use Rattle.arena_store.specs.Memory.{is_readable, image, bytes_from};
ghost use Rattle.arena_core.specs.Answers.{answer_of, answer_by};
ghost use Rattle.arena_core.specs.BlockCalls.{PlacesBlock, Refuses, WritesBlock};

use crate::allocator::Allocator;
use arena_place::Layout;
use arena_store::{ArenaErr, Block, ChunkSource};
use std::convert::AsStr;
use std::str;

/// A handle of a string in an arena: the block of its bytes.
#[derive(Clone, Copy, PartialEq, Eq, Debug)]
pub struct Str {
    pub block: Block,
}

impl Str {
    /// Returns the string, or `None` if the block's bytes aren't UTF-8.
    pub fn get<C: ChunkSource>(self, a: &Allocator<C>) -> Option<&str>
        requires { IsTrue (is_readable a.now.memory.state self.block) }
        ensures some { let bytes = bytes_from (image a.now.memory) self.block.addr self.block.size in
            IfSome result (λ s. (s.now ≡ bytes) × IsUtf8 s.now) }
        ensures none { let bytes = bytes_from (image a.now.memory) self.block.addr self.block.size in
            IfNone result (¬ (IsUtf8 bytes)) }
    {
        str::from_utf8(a.read(self.block)).ok()
    }
}

impl<C: ChunkSource> Allocator<C> {
    /// Places a copy of a string in a block of its length, of alignment 1.
    ///
    /// # Errors
    ///
    /// Those of `alloc_layout`.
    pub fn alloc_str(&mut self, src: &str) -> Result<Str, ArenaErr>
        ensures placed { PlacesBlock self.old self.new (length src.now) 1 (answer_by (λ s. s.block) result) }
        ensures text { IfOk result (λ s. bytes_from (image self.new.memory) s.block.addr
            (length src.now) ≡ src.now) }
    {
        let block = self.alloc_bytes(src.as_bytes())?;
        Ok(Str { block })
    }

    /// Places a copy of bytes in a block of their length, of alignment 1.
    ///
    /// # Errors
    ///
    /// Those of `alloc_layout`.
    #[tactic(auto, using(arena_core::proofs::BlockCallLemmas::places_written))]
    pub fn alloc_bytes(&mut self, bytes: &[u8]) -> Result<Block, ArenaErr>
        ensures placed { PlacesBlock self.old self.new (length bytes.now) 1 (answer_of result) }
        ensures bytes { IfOk result (λ b. bytes_from (image self.new.memory) b.addr (length bytes.now) ≡ bytes.now) }
    {
        let block = self.alloc_unaligned(bytes.len() as u64)?;
        self.write(block, 0, bytes);
        Ok(block)
    }

    /// Places the concatenation of strings in one block of the total length, of alignment 1. If the length is 0,
    /// nothing is placed, and the empty block is returned.
    ///
    /// # Errors
    ///
    /// `AllocErr` without a request if the total length exceeds 2^63 - 1, and otherwise those of `alloc_layout`.
    #[tactic(auto, using(arena_core::proofs::BlockCallLemmas::places_written, crate::proofs::TextLemmas::empty_text))]
    pub fn alloc_concat_strs_array<T: AsStr + Drop, const N: usize>(
        &mut self,
        strings: [T; N],
    ) -> Result<Str, ArenaErr>
        ensures empty { flat_map T.text strings ≡ []
            → (result ≡ Ok (record { block = record { generation = 0; addr = 1; size = 0; align = 1 } }))
            × (self.new ≡ self.old) }
        ensures refused { 2 ^ 63 - 1 < length (flat_map T.text strings)
            → Refuses self.old self.new (answer_by (λ s. s.block) result) }
        ensures placed { let text = flat_map T.text strings in 0 < length text → length text ≤ 2 ^ 63 - 1
            → PlacesBlock self.old self.new (length text) 1 (answer_by (λ s. s.block) result) }
        ensures text { let text = flat_map T.text strings in IfOk result (λ s.
            bytes_from (image self.new.memory) s.block.addr (length text) ≡ text) }
    {
        let Some(size) = whole_length(&strings) else {
            return Err(ArenaErr::AllocErr { refused: 0 });
        };
        if size == 0 {
            let block = Block::empty(1);
            return Ok(Str { block });
        }
        let block = self.alloc_unaligned(size)?;
        self.write_strings(block, &strings);
        Ok(Str { block })
    }

    // Places a block of this size, of alignment 1.
    #[tactic(auto, using(crate::proofs::TextLemmas::few_bytes, crate::proofs::TextLemmas::many_bytes))]
    fn alloc_unaligned(&mut self, size: u64) -> Result<Block, ArenaErr>
        ensures refused { 2 ^ 63 - 1 < size → Refuses self.old self.new (answer_of result) }
        ensures placed { size ≤ 2 ^ 63 - 1 → PlacesBlock self.old self.new size 1 (answer_of result) }
    {
        match Layout::new(size, 1) {
            Some(layout) => self.alloc_layout(layout),
            None => Err(ArenaErr::AllocErr { refused: 0 }),
        }
    }

    // Writes strings, one after another, from a block's first byte on.
    fn write_strings<T: AsStr>(&mut self, block: Block, strings: &[T])
        requires readable { IsTrue (is_readable self.old.memory.state block) }
        requires room { length (flat_map T.text strings.now) ≤ block.size }
        ensures writes { WritesBlock self.old.memory self.new.memory block 0 (flat_map T.text strings.now) }
        ensures source { self.new.source ≡ self.old.source }
    {
        // For the proof: the arena's state is valid.
        self.known();
        let mut at = 0;
        for s in strings {
            let text = s.as_str();
            self.write(block, at, text.as_bytes());
            at += text.len() as u64;
        }
    }
}

// Returns the total length of strings, if it fits in 64 bits.
fn whole_length<T: AsStr>(strings: &[T]) -> Option<u64>
    ensures none { IfNone result (2 ^ 64 ≤ length (flat_map T.text strings.now)) }
    ensures some { IfSome result (λ size. size ≡ length (flat_map T.text strings.now)) }
{
    let mut size: u64 = 0;
    for s in strings {
        size = size.checked_add(s.as_str().len() as u64)?;
    }
    Some(size)
}
