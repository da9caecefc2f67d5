// A buffer of bytes that grows.
ghost use Rattle.std.specs.Prelude.{◌≡◌, ◌≤◌, ◌<◌, ◌++◌, [], ◌∷◌, Ok, Err, IfOk, IfErr, IsOk, IsTrue, false};
ghost use Rattle.arena_rules.specs.Rounding.{is_layout};
ghost use Rattle.arena_chunks.specs.Memory.{is_readable};
ghost use Rattle.arena_chunks.specs.Answers.Answer.{Placed};
ghost use Rattle.arena_chunks.specs.Frame.{Frame};
ghost use Rattle.arena_chunks.specs.BlockCalls.{PlacesBlock, GrowsBlock, WritesBlock};
ghost use Rattle.example_blocks.specs.declared.buffer.BufferErr.TheVariants.{CapacityOverflow, NoPlace};
ghost use Rattle.example_blocks.specs.Buffers.{IsBuffer, Has, HasRoom, contents, buffer_answer, doubled};

use arena_chunks::{Alloc, Allocator, ArenaErr, Block, ChunkSource};
use arena_place::Layout;

/// Why a buffer has no room for more.
#[derive(Clone, Copy, Debug)]
pub enum BufferErr {
    /// The requested size isn't a valid layout. The arena wasn't called.
    CapacityOverflow,
    /// The arena returned this error.
    NoPlace(ArenaErr),
}

/// Bytes in a block that has room for more.
#[derive(Clone, Copy)]
pub struct Buffer {
    pub block: Block,
    pub length: u64,
}

#[tactic(auto, using(arena_chunks::proofs::Layers::layer_laws, crate::proofs::BufferLemmas::buffer_laws))]
impl Buffer {
    /// Returns an empty buffer with room for `capacity` bytes.
    ///
    /// # Errors
    ///
    /// `CapacityOverflow` if `capacity` bytes aren't a valid layout, and nothing changes; otherwise those of
    /// `alloc_layout`.
    pub fn with_capacity<C: ChunkSource>(
        a: &mut Allocator<C>,
        capacity: u64,
    ) -> Result<Buffer, BufferErr>
        ensures overflow { is_layout capacity 1 ≡ false → (result ≡ Err CapacityOverflow) × (a.new ≡ a.old) }
        ensures placed { IsTrue (is_layout capacity 1)
            → PlacesBlock a.old a.new capacity 1 (buffer_answer (λ b. b.block) result) }
        ensures empty { IfOk result (λ b. Has a.new.memory b []) }
    {
        let Some(layout) = Layout::new(capacity, 1) else {
            return Err(BufferErr::CapacityOverflow);
        };
        match a.alloc_layout(layout) {
            Ok(block) => Ok(Buffer { block, length: 0 }),
            Err(e) => Err(BufferErr::NoPlace(e)),
        }
    }

    /// Returns the buffer's bytes.
    pub fn bytes<C: ChunkSource>(self, a: &Allocator<C>) -> &[u8]
        requires { IsBuffer a.now.memory self }
        ensures { result.now ≡ contents a.now.memory self }
    {
        &a.read(self.block)[..self.length as usize]
    }

    /// Appends a byte. If the block is full, it grows to twice its size, and to at least 8 bytes.
    ///
    /// # Errors
    ///
    /// Only if the block is full: `CapacityOverflow` if the new size isn't a valid layout, otherwise those of `grow`.
    /// The buffer and the arena's memory are unchanged.
    pub fn push<C: ChunkSource>(&mut self, a: &mut Allocator<C>, byte: u8) -> Result<(), BufferErr>
        requires { IsBuffer a.old.memory self.old }
        ensures room { self.old.length < self.old.block.size → IsOk result × (self.new.block ≡ self.old.block)
            × WritesBlock a.old.memory a.new.memory self.old.block self.old.length (byte ∷ [])
            × (a.new.source ≡ a.old.source) }
        ensures overflow { let size = self.old.block.size in size ≤ self.old.length
            → is_layout (doubled size) 1 ≡ false → (result ≡ Err CapacityOverflow) × (a.new ≡ a.old) }
        ensures grown { let size = self.old.block.size in size ≤ self.old.length
            → IsTrue (is_layout (doubled size) 1)
            → GrowsBlock a.old a.new self.old.block (doubled size) 1 (buffer_answer (λ _. self.new.block) result) }
        ensures ok { IfOk result (λ _.
            Has a.new.memory self.new (contents a.old.memory self.old ++ byte ∷ [])) }
        ensures frame { IfOk result (λ _.
            Frame a.old.memory a.new.memory (self.old.block ∷ []) (self.new.block ∷ [])) }
        ensures err { IfErr result (λ e. (self.new ≡ self.old) × (a.new.memory ≡ a.old.memory)) }
    {
        let length = self.length;
        let block = self.make_room(a)?;
        a.write(block, length, &[byte]);
        *self = Buffer {
            block,
            length: length + 1,
        };
        Ok(())
    }

    // Returns a block with room for one more byte: the buffer's own, or if that is full, the grown one.
    fn make_room<C: ChunkSource>(self, a: &mut Allocator<C>) -> Result<Block, BufferErr>
        requires { IsBuffer a.old.memory self }
        ensures own { self.length < self.block.size → (result ≡ Ok self.block) × (a.new ≡ a.old) }
        ensures overflow { self.block.size ≤ self.length → is_layout (doubled self.block.size) 1 ≡ false
            → (result ≡ Err CapacityOverflow) × (a.new ≡ a.old) }
        ensures grown { self.block.size ≤ self.length → IsTrue (is_layout (doubled self.block.size) 1)
            → GrowsBlock a.old a.new self.block (doubled self.block.size) 1 (buffer_answer (λ b. b) result) }
        ensures ok { IfOk result (HasRoom a.old.memory a.new.memory self) }
        ensures err { IfErr result (λ e. a.new.memory ≡ a.old.memory) }
    {
        if self.length < self.block.size {
            return Ok(self.block);
        }
        let grown = double(a, self.block)?;
        Ok(grown)
    }
}

// Grows a block to twice its size, and to at least 8 bytes.
fn double<C: ChunkSource>(a: &mut Allocator<C>, block: Block) -> Result<Block, BufferErr>
    requires { IsTrue (is_readable a.old.memory.state block) }
    ensures overflow { is_layout (doubled block.size) 1 ≡ false
        → (result ≡ Err CapacityOverflow) × (a.new ≡ a.old) }
    ensures grown { IsTrue (is_layout (doubled block.size) 1)
        → GrowsBlock a.old a.new block (doubled block.size) 1 (buffer_answer (λ b. b) result) }
    ensures ok { IfOk result (λ b. GrowsBlock a.old a.new block (doubled block.size) 1 (Placed b)) }
    ensures err { IfErr result (λ e. a.new.memory ≡ a.old.memory) }
{
    let Some(layout) = Layout::array(2, block.size.max(4), 1) else {
        return Err(BufferErr::CapacityOverflow);
    };
    match a.grow(block, layout) {
        Ok(b) => Ok(b),
        Err(e) => Err(BufferErr::NoPlace(e)),
    }
}
