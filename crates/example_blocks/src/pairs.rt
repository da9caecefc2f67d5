// Blocks with their bytes, next to each other.
ghost use Rattle.std.specs.Prelude.{◌≡◌, IfOk, IsTrue, [], ◌∷◌, length};
ghost use Rattle.arena_chunks.specs.Memory.{is_readable};
ghost use Rattle.arena_chunks.specs.Answers.{answer_of, answer_by};
ghost use Rattle.arena_chunks.specs.Frame.{AreBlocksApart, Frame, Stays};
ghost use Rattle.arena_chunks.specs.BlockCalls.{PlacesBlock};
ghost use Rattle.example_blocks.specs.Blocks.{bytes_of, Holds};
ghost use Rattle.example_blocks.specs.TwoCalls.{PlacesThen};

use arena_chunks::{Allocator, ArenaErr, Block, ChunkSource};
use arena_place::Layout;

/// Writes a whole block. Another that lies apart from it stays, with its bytes.
#[tactic(auto, using(arena_chunks::proofs::Layers::layer_laws))]
pub fn write_beside<C: ChunkSource>(a: &mut Allocator<C>, one: Block, other: Block, bytes: &[u8])
    requires one { IsTrue (is_readable a.old.memory.state one) }
    requires other { IsTrue (is_readable a.old.memory.state other) }
    requires apart { AreBlocksApart other one }
    requires length { length bytes.now ≡ one.size }
    ensures one { Holds a.new.memory one bytes.now }
    ensures other { Stays a.old.memory a.new.memory (one ∷ []) other }
{
    a.write(one, 0, bytes);
}

// Places a block with the given bytes.
#[tactic(auto, using(arena_chunks::proofs::Layers::layer_laws))]
fn place_bytes<C: ChunkSource>(
    a: &mut Allocator<C>,
    layout: Layout,
    bytes: &[u8],
) -> Result<Block, ArenaErr>
    requires { length bytes.now ≡ layout.size }
    ensures placed { PlacesBlock a.old a.new layout.size layout.align (answer_of result) }
    ensures holds { IfOk result (λ b. Holds a.new.memory b bytes.now) }
{
    let block = a.alloc_layout(layout)?;
    a.write(block, 0, bytes);
    Ok(block)
}

/// Places two blocks with the given bytes. The blocks are disjoint, and all that was in use is unchanged.
///
/// # Errors
///
/// Those of `alloc_layout`. If the second block fails, the first stays placed.
#[tactic(auto, using(arena_chunks::proofs::Layers::layer_laws))]
pub fn place_two<C: ChunkSource>(
    a: &mut Allocator<C>,
    layout: Layout,
    first: &[u8],
    second: &[u8],
) -> Result<(Block, Block), ArenaErr>
    requires first { length first.now ≡ layout.size }
    requires second { length second.now ≡ layout.size }
    ensures calls { PlacesThen a.old a.new layout.size layout.align
        (λ between one. PlacesBlock between a.new layout.size layout.align (answer_by (λ r. r.1) result)
        × IfOk result (λ r. r.0 ≡ one)) result }
    ensures first { IfOk result (λ r. Holds a.new.memory r.0 first.now) }
    ensures second { IfOk result (λ r. Holds a.new.memory r.1 second.now) }
    ensures apart { IfOk result (λ r. AreBlocksApart r.0 r.1) }
    ensures frame { IfOk result (λ r. Frame a.old.memory a.new.memory [] (r.1 ∷ r.0 ∷ [])) }
{
    let one = place_bytes(a, layout, first)?;
    let other = place_bytes(a, layout, second)?;
    Ok((one, other))
}
