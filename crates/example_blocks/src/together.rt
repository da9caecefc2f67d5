// Several disjoint blocks together.
ghost use Rattle.std.specs.Prelude.{◌≡◌, ◌+◌, ◌≤◌, IsTrue, [], ◌∷◌, length};
ghost use Rattle.std.specs.List.{AllByRecursion};
ghost use Rattle.arena_rules.specs.State.{used_bytes};
ghost use Rattle.arena_chunks.specs.Memory.{is_readable};
ghost use Rattle.arena_chunks.specs.Frame.{AreAllApart, AreBlocksApart, Stays};
ghost use Rattle.example_blocks.specs.Blocks.{AreReadable, Holds};

use arena_chunks::laws::{all_apart, frames, readable, written};
use arena_chunks::{Allocator, Block, ChunkSource};

/// Returns the number of bytes of two disjoint blocks. It is at most the number of bytes in use, so it fits in 64 bits.
pub fn size_of_both<C: ChunkSource>(a: &Allocator<C>, one: Block, other: Block) -> u64
    requires one { IsTrue (is_readable a.now.memory.state one) }
    requires other { IsTrue (is_readable a.now.memory.state other) }
    requires apart { AreBlocksApart one other }
    ensures sum { result ≡ one.size + other.size }
    ensures within { result ≤ used_bytes a.now.memory.state }
{
    readable();
    // For the proof: the number of bytes in use fits in 64 bits.
    let _ = a.used_bytes();
    one.size + other.size
}

/// Writes the same bytes to two disjoint blocks, whole. Other blocks that are disjoint from both stay, with their
/// bytes.
pub fn write_two<C: ChunkSource>(
    a: &mut Allocator<C>,
    one: Block,
    other: Block,
    bytes: &[u8],
    others: &[Block],
)
    requires one { IsTrue (is_readable a.old.memory.state one) }
    requires other { IsTrue (is_readable a.old.memory.state other) }
    requires one_length { length bytes.now ≡ one.size }
    requires other_length { length bytes.now ≡ other.size }
    requires apart { AreBlocksApart other one }
    requires others { AreReadable a.old.memory others.now }
    requires beside_one { AreAllApart others.now (one ∷ []) }
    requires beside_other { AreAllApart others.now (other ∷ []) }
    ensures one { Holds a.new.memory one bytes.now }
    ensures other { Holds a.new.memory other bytes.now }
    ensures others { AllByRecursion (Stays a.old.memory a.new.memory (one ∷ other ∷ [])) others.now }
{
    all_apart();
    frames();
    written();
    let _ = others;
    a.write(other, 0, bytes);
    a.write(one, 0, bytes);
}
