// A block's bytes, changed in place.
ghost use Rattle.std.specs.Prelude.{◌≡◌, IsTrue, reverse};
ghost use Rattle.arena_chunks.specs.Memory.{is_readable};
ghost use Rattle.arena_chunks.specs.BlockCalls.{WritesBlock};
ghost use Rattle.example_blocks.specs.Blocks.{bytes_of, Holds};

use arena_chunks::laws::{bytes, written};
use arena_chunks::{Allocator, Block, ChunkSource, Edit};

/// The edit that reverses the bytes of a place.
#[derive(Drop)]
pub struct Reverse;

impl Edit for Reverse {
    ghost suits = { λ e old. Unit {0} };

    ghost relates = { λ e old new. new ≡ reverse old };

    fn edit(&self, place: &mut [u8]) {
        place.reverse();
    }
}

/// Reverses a block's bytes in place.
pub fn reverse_block<C: ChunkSource>(a: &mut Allocator<C>, block: Block)
    requires { IsTrue (is_readable a.old.memory.state block) }
    ensures writes { WritesBlock a.old.memory a.new.memory block 0 (reverse (bytes_of a.old.memory block)) }
    ensures holds { Holds a.new.memory block (reverse (bytes_of a.old.memory block)) }
{
    bytes();
    written();
    a.write_with(block, 0, block.size, &Reverse);
}
