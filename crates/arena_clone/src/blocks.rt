// New blocks, and new blocks with the bytes of others.
ghost use Rattle.std.specs.Prelude.{◌≡◌, ◌≤◌, IfOk, IsTrue};
ghost use Rattle.arena_rules.specs.Rounding.{is_layout};
ghost use Rattle.arena_chunks.specs.Memory.{is_readable, image, bytes_from};
ghost use Rattle.arena_chunks.specs.BlockCalls.{PlacesBlock};
ghost use Rattle.arena_items.specs.Room.{RoomAnswer};
ghost use Rattle.arena_items.specs.Values.{bytes_of};

use crate::origin::Origin;
use arena_chunks::{Allocator, Block, ChunkSource};
use arena_items::{Grown, grown};
use arena_place::Layout;

// Places a new block.
#[inline]
pub(crate) fn place<C: ChunkSource>(a: &mut Allocator<C>, size: u64, align: u64) -> Grown<Block>
    requires { IsTrue (is_layout size align) }
    ensures { RoomAnswer (λ b. b) result (PlacesBlock a.old a.new size align) }
{
    grown(a.alloc_layout(Layout::of(size, align)))
}

// Places a new block with the first bytes of another block.
pub(crate) fn place_copy<O: Origin<D>, D: ChunkSource>(
    from: &O,
    source: Block,
    to: &mut Allocator<D>,
    size: u64,
    align: u64,
) -> Grown<Block>
    requires readable { IsTrue (is_readable (O.there from.now to.old.memory).state source) }
    requires enough { size ≤ source.size }
    requires fits { IsTrue (is_layout size align) }
    ensures placed { RoomAnswer (λ b. b) result (PlacesBlock to.old to.new size align) }
    ensures bytes { IfOk result (λ b. bytes_of to.new.memory b
        ≡ bytes_from (image (O.there from.now to.old.memory)) source.addr size) }
{
    let block = place(to, size, align)?;
    from.copy_front(source, to, block, size);
    Ok(block)
}
