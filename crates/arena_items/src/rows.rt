// Sequences of values in blocks, many of which are moved at once.
ghost use Rattle.std.specs.Prelude.{◌≡◌, ℕ, ◌+◌, ◌*◌, ◌≤◌, ◌++◌, IsTrue, take, drop};
ghost use Rattle.arena_chunks.specs.Memory.{is_readable, image, bytes_from};
ghost use Rattle.arena_chunks.specs.BlockCalls.{WritesBlock};
ghost use Rattle.arena_items.specs.Values.{bytes_of, elements};
ghost use Rattle.arena_items.specs.Rows.{over};

use crate::item::Item;
use arena_chunks::{Allocator, Block, ChunkSource};

/// Moves `n` values of a block to another index in it, in one move of memory. The ranges may overlap.
pub fn move_items<T: Item, C: ChunkSource>(
    a: &mut Allocator<C>,
    block: Block,
    from: u64,
    to: u64,
    n: u64,
)
    requires readable { IsTrue (is_readable a.old.memory.state block) }
    requires source_range { (from + n) * T.SIZE ≤ block.size }
    requires target_range { (to + n) * T.SIZE ≤ block.size }
    ensures writes { WritesBlock a.old.memory a.new.memory block (to * T.SIZE)
        (bytes_from (image a.old.memory) (block.addr + from * T.SIZE) (n * T.SIZE)) }
    ensures values { (m : ℕ) → from + n ≤ m → to + n ≤ m → m * T.SIZE ≤ block.size
        → elements T.SIZE T.decoded m (bytes_of a.new.memory block)
        ≡ over (elements T.SIZE T.decoded m (bytes_of a.old.memory block)) to
        (take n (drop from (elements T.SIZE T.decoded m (bytes_of a.old.memory block)))) }
    ensures source { a.new.source ≡ a.old.source }
{
    let size = T::SIZE;
    a.move_within(block, from * size, to * size, n * size);
}

/// Copies `n` values of a block, from an index on, to index `to` of another, in one move of memory.
pub fn copy_items<T: Item, C: ChunkSource>(
    a: &mut Allocator<C>,
    source: Block,
    from: u64,
    target: Block,
    to: u64,
    n: u64,
)
    requires source { IsTrue (is_readable a.old.memory.state source) }
    requires target { IsTrue (is_readable a.old.memory.state target) }
    requires source_range { (from + n) * T.SIZE ≤ source.size }
    requires target_range { (to + n) * T.SIZE ≤ target.size }
    ensures writes { WritesBlock a.old.memory a.new.memory target (to * T.SIZE)
        (bytes_from (image a.old.memory) (source.addr + from * T.SIZE) (n * T.SIZE)) }
    ensures push { elements T.SIZE T.decoded (to + n) (bytes_of a.new.memory target)
        ≡ elements T.SIZE T.decoded to (bytes_of a.old.memory target)
        ++ drop from (elements T.SIZE T.decoded (from + n) (bytes_of a.old.memory source)) }
    ensures source { a.new.source ≡ a.old.source }
{
    let size = T::SIZE;
    a.copy_between(source, from * size, target, to * size, n * size);
}
