// The sources of copies: in another arena, or in that of the copies.
ghost use Rattle.std.specs.Prelude.{◌≡◌, ◌≤◌, List, IsTrue};
ghost use Rattle.arena_chunks.specs.Memory.{Memory, is_readable, image, bytes_from};
ghost use Rattle.arena_chunks.specs.BlockCalls.{WritesBlock};
ghost use Rattle.arena_chunks.specs.Frame.{IsApart};
ghost use Rattle.arena_store.specs.declared.block.Block.{Block as Place};
ghost use Rattle.arena_clone.specs.Origins.{IsOrigin, elsewhere, in_place};

use arena_chunks::{Allocator, Block, ChunkSource};

/// Where values that are copied into an arena are: in another arena, or in the same one.
pub trait Origin<D: ChunkSource> {
    /// The source of chunks of the values' arena.
    type Chunks: ChunkSource;

    // The memory of the values, as a function of that of the copies' arena.
    ghost there: { Self → Memory → Memory };

    // Whether a block of the values is unaffected by calls on some blocks of the copies' arena.
    ghost is_beside: { Place → List Place → Type 0 };

    /// Returns the arena of the values.
    fn arena<'x>(&'x self, to: &'x Allocator<D>) -> &'x Allocator<Self::Chunks>
        ensures { result.now.memory ≡ there self.now to.now.memory };

    /// Copies the first `size` bytes of a block of the values' arena to the front of a block of the copies' arena.
    fn copy_front(&self, source: Block, to: &mut Allocator<D>, target: Block, size: u64)
        requires source { IsTrue (is_readable (there self.now to.old.memory).state source) }
        requires target { IsTrue (is_readable to.old.memory.state target) }
        requires source_range { size ≤ source.size }
        requires target_range { size ≤ target.size }
        ensures writes { WritesBlock to.old.memory to.new.memory target 0
            (bytes_from (image (there self.now to.old.memory)) source.addr size) }
        ensures source { to.new.source ≡ to.old.source };

    ghost is_origin: { (s : Self) → IsOrigin (there s) is_beside };
}

impl<C: ChunkSource, D: ChunkSource> Origin<D> for Allocator<C> {
    type Chunks = C;

    ghost there = { λ a m. a.memory };

    ghost is_beside = { λ b others. Unit {0} };

    ghost is_origin = { λ a. elsewhere a.memory };

    fn arena<'x>(&'x self, _to: &'x Allocator<D>) -> &'x Allocator<C> {
        self
    }

    fn copy_front(&self, source: Block, to: &mut Allocator<D>, target: Block, size: u64) {
        to.write(target, 0, &self.read(source)[..size as usize]);
    }
}

/// The origin of copies within one arena.
pub struct Here;

impl<D: ChunkSource> Origin<D> for Here {
    type Chunks = D;

    ghost there = { λ s m. m };

    ghost is_beside = { λ b others. IsApart b.addr b.size others };

    ghost is_origin = { λ s. in_place };

    fn arena<'x>(&'x self, to: &'x Allocator<D>) -> &'x Allocator<D> {
        to
    }

    fn copy_front(&self, source: Block, to: &mut Allocator<D>, target: Block, size: u64) {
        to.copy_between(source, 0, target, 0, size);
    }
}
