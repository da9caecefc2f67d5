// What the traits of allocators share.
use crate::allocator::Allocator;
use arena_store::ChunkSource;

/// A type over an arena with a source of chunks. The contracts of the allocators' traits refer to the two.
pub trait OverArena {
    ghost use Rattle.arena_store.specs.Source.{View};

    // The arena's memory and the source.
    ghost view: { Self → View };
}

impl<C: ChunkSource> OverArena for Allocator<C> {
    ghost view = { λ a. a };
}
