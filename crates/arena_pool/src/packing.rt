// How a pool packs its arenas: bare, or each in a box of its own.
ghost use Rattle.std.specs.Prelude.{◌≡◌, IfOk};

use crate::maker::ChunkMaker;
use arena_chunks::{Allocator, OutOfMemory};
use std::alloc::Global;
use std::marker::Model;

// A way to pack a value.
pub(crate) trait Packing<A> {
    // A packed value.
    type Packed: Drop + Send;

    // The value that is packed.
    ghost unpacked: { Self.Packed → A };

    // Packs the value; may run out of memory.
    fn pack(alloc: Global, value: A) -> Result<Self::Packed, OutOfMemory>
        ensures { IfOk result (λ p. unpacked p ≡ value) };
}

// Values as they are.
pub(crate) struct Bare;

impl<A: Drop + Send> Packing<A> for Bare {
    type Packed = A;

    ghost unpacked = { λ a. a };

    fn pack(_: Global, value: A) -> Result<A, OutOfMemory>
        ensures { IfOk result (λ p. p ≡ value) }
    {
        Ok(value)
    }
}

// Each value in a box.
pub(crate) struct InBoxes;

impl<A: Drop + Send> Packing<A> for InBoxes {
    type Packed = Box<A, Global>;

    ghost unpacked = { λ b. b.value };

    fn pack(alloc: Global, value: A) -> Result<Box<A, Global>, OutOfMemory>
        ensures { IfOk result (λ p. p.value ≡ value) }
    {
        Ok(Box::new(alloc, value)?)
    }
}

// A packed arena, with its id if its pool is fixed. Contracts see the arena with its id.
#[derive(Drop)]
pub(crate) struct Stored<K: ChunkMaker, P: Packing<Allocator<K::Chunks>>> {
    pub(crate) arena: P::Packed,
    pub(crate) id: Option<u32>,
}

impl<K: ChunkMaker, P: Packing<Allocator<K::Chunks>>> Model for Stored<K, P> {
    ghost use Rattle.arena_pool.specs.Pool.{Pooled};

    ghost Value = { Pooled };

    ghost view = { λ p. (P.unpacked p.arena, p.id) };
}
