// A lent arena with its pool.
ghost use Rattle.std.specs.Prelude.{◌≡◌, is_some, refl};
ghost use Rattle.std.specs.Option.{option_map};
ghost use Rattle.arena_pool.specs.Kinds.{is_fixed, IsOfKind, IsUnused};

use crate::kind::empty;
use crate::lending::Loan;
use crate::maker::ChunkMaker;
use crate::name::PoolName;
use crate::pool::AllocatorPool;
use arena_chunks::Allocator;
use arena_items::GetAllocator;
use std::alloc::Global;
use std::marker::Model;
use std::sync::Wait;

/// The id of an arena of a fixed pool.
#[derive(Clone, Copy, PartialEq, Eq, Debug)]
pub struct FixedSizeAllocatorMetadata {
    /// Its number among the pool's arenas, from 0.
    pub id: u32,
}

/// A lent arena. Contracts see it as the arena with its id. It is consumed by `put_back` or by `give_up`, and can't be
/// dropped. So it can't be moved into a closure either, which may be dropped: a thread borrows its arena itself.
pub struct AllocatorGuard<'a, K: ChunkMaker, L: PoolName> {
    pool: &'a AllocatorPool<K, L>,
    arena: Box<Allocator<K::Chunks>, Global>,
    loan: Loan<L>,
}

impl<'a, K: ChunkMaker, L: PoolName> Model for AllocatorGuard<'a, K, L> {
    ghost use Rattle.arena_pool.specs.Pool.{Pooled};

    ghost Value = { Pooled };

    ghost view = { λ g. (g.arena.value, g.loan.id) };
}

impl<'a, K: ChunkMaker, L: PoolName> AllocatorGuard<'a, K, L> {
    ghost use Rattle.std.specs.Borrow.{sem};
    ghost use Rattle.arena_pool.specs.Lending.{lends_arena};

    pub(crate) fn new(
        pool: &'a AllocatorPool<K, L>,
        arena: Box<Allocator<K::Chunks>, Global>,
        loan: Loan<L>,
    ) -> AllocatorGuard<'a, K, L>
        ensures { result ≡ (arena.value, loan.id) }
    {
        AllocatorGuard { pool, arena, loan }
    }

    /// Returns the lent arena.
    pub fn parts_mut(&mut self) -> &mut Allocator<K::Chunks>
        ensures* writes_back { sem 𝓛 (lends_arena K.row L.row K.Chunks.row K.Chunks.ChunkSource
            (record { kind = L.kind; limit = L.limit }) (record { name = L.name; parts = L.parts }) self.entry result) }
        ensures shows { result.now ≡ self.old.0 }
    {
        &mut self.arena
    }

    /// Returns the arena's id, which the arenas of a fixed pool have, and no others.
    pub fn fixed_size_metadata(&self) -> Option<FixedSizeAllocatorMetadata>
        ensures id { result ≡ option_map (λ id. record { id = id }) self.now.1 }
        ensures fixed { is_some result ≡ is_fixed L.kind }
    {
        self.loan.id().map(|id| FixedSizeAllocatorMetadata { id })
    }

    /// Gives the arena back: it is reset and stored, and one waiting thread is woken. If it has more bytes than the
    /// pool's limit after the reset, it is dropped instead. Takes no memory.
    pub fn put_back<R: Wait>(self, rt: &R)
        requires { IsOfKind L.kind self.0.memory.state }
    {
        let AllocatorGuard {
            pool,
            mut arena,
            loan,
        } = self;
        let allocated = empty(&mut arena);
        pool.shared.add(rt, arena, allocated, loan);
    }

    /// Keeps the arena, as it is. It won't come back to the pool: a fixed pool whose arenas were all given up lends
    /// none any more, and `get` waits forever.
    pub fn give_up<R: Wait>(self, rt: &R) -> Allocator<K::Chunks>
        ensures { result ≡ self.entry.0 }
    {
        let AllocatorGuard { pool, arena, loan } = self;
        pool.shared.forget(rt, loan);
        Box::into_inner(arena)
    }
}

impl<'a, K: ChunkMaker, L: PoolName> GetAllocator for AllocatorGuard<'a, K, L> {
    type Chunks = K::Chunks;

    ghost lent = { λ g. g.0 };

    ghost with_lent = { λ g a. (a, g.1) };

    ghost lent_back = { λ g a. refl };

    ghost rest_stays = { λ g. refl };

    ghost last_counts = { λ g a c. refl };

    fn allocator(&mut self) -> &mut Allocator<K::Chunks> {
        &mut self.arena
    }
}
