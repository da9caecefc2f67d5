// Public items of books and pools.
use crate::kinds::is_error;
use arena_chunks::{Allocator, ChunkSource, MemoryChunks, OutOfMemory};
use arena_items::GetAllocator;
use arena_pool::{
    AllocatorGuard, AllocatorPool, Book, ChunkMaker, Counts, FixedSizeAllocatorMetadata,
    FixedSizeAllocatorPool, Loan, MOST_LENT, MemoryMaker, PoolErr, PoolKind, PoolName,
    StandardAllocatorPool,
};
use std::alloc::Global;
use std::sync::Wait;
use std::sync::ledger::{Blank, Ledger};

// A maker that implements only the required method.
struct Maker {
    alloc: Global,
}

impl ChunkMaker for Maker {
    type Chunks = MemoryChunks;

    fn make(&mut self) -> MemoryChunks {
        MemoryChunks::new(self.alloc, 0)
    }
}

fn makers() {
    let _: fn(Global, u64) -> MemoryMaker = MemoryMaker::new;
    let _: fn(&mut MemoryMaker) -> MemoryChunks = <MemoryMaker as ChunkMaker>::make;
}

fn refused(e: PoolErr) -> u32 {
    is_error::<PoolErr>();
    match e {
        PoolErr::PoolEmpty => 1,
        PoolErr::OutOfMemory => 2,
        PoolErr::Limit => 3,
    }
}

const _: () = prove!(MOST_LENT == 4_294_967_295);

fn kind(kind: PoolKind) -> bool {
    kind.is_fixed()
}

fn counted(counts: Counts) -> (u64, u64, u64, u64) {
    (counts.made, counts.stored, counts.lent, counts.given_up)
}

fn books<K: ChunkMaker + Drop>(alloc: Global, maker: K) {
    return;
    let _: Result<Book<K>, OutOfMemory> = Book::new(alloc, 1u32, maker);
    let _: Result<Book<K>, OutOfMemory> = Book::new_with_limit(alloc, 1u32, 2u64, maker);
    let _: Result<Book<K>, OutOfMemory> = Book::new_fixed(alloc, 1u32, 48u64, maker);
}

fn events<K: ChunkMaker>(book: &mut Book<K>, a: Allocator<K::Chunks>, id: Option<u32>) {
    return;
    let _: Result<(Allocator<K::Chunks>, Option<u32>), PoolErr> = book.take();
    let _: () = book.store(a, id);
    let _: () = book.forget();
    let _: Option<u64> = book.limit();
    let _: Counts = book.counts();
}

fn is_ledger<L: Ledger>() {}

fn named<L: PoolName>() {
    is_ledger::<L>();
}

fn pools<K: ChunkMaker + Drop, L: PoolName>(alloc: Global, maker: K, blank: Blank) {
    return;
    let _: Result<AllocatorPool<K, L>, OutOfMemory> = AllocatorPool::new(alloc, 1u32, maker, blank);
    let _: Result<AllocatorPool<K, L>, OutOfMemory> = AllocatorPool::new_with_limit(
        alloc, 1u32, 2u64, maker, blank,
    );
    let _: Result<AllocatorPool<K, L>, OutOfMemory> = AllocatorPool::new_fixed_size(
        alloc, 1u32, 48u64, maker, blank,
    );
    let _: Result<AllocatorPool<K, L>, OutOfMemory> = AllocatorPool::of_kind(
        alloc,
        PoolKind::Standard,
        Some(2u64),
        1u32,
        maker,
        blank,
    );
    let _: Result<StandardAllocatorPool<K, L>, OutOfMemory> = StandardAllocatorPool::new(
        alloc, 1u32, maker, blank,
    );
    let _: Result<FixedSizeAllocatorPool<K, L>, OutOfMemory> = FixedSizeAllocatorPool::new(
        alloc, 1u32, 48u64, maker, blank,
    );
}

fn borrows<'a, K: ChunkMaker, L: PoolName, R: Wait>(pool: &'a AllocatorPool<K, L>, rt: &R) {
    return;
    let _: Result<AllocatorGuard<'a, K, L>, OutOfMemory> = pool.get(rt);
    let _: Result<AllocatorGuard<'a, K, L>, OutOfMemory> = pool.get_wait(rt);
    let _: Counts = pool.counts(rt);
}

fn looks<'x, 'a, K: ChunkMaker, L: PoolName>(guard: &'x mut AllocatorGuard<'a, K, L>) {
    return;
    let _: Option<FixedSizeAllocatorMetadata> = guard.fixed_size_metadata();
    let _: &'x mut Allocator<K::Chunks> = guard.parts_mut();
    let _: &'x mut Allocator<K::Chunks> = guard.allocator();
}

fn metadata(id: u32) -> FixedSizeAllocatorMetadata {
    FixedSizeAllocatorMetadata { id }
}

fn given_back<K: ChunkMaker, L: PoolName, R: Wait>(
    guard: AllocatorGuard<'_, K, L>,
    rt: &R,
) -> Allocator<K::Chunks> {
    return guard.give_up(rt);
    let _: () = guard.put_back(rt);
}

fn standard<K: ChunkMaker, L: PoolName, R: Wait>(pool: &StandardAllocatorPool<K, L>, rt: &R) {
    return;
    let lent: Result<(Allocator<K::Chunks>, Loan<L>), OutOfMemory> = pool.get(rt);
    let (a, loan) = lent.unwrap();
    let _: () = pool.forget(rt, loan);
    let _: () = pool.add(rt, a, loan);
}

fn fixed<K: ChunkMaker, L: PoolName, R: Wait>(pool: &FixedSizeAllocatorPool<K, L>, rt: &R) {
    return;
    let lent: Result<(Allocator<K::Chunks>, Loan<L>), OutOfMemory> = pool.get(rt);
    let (a, loan) = lent.unwrap();
    let _: () = pool.forget(rt, loan);
    let _: () = pool.add(rt, a, loan);
}
