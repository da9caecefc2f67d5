// Public items of the arena, of the table of its bases, and of the search for a chunk.
use crate::kinds::{is_copy, is_fused, is_walk};
use arena_bases::{Bases, BasesErr, Steps};
use arena_chunks::{
    Allocator, Arena, ArenaErr, Block, Checkpoint, Chunk, ChunkIter, ChunkRawIter, ChunkSource,
    Chunks, Edit, RawErr,
};
use arena_place::Layout;
use arena_region::Region;
use arena_rules::Place;
use std::alloc::Global;
use std::sync::ledger::Ledger;

fn made<C: ChunkSource>(alloc: Global, chunks: &mut C, region: Vec<u8>, zeros: Region) {
    return;
    let _: Arena<1> = Arena::new(alloc);
    let _: Result<Arena<1>, ArenaErr> = Arena::with_capacity(alloc, chunks, 8u64);
    let _: Result<Arena<1>, ArenaErr> = Arena::try_with_capacity(alloc, chunks, 8u64);
    let _: Arena<16> = Arena::with_min_align(alloc);
    let _: Result<Arena<16>, ArenaErr> = Arena::with_min_align_and_capacity(alloc, chunks, 8u64);
    let _: Result<Arena<16>, ArenaErr> = Arena::try_with_min_align_and_capacity(
        alloc, chunks, 8u64,
    );
    let _: Result<Arena<16>, RawErr> = Arena::from_raw_parts(alloc, region);
    let _: Arena<16> = Arena::from_region(alloc, zeros);
    let _: RawErr = RawErr::OutOfMemory { region };
}

fn changed<C: ChunkSource, const M: usize>(
    arena: &mut Arena<M>,
    chunks: &mut C,
    layout: Layout,
    block: Block,
    bytes: &[u8],
    mark: Checkpoint,
) {
    return;
    let _: Result<Block, ArenaErr> = arena.try_alloc_layout(chunks, layout);
    let _: Result<Block, ArenaErr> = arena.alloc_layout(chunks, layout);
    let _: () = arena.dealloc(block);
    let _: Result<Block, ArenaErr> = arena.shrink(chunks, block, layout);
    let _: Result<Block, ArenaErr> = arena.grow(chunks, block, layout);
    let _: Result<Block, ArenaErr> = arena.grow_zeroed(chunks, block, layout);
    let _: Result<Block, ArenaErr> = arena.realloc(chunks, block, 8u64);
    let _: () = arena.reset();
    let _: &[u8] = arena.read(block);
    let _: () = arena.write(block, 8u64, bytes);
    let _: &mut [u8] = arena.read_mut(block);
    let _: () = arena.move_within(block, 8u64, 9u64, 1u64);
    let _: () = arena.copy_between(block, 8u64, block, 9u64, 1u64);
    let _: bool = arena.is_held_place(block);
    let _: () = arena.set_cursor(16u64);
    let raw: ChunkRawIter<'_, M> = arena.iter_allocated_chunks_raw();
    is_walk::<(u64, u64), ChunkRawIter<'_, M>>(&raw);
    is_fused(&raw);
    let used: ChunkIter<'_, M> = arena.iter_allocated_chunks();
    is_walk::<&[u8], ChunkIter<'_, M>>(&used);
    is_fused(&used);
    let _: Checkpoint = arena.checkpoint();
    let _: bool = arena.accepts(mark);
    let _: () = arena.rewind(mark);
    is_copy::<Checkpoint>();
}

fn counted<C: ChunkSource, E: Edit, const M: usize>(
    arena: &mut Arena<M>,
    chunks: &mut C,
    layout: Layout,
    block: Block,
    e: &E,
) {
    return;
    let _: Result<(Block, u32), ArenaErr> = arena.alloc_counted(chunks, layout);
    let _: Result<(Block, u32), ArenaErr> = arena.shrink_counted(chunks, block, layout);
    let _: Result<(Block, u32), ArenaErr> = arena.grow_counted(chunks, block, layout);
    let _: () = arena.write_with(block, 8u64, 1u64, e);
}

fn looks<L: Ledger, C: ChunkSource, const M: usize>(
    bases: &Bases,
    arena: &Arena<M>,
    a: &Allocator<C>,
    steps: &mut Steps<L>,
    place: Place,
) {
    return;
    let _: u64 = arena.cursor();
    let _: Block = arena.block_at(place);
    is_walk::<Chunk, Chunks<'_, M>>(&arena.iter_chunks());
    let _: u64 = arena.chunk_capacity();
    let _: u64 = arena.allocated_bytes();
    let _: u64 = arena.used_bytes();
    let _: u64 = arena.data_end();
    let _: u64 = arena.end();
    let _: u64 = arena.min_align();
    let _: bool = arena.is_growing();
    let _: (u64, u64) = arena.get_allocation_stats();
    let _: u64 = bases.base_at(1u64, steps);
    let _: Option<u64> = arena.find_chunk(1u64, steps);
    let _: Option<u64> = a.find_chunk(1u64, steps);
}

fn mark(generation: u64, chunks: u64, addr: u64) -> Checkpoint {
    Checkpoint {
        generation,
        chunks,
        addr,
    }
}

fn bases() {
    let _: fn(Global) -> Bases = Bases::new;
    let _: fn(&mut Bases) -> Result<(), BasesErr> = Bases::reserve;
    let _: fn(&mut Bases, u64) = Bases::push;
    let _: fn(&mut Bases) = Bases::keep_last;
    let _: fn(&mut Bases, u64) = Bases::truncate;
    let _: fn(&Bases) -> u64 = Bases::len;
    let _: BasesErr = BasesErr::OutOfMemory;
}
