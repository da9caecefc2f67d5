// Public items of the allocator, and of the three traits of blocks.
use arena_chunks::bumpalo_alloc::{Alloc as BumpaloAlloc, CannotReallocInPlace, Excess};
use arena_chunks::{
    Alloc, Allocator, Arena, ArenaErr, Block, BlockAlloc, ChunkSource, Edit, RawErr, Str,
};
use arena_place::Layout;
use arena_region::Region;
use std::alloc::Global;

fn made<C: ChunkSource>(
    alloc: Global,
    chunks: C,
    region: Vec<u8>,
    zeros: Region,
    a: Allocator<C>,
) -> (C, Allocator<C>) {
    return (chunks, a);
    let _: Allocator<C> = Allocator::new(alloc, chunks);
    let _: Result<Allocator<C>, (ArenaErr, C)> = Allocator::with_capacity(alloc, chunks, 8u64);
    let _: Result<Allocator<C>, (RawErr, C)> = Allocator::from_raw_parts(alloc, region, chunks);
    let _: Allocator<C> = Allocator::from_region(alloc, zeros, chunks);
    let (arena, chunks): (Arena<1>, C) = a.into_parts();
    return (chunks, Allocator::of(arena, chunks));
}

fn changed<C: ChunkSource>(a: &mut Allocator<C>, layout: Layout, block: Block, s: &str) {
    return;
    let _: Result<Block, ArenaErr> = a.alloc_layout(layout);
    let _: () = a.reset();
    let _: &[u8] = a.read(block);
    let _: () = a.write(block, 8u64, &[1u8]);
    let _: &mut [u8] = a.read_mut(block);
    let _: () = a.move_within(block, 8u64, 9u64, 1u64);
    let _: () = a.copy_between(block, 8u64, block, 9u64, 1u64);
    let _: Result<Block, ArenaErr> = a.alloc_bytes(&[1u8]);
    let _: bool = a.is_held_place(block);
    let _: Result<Str, ArenaErr> = a.alloc_str(s);
    let _: Result<Str, ArenaErr> = a.alloc_concat_strs_array([s, s]);
    let _: Result<Str, ArenaErr> = a.alloc_concat_strs_array::<&str, 3>([s, s, s]);
    traits(a, layout, block);
}

fn edited<C: ChunkSource, E: Edit>(a: &mut Allocator<C>, block: Block, e: &E, place: &mut [u8]) {
    return;
    let _: () = e.edit(place);
    let _: () = a.write_with(block, 8u64, 1u64, e);
}

fn looks<C: ChunkSource>(a: &Allocator<C>, text: Str) {
    return;
    let _: Option<&str> = text.get(a);
    let _: u64 = a.capacity();
    let _: u64 = a.used_bytes();
    let _: (u64, u64) = a.get_allocation_stats();
    let _: u64 = a.data_end();
    let _: bool = a.is_growing();
}

fn traits<A: Alloc + BlockAlloc + BumpaloAlloc>(a: &mut A, layout: Layout, block: Block) {
    alloc(a, layout, block);
    block_alloc(a, layout, block);
    bumpalo(a, layout, block);
}

fn alloc<A: Alloc>(a: &mut A, layout: Layout, block: Block) {
    return;
    let _: Result<Block, ArenaErr> = a.alloc(layout);
    let _: () = a.dealloc(block);
    let _: Result<Block, ArenaErr> = a.grow(block, layout);
    let _: Result<Block, ArenaErr> = a.shrink(block, layout);
}

fn block_alloc<A: BlockAlloc>(a: &mut A, layout: Layout, block: Block) {
    return;
    let _: Result<Block, ArenaErr> = a.allocate(layout);
    let _: () = a.deallocate(block);
    let _: Result<Block, ArenaErr> = a.grow(block, layout);
    let _: Result<Block, ArenaErr> = a.grow_zeroed(block, layout);
    let _: Result<Block, ArenaErr> = a.shrink(block, layout);
}

fn bumpalo<A: BumpaloAlloc>(a: &mut A, layout: Layout, block: Block) {
    return;
    let _: Result<Block, ArenaErr> = a.alloc(layout);
    let _: () = a.dealloc(block);
    let _: Result<Block, ArenaErr> = a.realloc(block, 8u64);
    let _: (u64, u64) = a.usable_size(layout);
    let _: Result<Block, ArenaErr> = a.alloc_zeroed(layout);
    let _: Result<Excess, ArenaErr> = a.alloc_excess(layout);
    let _: Result<Excess, ArenaErr> = a.realloc_excess(block, 8u64);
    let _: Result<(), CannotReallocInPlace> = a.grow_in_place(block, 8u64);
    let _: Result<(), CannotReallocInPlace> = a.shrink_in_place(block, 8u64);
    let _: Result<Block, ArenaErr> = a.alloc_one(layout);
    let _: () = a.dealloc_one(block);
    let _: Result<Block, ArenaErr> = a.alloc_array(layout, 8u64);
    let _: Result<Block, ArenaErr> = a.realloc_array(block, layout, 8u64, 9u64);
    let _: Result<(), ArenaErr> = a.dealloc_array(block, layout, 8u64);
    let _: CannotReallocInPlace = CannotReallocInPlace;
    let _: &'static str = CannotReallocInPlace.description();
    let _: Excess = Excess(block, 8u64);
}
