// Tests of the traits of blocks, each over a new allocator.
use super::{ample, has, held, layout, must, placed, reads, same};
use arena_chunks::bumpalo_alloc::{Alloc as BumpaloAlloc, CannotReallocInPlace, Excess};
use arena_chunks::{Alloc, ArenaErr, BlockAlloc};

const REFUSED: ArenaErr = ArenaErr::AllocErr { refused: 0 };

#[test]
fn the_trait_of_collections(rt: HostRuntime) {
    let mut a = ample(rt.alloc());
    let block = Alloc::alloc(&mut a, layout(&rt, 10, 1));
    let block = placed(&rt, "alloc", &a, block, 20406);
    let grown = Alloc::grow(&mut a, block, layout(&rt, 10, 16));
    let grown = placed(&rt, "grow", &a, grown, 20384);
    let same = Alloc::shrink(&mut a, grown, layout(&rt, 10, 16));
    let same = placed(&rt, "shrink", &a, same, 20384);
    Alloc::dealloc(&mut a, same);
    has(&rt, "dealloc", &a, 22, (1, 1));
}

#[test]
fn the_trait_of_allocators_of_blocks(rt: HostRuntime) {
    let mut a = ample(rt.alloc());
    let block = a.allocate(layout(&rt, 10, 1));
    let block = placed(&rt, "allocate", &a, block, 20406);
    let grown = BlockAlloc::grow(&mut a, block, layout(&rt, 10, 16));
    let grown = placed(&rt, "grow", &a, grown, 20384);
    let zeroed = a.grow_zeroed(grown, layout(&rt, 11, 16));
    let zeroed = placed(&rt, "grow_zeroed", &a, zeroed, 20368);
    let shrunk = BlockAlloc::shrink(&mut a, zeroed, layout(&rt, 5, 64));
    let shrunk = placed(&rt, "shrink", &a, shrunk, 20352);
    a.deallocate(shrunk);
    has(&rt, "deallocate", &a, 20416 - 20357, (1, 3));
}

// A call that moves a block of 10 bytes to alignment 16.
#[derive(Drop)]
enum Move {
    Shrink,
    BlockGrowZeroed,
    BlockShrink,
}

// A block of 10 bytes at alignment 1, which is the first of the allocator.
#[test]
fn first_blocks_that_move(rt: HostRuntime) {
    for call in [Move::Shrink, Move::BlockGrowZeroed, Move::BlockShrink] {
        let mut a = ample(rt.alloc());
        let block = BumpaloAlloc::alloc(&mut a, layout(&rt, 10, 1));
        let block = placed(&rt, "alloc", &a, block, 20406);
        must(&rt, "a size", block.size == 10);
        a.write(block, 0, &[7; 10]);
        let block = held(&rt, &a, block);
        let to = layout(&rt, 10, 16);
        let moved = match call {
            Move::Shrink => Alloc::shrink(&mut a, block, to),
            Move::BlockGrowZeroed => a.grow_zeroed(block, to),
            Move::BlockShrink => BlockAlloc::shrink(&mut a, block, to),
        };
        let moved = placed(&rt, "moved", &a, moved, 20384);
        reads(&rt, "moved", &a, moved, &[7; 10]);
        has(&rt, "moved", &a, 32, (1, 1));
    }
}

#[test]
fn a_first_block_that_grows(rt: HostRuntime) {
    let mut a = ample(rt.alloc());
    let block = Alloc::alloc(&mut a, layout(&rt, 10, 1));
    let block = placed(&rt, "alloc", &a, block, 20406);
    let grown = Alloc::grow(&mut a, block, layout(&rt, 11, 1));
    placed(&rt, "grow", &a, grown, 20405);
    has(&rt, "grown", &a, 11, (1, 1));
    a.reset();
    has(&rt, "reset", &a, 0, (0, 0));
}

#[test]
fn a_first_block_that_grows_by_zeros(rt: HostRuntime) {
    let mut a = ample(rt.alloc());
    let block = a.allocate(layout(&rt, 1, 1));
    let block = placed(&rt, "allocate", &a, block, 20415);
    must(&rt, "a size", block.size == 1);
    a.write(block, 0, &[9]);
    let block = held(&rt, &a, block);
    let grown = a.grow_zeroed(block, layout(&rt, 3, 1));
    let grown = placed(&rt, "grow_zeroed", &a, grown, 20413);
    reads(&rt, "grow_zeroed", &a, grown, &[9, 0, 0]);
}

// The size and the place of a first block, and those after it was reallocated.
#[test]
fn first_blocks_that_are_reallocated(rt: HostRuntime) {
    for (before, after) in [
        ((100, 20316), (51, 20316)),
        ((0, 16), (8, 20408)),
        ((10, 20406), (11, 20405)),
    ] {
        let mut a = ample(rt.alloc());
        let block = BumpaloAlloc::alloc(&mut a, layout(&rt, before.0, 1));
        let block = placed(&rt, "alloc", &a, block, before.1);
        let block = a.realloc(block, after.0);
        let block = placed(&rt, "realloc", &a, block, after.1);
        same(&rt, block.size, after.0);
    }
}

#[test]
fn the_trait_of_the_fork(rt: HostRuntime) {
    let mut a = ample(rt.alloc());
    let Excess(block, size) = a.alloc_excess(layout(&rt, 10, 1)).expect(&rt, "a block");
    same(&rt, size, 10);
    a.write(block, 0, &[7; 10]);
    same(&rt, a.grow_in_place(block, 11), Err(CannotReallocInPlace));
    same(&rt, a.shrink_in_place(block, 9), Err(CannotReallocInPlace));
    let block = placed(&rt, "alloc_excess", &a, Ok(block), 20406);
    let Excess(block, size) = a.realloc_excess(block, 11).expect(&rt, "a block");
    same(&rt, size, 11);
    let block = placed(&rt, "realloc_excess", &a, Ok(block), 20405);
    BumpaloAlloc::dealloc(&mut a, block);
    has(&rt, "dealloc", &a, 0, (1, 1));
}

#[test]
fn a_first_block_of_zeros(rt: HostRuntime) {
    let mut a = ample(rt.alloc());
    let zeros = a.alloc_zeroed(layout(&rt, 10, 1));
    let zeros = placed(&rt, "alloc_zeroed", &a, zeros, 20406);
    reads(&rt, "alloc_zeroed", &a, zeros, &[0; 10]);
}

#[test]
fn elements_and_arrays_of_no_bytes(rt: HostRuntime) {
    let mut a = ample(rt.alloc());
    same(&rt, a.alloc_one(layout(&rt, 0, 1)), Err(REFUSED));
    // The size, the alignment and the number of elements: arrays without bytes, and arrays that are too large.
    for (size, align, n) in [(4, 4, 0), (1 << 32, 1, 1 << 32), (16, 16, 1 << 59)] {
        let array = a.alloc_array(layout(&rt, size, align), n);
        same(&rt, array, Err(REFUSED));
    }
}

// An array, which is the first block, grows and is given back.
#[test]
fn arrays(rt: HostRuntime) {
    let mut a = ample(rt.alloc());
    let byte = layout(&rt, 1, 1);
    let ten = a.alloc_array(byte, 10);
    let ten = placed(&rt, "alloc_array", &a, ten, 20406);
    must(&rt, ten, ten.size == 10);
    must(&rt, ten, ten.align == 1);
    same(&rt, a.realloc_array(ten, byte, 10, 0), Err(REFUSED));
    let ten = held(&rt, &a, ten);
    let eleven = a.realloc_array(ten, byte, 10, 11);
    let eleven = placed(&rt, "realloc_array", &a, eleven, 20405);
    same(&rt, a.dealloc_array(eleven, byte, 0), Err(REFUSED));
    let eleven = held(&rt, &a, eleven);
    same(&rt, a.dealloc_array(eleven, byte, 11), Ok(()));
    has(&rt, "dealloc_array", &a, 0, (1, 1));
}

#[test]
fn elements(rt: HostRuntime) {
    let byte = layout(&rt, 1, 1);
    let mut a = ample(rt.alloc());
    let one = a.alloc_one(byte);
    let one = placed(&rt, "alloc_one", &a, one, 20415);
    a.dealloc_one(one);
    has(&rt, "dealloc_one", &a, 0, (1, 0));
}
