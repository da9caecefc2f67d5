// Tests of values in an arena through their handles.
ghost use Rattle.arena_items.specs.Values.{IsHeld};

use crate::tests::{ample, held, must, same};
use arena_chunks::{Allocator, Block, ChunkSource};
use arena_items::{Address, ArenaItems, Box, BoxSlice, GetAddress, Item};
use std::process::Abort;

// Fails the test if the block isn't held or doesn't have this layout.
fn of_layout<C: ChunkSource>(rt: &impl Abort, a: &Allocator<C>, block: Block, size: u64, align: u64)
    ensures { IsHeld size align a.now.memory.state block }
{
    held(rt, a, block);
    must(rt, block, block.size == size);
    must(rt, block, block.align == align);
}

// Returns the value at an index of a slice. The test fails if the slice isn't held.
fn at<T: Item, C: ChunkSource>(rt: &impl Abort, a: &Allocator<C>, s: BoxSlice<T>, i: u64) -> T {
    let length = s.len();
    must(rt, i, T::SIZE <= 48);
    must(rt, i, length <= 1000);
    must(rt, i, i < length);
    of_layout(rt, a, s.block, length * T::SIZE, T::ALIGN);
    s.get(a, i)
}

#[test]
fn values_of_boxes(rt: HostRuntime) {
    let mut a = ample(rt.alloc());
    let seven = Box::new_in(7u64, &mut a).expect(&rt, "a box");
    same(&rt, seven.address(), Address(20408));
    same(&rt, seven.unbox(&a), 7);
    seven.set(&mut a, 8);
    same(&rt, seven.get(&a), 8);
    let block = Box::as_non_null(&seven);
    same(&rt, block.addr, 20408);
    same(&rt, block.size, 8);
    same(&rt, Box::into_non_null(seven), block);
}

#[test]
fn slices(rt: HostRuntime) {
    let mut a = ample(rt.alloc());
    let one = a.alloc_slice_copy(&[1u32, 2, 3]).expect(&rt, "a slice");
    same(&rt, (one.block.addr, a.used_bytes()), (20404, 12));
    let s = a.alloc_slice_copy(&[10u32, 20, 30]).expect(&rt, "a slice");
    of_layout(&rt, &a, s.block, 12, 4);
    s.set(&mut a, 1, 99);
    let (one, other) = (one.into_arena_slice(), s.into_arena_slice_mut());
    for (i, first, second) in [(0, 1, 10), (1, 2, 99), (2, 3, 30)] {
        same(&rt, at(&rt, &a, one, i), first);
        same(&rt, at(&rt, &a, other, i), second);
    }
    let none = <BoxSlice<u64>>::new_empty_boxed_slice();
    same(&rt, none.block, Block::empty(8));
    same(&rt, none.len(), 0);
}
