// Tests of vectors as slices and as blocks: the Rust crate's test and examples.
ghost use Rattle.std.specs.Prelude.{◌≡◌};
ghost use Rattle.arena_items.specs.Values.{IsSliceIn};

use super::vectors::{is_list, vec_of};
use super::{ample, held, same};
use arena_chunks::{Allocator, Block, ChunkSource};
use arena_items::{BoxSlice, Item};
use arena_vec::{RawVec, Vec};
use std::process::Abort;

// Fails the test if the slice isn't held or doesn't have two letters.
fn of_two<C: ChunkSource>(rt: &impl Abort, a: &Allocator<C>, slice: BoxSlice<char>)
    ensures held { IsSliceIn ⟦<char as Item>⟧ a.now.memory slice }
    ensures length { slice.length ≡ 2 }
{
    assert!(rt; slice.is_held(a) && slice.len() == 2, "two letters");
}

// A slice refers to the front of the vector's block.
#[test]
fn as_slices(rt: HostRuntime) {
    let mut a = ample(rt.alloc());
    let mut vec = vec_of(&rt, &mut a, &['x', 'y', 'z', 'w']);
    vec.truncate(2);
    let slice = vec.into_boxed_slice();
    of_two(&rt, &a, slice);
    same(&rt, (slice.get(&a, 0), slice.get(&a, 1)), ('x', 'y'));
    same(&rt, slice.block.addr, vec.as_ptr().addr);
    same(&rt, slice.block.size, 8);
    let slice = vec.into_arena_slice();
    of_two(&rt, &a, slice);
    same(&rt, slice.get(&a, 1), 'y');
    let slice = vec.into_arena_slice_mut();
    of_two(&rt, &a, slice);
    slice.set(&mut a, 0, 'é');
    is_list(&rt, &a, vec, &['é', 'y']);
    same(&rt, a.used_bytes(), 16);
}

// Fails the test if the block doesn't have this size and alignment.
fn of_size(rt: &impl Abort, block: Block, size: u64, align: u64)
    ensures size { block.size ≡ size }
    ensures align { block.align ≡ align }
{
    assert!(rt; block.size == size && block.align == align, "a block");
}

#[test]
fn of_raw_parts(rt: HostRuntime) {
    let mut a = ample(rt.alloc());
    let mut vec = vec_of(&rt, &mut a, &[1u16, 2, 3]);
    let block = held(&rt, &a, vec.as_mut_ptr());
    of_size(&rt, block, 6, 2);
    a.write(block, 0, &[4, 0, 5, 0, 6, 0]);
    let rebuilt = <Vec<u16>>::from_raw_parts_in(block, 3, 3);
    is_list(&rt, &a, rebuilt, &[4, 5, 6]);
}

// Bytes that were written become part of the vector once its length is set.
#[test]
fn of_written_bytes(rt: HostRuntime) {
    let mut a = ample(rt.alloc());
    let mut raw = <RawVec<u8>>::with_capacity_in(4, &mut a).expect(&rt, "room");
    let block = held(&rt, &a, raw.ptr());
    of_size(&rt, block, 4, 1);
    a.write(block, 0, b"rust");
    raw.increase_len(4);
    is_list(&rt, &a, Vec { raw }, b"rust");
    raw.decrease_len(1);
    is_list(&rt, &a, Vec { raw }, b"rus");
}
