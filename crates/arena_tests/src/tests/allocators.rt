// Tests of allocators, which are arenas with their sources.
use super::{ample, has, held, layout, must, reads, refusing, same};
use arena_chunks::{Allocator, Arena, MemoryChunks};

#[test]
fn values_and_texts_until_a_reset(rt: HostRuntime) {
    let mut a = ample(rt.alloc());
    let array = a.alloc_layout(layout(&rt, 10, 1)).expect(&rt, "a block");
    a.write(array, 0, &[123; 10]);
    let text = a.alloc_str("hello").expect(&rt, "a text").block;
    same(&rt, text.addr, 20401);
    reads(&rt, "the array", &a, array, &[123; 10]);
    reads(&rt, "the text", &a, text, b"hello");
    has(&rt, "before the reset", &a, 15, (2, 0));
    a.reset();
    has(&rt, "after the reset", &a, 0, (0, 0));
    same(&rt, a.capacity(), 16320);
    same(&rt, a.is_held_place(array), false);
}

#[test]
fn of_a_capacity(rt: HostRuntime) {
    let chunks = refusing(rt.alloc(), &[]).expect(&rt, "memory");
    let made = Allocator::with_capacity(rt.alloc(), chunks, 10);
    let a = made.ok().expect(&rt, "an allocator");
    same(&rt, (a.data_end(), a.capacity()), (4160, 64));
}

fn set_second(bytes: &mut [u8], value: u8) {
    if let Some(byte) = bytes.get_mut(1) {
        *byte = value;
    }
}

// Two bytes of a block are copied to another one, after one of them was set through a borrow.
#[test]
fn bytes_that_are_lent_and_copied(rt: HostRuntime) {
    let mut a = ample(rt.alloc());
    let one = a.alloc_layout(layout(&rt, 3, 1)).expect(&rt, "a block");
    a.write(one, 0, &[1, 2, 3]);
    let other = a.alloc_layout(layout(&rt, 2, 1)).expect(&rt, "a block");
    let one = held(&rt, &a, one);
    set_second(a.read_mut(one), 9);
    reads(&rt, "lent", &a, one, &[1, 9, 3]);
    let (one, other) = (held(&rt, &a, one), held(&rt, &a, other));
    must(&rt, "sizes", one.size == 3);
    must(&rt, "sizes", other.size == 2);
    a.copy_between(one, 1, other, 0, 2);
    reads(&rt, "copied", &a, other, &[9, 3]);
}

#[test]
fn a_block_of_an_arena(rt: HostRuntime) {
    let mut arena = Arena::<1>::new(rt.alloc());
    let mut chunks = MemoryChunks::new(rt.alloc(), 1 << 20);
    let block = arena.alloc_layout(&mut chunks, layout(&rt, 10, 1));
    same(&rt, block.expect(&rt, "a block").addr, 20406);
}
