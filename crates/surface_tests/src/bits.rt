// Public items of bit sets.
use crate::kinds::{is_copy, is_walk};
use arena_bits::{BitSet, Ones};
use arena_chunks::{Allocator, ChunkSource, OutOfMemory};
use arena_items::Grown;
use short_bytes::Bytes;
use std::alloc::Global;

fn changed<C: ChunkSource>(set: &mut BitSet, a: &mut Allocator<C>) {
    return;
    let _: Grown<BitSet> = BitSet::new_in(8u64, a);
    let _: () = set.set_bit(a, 1u64);
    let _: () = set.unset_bit(a, 1u64);
    let _: () = set.union(a, set);
    let _: () = set.clear(a);
}

fn looks<C: ChunkSource>(set: &BitSet, alloc: Global, a: &Allocator<C>) {
    return;
    let _: bool = set.is_held(a);
    let _: u64 = set.capacity();
    let _: bool = set.is_empty(a);
    let _: bool = set.contains(a, 1u64);
    let _: bool = set.has_bit(a, 1u64);
    is_copy::<BitSet>();
    is_walk::<u64, Ones<'_, C>>(&set.ones(a));
    let _: Result<Bytes, OutOfMemory> = set.display(alloc, a);
    let _: Result<Bytes, OutOfMemory> = set.debug(alloc, a);
}
