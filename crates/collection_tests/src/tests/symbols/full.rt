// Tests of arenas that are full or get no chunk. The sizes follow from the sizes of blocks.
use super::kept::{Nest, Texts};
use crate::tests::{NO_CHUNK, NO_PLACE, fixed, same_at};
use arena_chunks::{Allocator, RefusingChunks};
use std::alloc::Global;
use std::process::Abort;

// The first text has no bytes, its handle takes 32, and the first table of 16 slots takes 37 for each.
#[test]
fn a_text_in_a_full_arena(rt: HostRuntime) {
    for bytes in [0, 608, 624] {
        let mut texts = Texts::new(fixed(&rt, rt.alloc(), bytes));
        let wanted = if bytes < 624 { Err(NO_PLACE) } else { Ok(0) };
        same_at(&rt, bytes, texts.intern(""), wanted);
    }
}

// The list of where scopes begin takes 4 bytes, then 8 and 16 in the same place. With the fifth scope it would take 32.
#[test]
fn scopes_in_a_full_arena(rt: HostRuntime) {
    let mut nest = Nest::new(fixed(&rt, rt.alloc(), 16));
    for depth in 1..5u32 {
        same_at(&rt, depth, nest.enter(), Ok(()));
    }
    same_at(&rt, 5, nest.enter(), Err(NO_PLACE));
    same_at(&rt, 5, nest.define(7, 1), Err(NO_PLACE));
}

// An allocator whose first request is refused.
fn refusing(rt: &impl Abort, alloc: Global) -> Allocator<RefusingChunks> {
    let refuse = [1].to_vec(alloc).expect(rt, "memory");
    Allocator::new(alloc, RefusingChunks::new(alloc, refuse))
}

// For a first chunk one size is tried, and then the next call's request is granted.
#[test]
fn a_text_refused_its_chunk(rt: HostRuntime) {
    let mut texts = Texts::new(refusing(&rt, rt.alloc()));
    same_at(&rt, 1, texts.intern("a"), Err(NO_CHUNK));
    same_at(&rt, 2, texts.intern("a"), Ok(0));
}

#[test]
fn a_pair_refused_its_chunk(rt: HostRuntime) {
    let mut nest = Nest::new(refusing(&rt, rt.alloc()));
    same_at(&rt, 1, nest.define(7, 1), Err(NO_CHUNK));
    same_at(&rt, 2, nest.define(7, 1), Ok(true));
}
