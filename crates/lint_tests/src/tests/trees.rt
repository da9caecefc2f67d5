// Tests of trees of programs in arenas: why a text has none, its text, its copy, and the folded tree. Expected values
// are worked out by hand from the grammar and the rules.
mod changes;
mod copied;
mod folds;
mod kept;
mod placed;
mod plain;

use super::{Rt, ample};
use crate::{set_out, set_out_folded};
use arena_chunks::{Allocator, ChunkSource};
use arena_tree::{Tree, TreeErr};
use short_bytes::Bytes;
use std::process::Abort;

const SAMPLE: &[u8] = b"let x = 1+2*3 - -y;";

// Returns why a text gets no tree in an arena.
fn refused_in(rt: &impl Abort, a: &mut Allocator<impl ChunkSource>, src: &[u8]) -> Option<TreeErr> {
    assert!(rt; src.len() <= 1 << 24);
    Tree::parse(a, src).err()
}

// Returns why it gets none in one pass.
fn stopped_in(rt: &impl Abort, a: &mut Allocator<impl ChunkSource>, src: &[u8]) -> Option<TreeErr> {
    assert!(rt; src.len() <= 1 << 24);
    Tree::parse_in_one_pass(a, src).err()
}

// Returns the text of a program's tree.
fn shown(rt: &impl Rt, src: &[u8]) -> Bytes {
    assert!(rt; src.len() <= 1 << 24);
    let text = set_out(rt.alloc(), &mut ample(rt), src);
    text.ok().expect(rt, "a program")
}

// Returns the text of a program's folded tree, and the number of nodes that were folded.
fn shown_folded(rt: &impl Rt, src: &[u8]) -> (Bytes, u64) {
    assert!(rt; src.len() <= 1 << 24);
    let folded = set_out_folded(rt.alloc(), &mut ample(rt), src);
    folded.ok().expect(rt, "a program")
}
