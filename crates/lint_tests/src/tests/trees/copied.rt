// Tests of copies of trees in other arenas: their text, and the errors of arenas without room.
use super::super::{Rt, ample, fixed, refusing, same_at, text_of};
use super::SAMPLE;
use super::kept::KeptTree;
use arena_chunks::{Allocator, ChunkSource, MemoryChunks};
use arena_tree::TreeErr;

// The sample's lists of nodes have 9 * 88 bytes. Its first name has one byte, and 7 are lost before the next list.
// Its last name has one. So 801 bytes are enough, and 800 aren't.
#[test]
fn small_arenas(rt: HostRuntime) {
    let kept = KeptTree::of(&rt, ample(&rt), SAMPLE);
    for bytes in [0, 800, 816] {
        let mut b = fixed(&rt, bytes);
        let wanted = (bytes < 801).then_some(TreeErr::AllocErr { refused: 0 });
        same_at(&rt, bytes, kept.refused_in(&mut b), wanted);
    }
}

// Checks the text of a copy of the tree.
fn copied_as<D: ChunkSource + Drop>(
    rt: &impl Rt,
    kept: &KeptTree<MemoryChunks>,
    b: Allocator<D>,
    text: &[u8],
) {
    let out = kept.copied(rt, b).text(rt);
    same_at(rt, 0, out.as_slice(), text);
}

#[test]
fn folded_then_copied(rt: HostRuntime) {
    let mut kept = KeptTree::of(&rt, ample(&rt), SAMPLE);
    same_at(&rt, 0, kept.fold(), 2);
    copied_as(&rt, &kept, ample(&rt), b"let x = 1 + 6 + y;\n");
}

// The first chunk has room for the statement and its sum, and the list of 200 nodes needs another one. For each chunk
// one size is tried.
#[test]
fn refusing_sources(rt: HostRuntime) {
    let text = text_of(&rt, &[(b"1 + ", 199), (b"1;\n", 1)]);
    let kept = KeptTree::of(&rt, ample(&rt), text.as_slice());
    for refused in 1..3 {
        let mut b = Allocator::new(rt.alloc(), refusing(&rt, refused));
        let wanted = Some(TreeErr::AllocErr { refused: 1 });
        same_at(&rt, refused, kept.refused_in(&mut b), wanted);
        copied_as(&rt, &kept, b, text.as_slice());
    }
}

// The original is dropped before the copy is printed.
#[test]
fn many_nodes(rt: HostRuntime) {
    let text = text_of(&rt, &[(b"1 + ", 99_997), (b"1;\n", 1)]);
    let copy = KeptTree::of(&rt, ample(&rt), text.as_slice()).copied(&rt, ample(&rt));
    let out = copy.text(&rt);
    assert!(rt; out.as_slice() == text.as_slice());
}
