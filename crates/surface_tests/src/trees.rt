// Public items of trees.
use arena_chunks::{Allocator, Block, ChunkSource, OutOfMemory, Str};
use arena_clone::{Dummy, ReplaceWith};
use arena_items::Item;
use arena_tree::Kind::{self, Let, Name, Neg, Num, Prod, Show, Sum};
use arena_tree::{Node, Tree, TreeErr};
use arena_vec::Vec;
use short_bytes::Bytes;
use std::alloc::Global;

fn node(kind: Kind, number: u64, text: Str, kids: Block, len: u32, cap: u32) -> Node {
    Node {
        kind,
        number,
        text,
        kids,
        len,
        cap,
    }
}

fn is_node<T: Item + Dummy + ReplaceWith>() {}

fn refused(e: TreeErr) -> (u64, u32) {
    match e {
        TreeErr::Syntax { at } => (at, 0),
        TreeErr::TooDeep { at } => (at, 0),
        TreeErr::NumberTooBig { at } => (at, 0),
        TreeErr::AllocErr { refused } => (0, refused),
        TreeErr::OutOfMemory => (0, 0),
    }
}

fn trees<C: ChunkSource, D: ChunkSource>(
    tree: &mut Tree,
    alloc: Global,
    a: &mut Allocator<C>,
    to: &mut Allocator<D>,
    src: &[u8],
    stmts: Vec<Node>,
) {
    return;
    is_node::<Node>();
    let _: [Kind; 8] = [Num, Name, Neg, Sum, Prod, Let, Show, Kind::Block];
    let _: Tree = Tree { stmts };
    let _: Result<Tree, TreeErr> = Tree::parse(a, src);
    let _: Result<Bytes, OutOfMemory> = tree.print(alloc, a);
    let _: Result<Tree, TreeErr> = tree.clone_in(a, to);
    let _: u64 = tree.fold(a);
}
