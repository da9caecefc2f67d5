// Copies of trees in other arenas.
ghost use Rattle.std.specs.Prelude.{List, IfOk};
ghost use Rattle.arena_vec.specs.Vecs.{vec_list};
ghost use Rattle.arena_tree.specs.TreesAt.{node_item};
ghost use Rattle.arena_tree.specs.Spending.{AnyBlock, Spends, error_of};
ghost use Rattle.arena_tree.specs.Subtrees.{Subtree, SubtreeAt, RowAt, HasTree, HasRow, IsTreePlaced, IsRowBuilt};
ghost use Rattle.arena_tree.specs.Cloning.{below_bytes, row_bytes, AsksAll, below_asks, row_asks};

use arena_chunks::{Allocator, ChunkSource};
use arena_items::Grown;
use arena_vec::Vec;
use tree_nodes::{Kind, Node, clone_text, fill, kids, let_node, named, number, roomy, with_kids};

#[cycle(clone)]
fn clone_node<C: ChunkSource, D: ChunkSource>(
    from: &Allocator<C>,
    to: &mut Allocator<D>,
    node: Node,
    room: u64,
) -> Grown<Node>
    requires { HasTree from.now.memory node room }
    ensures tree { (t : Subtree) → SubtreeAt t from.now.memory node
        → IfOk result (IsTreePlaced t to.old.memory to.new.memory) }
    ensures spends { (t : Subtree) → SubtreeAt t from.now.memory node
        → Spends AnyBlock (below_bytes t) 0 0 to.old to.new (error_of result) }
    ensures asks { (t : Subtree) → SubtreeAt t from.now.memory node → AsksAll (below_asks t) to.old to.new result }
{
    match node.kind {
        Kind::Num => Ok(number(node.number)),
        Kind::Name => {
            let name = clone_text(from, to, node.text)?;
            Ok(named(name))
        }
        Kind::Let => {
            let name = clone_text(from, to, node.text)?;
            let value = clone_row(from, to, kids(from, node), room)?;
            Ok(let_node(name, value))
        }
        kind => {
            let list = clone_row(from, to, kids(from, node), room)?;
            Ok(with_kids(kind, list))
        }
    }
}

// A list of nodes, each copied with all below it.
#[cycle(clone)]
pub(crate) fn clone_row<C: ChunkSource, D: ChunkSource>(
    from: &Allocator<C>,
    to: &mut Allocator<D>,
    nodes: Vec<Node>,
    room: u64,
) -> Grown<Vec<Node>>
    requires { HasRow from.now.memory nodes room }
    ensures trees { (ts : List Subtree) → RowAt ts from.now.memory (vec_list node_item from.now.memory nodes)
        → IfOk result (IsRowBuilt ts to.old.memory to.new.memory) }
    ensures spends { (ts : List Subtree) → RowAt ts from.now.memory (vec_list node_item from.now.memory nodes)
        → Spends AnyBlock (row_bytes ts) 0 0 to.old to.new (error_of result) }
    ensures asks { (ts : List Subtree) → RowAt ts from.now.memory (vec_list node_item from.now.memory nodes)
        → AsksAll (row_asks ts) to.old to.new result }
{
    let mut list = roomy(to, nodes.len())?;
    let mut i = 0;
    while i < nodes.len() {
        let node = nodes.get(from, i);
        let copy = clone_node(from, to, node, room - 1)?;
        fill(to, &mut list, copy);
        i += 1;
    }
    Ok(list)
}
