// The children of a node.
ghost use Rattle.std.specs.Prelude.{◌≡◌};
ghost use Rattle.arena_vec.specs.Vecs.{IsVecIn};
ghost use Rattle.tree_nodes.specs.TreesAt.{node_item, kids_of};

use crate::node::Node;
use arena_chunks::{Allocator, ChunkSource};
use arena_vec::Vec;

/// Returns the list of a node's children, which every node has but a number and a name. Reads no byte: the arena is a
/// parameter only because the list is stored there.
pub fn kids<C: ChunkSource>(a: &Allocator<C>, node: Node) -> Vec<Node>
    requires { IsVecIn node_item a.now.memory (kids_of node) }
    ensures { result ≡ kids_of node }
{
    Vec::from_raw_parts_in(node.kids, node.len, node.cap)
}
