// An enum of the caller's own, which is copied by its variants.
ghost use Rattle.arena_clone.specs.Kinds.{vec_of};
ghost use Rattle.example_collections.specs.Nodes.{node_of};
ghost use Rattle.example_collections.specs.laws.NodeLaws.{node_lawful};

use arena_chunks::{Allocator, ChunkSource, Str};
use arena_clone::{CloneIn, CloneInSemanticIds, Grown, Origin};
use arena_items::Item;
use arena_vec::Vec;

/// A node of a tree: a name, a leaf, or a list of leaves.
#[derive(Clone, Copy)]
pub enum Node<L> {
    Name(Str),
    Leaf(L),
    Leaves(Vec<L>),
}

impl<L: CloneIn + Item> CloneIn for Node<L> {
    ghost kind = { node_of L.kind (vec_of L.Item L.kind) };

    ghost lawful = { node_lawful
        (record { is_value = L.is_value; encoded = L.encoded; decoded = L.decoded; SIZE = L.SIZE; ALIGN = L.ALIGN })
        L.kind L.lawful };

    fn is_flat(_ids: CloneInSemanticIds) -> bool {
        false
    }

    fn copy_of<O: Origin<D>, D: ChunkSource>(
        &self,
        ids: CloneInSemanticIds,
        from: &O,
        to: &mut Allocator<D>,
    ) -> Grown<Self> {
        match self {
            Node::Name(name) => Ok(Node::Name(name.copy_of(ids, from, to)?)),
            Node::Leaf(leaf) => Ok(Node::Leaf(leaf.copy_of(ids, from, to)?)),
            Node::Leaves(leaves) => Ok(Node::Leaves(leaves.copy_of(ids, from, to)?)),
        }
    }
}
