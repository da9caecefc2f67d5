// Dummies of nodes, and their exchange.
ghost use Rattle.std.specs.Prelude.{[]};
ghost use Rattle.arena_kinds.specs.Kinds.{plain};
ghost use Rattle.arena_kinds.specs.laws.KindLaws.{plain_lawful};
ghost use Rattle.tree_nodes.specs.NodeForms.{number_node};

use crate::build::number;
use crate::node::Node;
use arena_chunks::{Allocator, ChunkSource};
use arena_items::Grown;
use arena_kinds::{Dummy, ReplaceWith};

// The number 0.
impl Dummy for Node {
    ghost kind = { plain };

    ghost meaning = { number_node 0 };

    ghost asks = { [] };

    ghost lawful = { plain_lawful };

    fn dummy<C: ChunkSource>(_a: &mut Allocator<C>) -> Grown<Self> {
        Ok(number(0))
    }
}

impl ReplaceWith for Node {}
