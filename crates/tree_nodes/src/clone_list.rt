// Lists of nodes with room for all that are to come.
ghost use Rattle.std.specs.Prelude.{◌≡◌, ◌+◌, ◌*◌, ◌<◌, List, [], ◌∷◌, ◌++◌, None, IfOk};
ghost use Rattle.arena_chunks.specs.Memory.{Memory};
ghost use Rattle.arena_items.specs.Room.{SamePlaces};
ghost use Rattle.arena_vec.specs.Vecs.{IsVecIn};
ghost use Rattle.tree_nodes.specs.TreesAt.{node_item};
ghost use Rattle.tree_nodes.specs.Subtrees.{Subtree, IsTreePlaced, IsRowBuilt};
ghost use Rattle.tree_nodes.specs.Layouts.{ListOf};
ghost use Rattle.tree_nodes.specs.Asking.{AsksFor, list_ask};
ghost use Rattle.tree_nodes.specs.Spending.{Spends, error_of};

use crate::block::place_block;
use crate::node::Node;
use arena_chunks::{Allocator, ChunkSource};
use arena_items::{Grown, Item};
use arena_place::Layout;
use arena_vec::Vec;
use arena_vec::laws::growth_rule;

/// A list of no nodes, with room for exactly `len`. Asks for no block where `len` is 0.
///
/// # Errors
///
/// `AllocErr` where a list of `len` nodes has no place, `OutOfMemory` where memory outside the chunks runs out.
pub fn roomy<C: ChunkSource>(a: &mut Allocator<C>, len: u32) -> Grown<Vec<Node>>
    ensures row { IfOk result (IsRowBuilt [] a.old.memory a.new.memory) }
    ensures len { IfOk result (λ v. v.raw.len ≡ 0) }
    ensures cap { IfOk result (λ v. v.raw.cap ≡ len) }
    ensures spends { Spends (ListOf len) (128 * len) 0 0 a.old a.new (error_of result) }
    ensures asks { AsksFor (list_ask len) None (λ v. v.raw.block) a.old a.new result }
{
    if len == 0 {
        return Ok(Vec::new_in());
    }
    let Some(layout) = Layout::array(len as u64, Node::SIZE, Node::ALIGN) else {
        unreachable!();
    };
    let block = place_block(a, layout)?;
    Ok(Vec::from_raw_parts_in(block, 0, len))
}

/// Appends a node to a list that has room for it. Takes no memory.
pub fn fill<C: ChunkSource>(a: &mut Allocator<C>, list: &mut Vec<Node>, node: Node)
    requires held { IsVecIn node_item a.old.memory list.old }
    requires room { list.old.raw.len < list.old.raw.cap }
    ensures row { (ts : List Subtree) (t : Subtree) (old one : Memory) → IsRowBuilt ts old one list.old
        → IsTreePlaced t one a.old.memory node
        → IsRowBuilt (ts ++ t ∷ []) old a.new.memory list.new }
    ensures len { list.new.raw.len ≡ list.old.raw.len + 1 }
    ensures cap { list.new.raw.cap ≡ list.old.raw.cap }
    ensures places { SamePlaces a.old a.new }
{
    growth_rule();
    match list.push(a, node) {
        Ok(()) => {}
        Err(_) => unreachable!(),
    }
}
