// The values of nodes.
ghost use Rattle.std.specs.Prelude.{◌≡◌, length, IfOk};
ghost use Rattle.arena.specs.Vecs.{vec_list};
ghost use Rattle.example_language.specs.Nodes.{IsAfter};
ghost use Rattle.example_language.specs.Trees.{AreNodesIn, node_item};
ghost use Rattle.example_language.specs.Values.{node_value, last_value, value_of};

use crate::nodes::{Node, NodeList};
use arena::{Allocator, ChunkSource, OutOfMemory};
use std::alloc::Global;

// The value of a node, from those of the names and of the nodes before it. Operands aren't checked: the nodes before
// have them.
fn node_value(node: Node, before: &[u32], names: &[u32]) -> Option<u32>
    requires { IsAfter (length before.now) node }
    ensures { result ≡ node_value names.now before.now node }
{
    match node {
        Node::Number(n) => Some(n),
        Node::Name(n) => names.get(n as usize).copied(),
        Node::Sum(m, n) => Some(before[m as usize].wrapping_add(before[n as usize])),
        Node::Product(m, n) => Some(before[m as usize].wrapping_mul(before[n as usize])),
    }
}

fn last_value(values: &[u32]) -> Option<u32>
    ensures { result ≡ last_value values.now }
{
    values.last().copied()
}

/// Returns the value of the last node, modulo 2^32, where `names` has the values of the names by their numbers; or
/// `None` if there are no nodes, or a name has no value. It depends on the list of nodes alone.
///
/// # Errors
///
/// Out of memory for the values of the nodes.
#[tactic(auto, unfolding(arena_rules::specs::Rounding::up, arena_items::specs::Layout::second_at, arena_items::specs::Layout::pair_size))]
pub fn value<C: ChunkSource>(
    alloc: Global,
    a: &Allocator<C>,
    nodes: &NodeList,
    names: &[u32],
) -> Result<Option<u32>, OutOfMemory>
    requires { AreNodesIn a.now.memory nodes.now }
    ensures { IfOk result (λ value. value ≡ value_of names.now (vec_list node_item a.now.memory nodes.now)) }
{
    let mut values = Vec::new(alloc);
    'each: for i in 0..nodes.len() {
        let node = nodes.get(a, i);
        let Some(value) = node_value(node.0, &values, names) else {
            return Ok(None);
        };
        values.push(value)?;
    }
    Ok(last_value(values.as_slice()))
}
