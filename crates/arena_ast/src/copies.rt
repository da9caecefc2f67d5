// Copies of nodes in another arena.
ghost use Rattle.std.specs.Prelude.{◌≡◌, ◌^◌, ◌≤◌, [], None, IfOk, IfErr, OnOk};
ghost use Rattle.arena_chunks.specs.Frame.{Frame};
ghost use Rattle.arena_vec.specs.Vecs.{vec_list};
ghost use Rattle.arena_ast.specs.Asts.{AreNodesIn};
ghost use Rattle.arena_ast.specs.Rows.{CopyAsks, CopyRefused};

use crate::linked::Linked;
use arena_chunks::{Allocator, ChunkSource};
use arena_clone::{CloneIn, Plain};
use arena_items::{Grown, Item};
use arena_vec::Vec;

/// Copies the nodes of a tree to another arena. The copy is the same list; the names stay behind.
///
/// # Errors
///
/// Those of `clone_in`. What was in use in the other arena stays as it was.
pub fn copy_nodes<T: Item + Linked + Plain, C: ChunkSource, D: ChunkSource>(
    nodes: &Vec<T>,
    from: &Allocator<C>,
    to: &mut Allocator<D>,
) -> Grown<Vec<T>>
    requires small { T.SIZE ≤ 2 ^ 24 }
    requires held { AreNodesIn T.Item T.is_after from.now.memory nodes.now }
    ensures nodes { IfOk result (AreNodesIn T.Item T.is_after to.new.memory) }
    ensures list { IfOk result (λ copy. vec_list T.Item to.new.memory copy
        ≡ vec_list T.Item from.now.memory nodes.now) }
    ensures took { OnOk result (CopyAsks T.Item to.old to.new nodes.now None) }
    ensures refused { IfErr result (CopyRefused T.Item to.old to.new nodes.now) }
    ensures others { Frame to.old.memory to.new.memory [] [] }
{
    let copy = nodes.clone_in(from, to)?;
    Ok(copy)
}
