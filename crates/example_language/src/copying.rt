// Nodes that outlive the arena of their tree.
ghost use Rattle.std.specs.Prelude.{◌≡◌, [], IfOk, OnOk, IfErr, OnErr, Ok};
ghost use Rattle.arena.specs.AstRows.{no_rows};
ghost use Rattle.arena.specs.Frame.{Frame};
ghost use Rattle.arena.specs.Resizes.{NoneReadable};
ghost use Rattle.arena.specs.Vecs.{vec_list};
ghost use Rattle.example_language.specs.Copying.{NotKept};
ghost use Rattle.example_language.specs.Meaning.{Expr, reading};
ghost use Rattle.example_language.specs.Placing.{placed};
ghost use Rattle.example_language.specs.Trees.{AreNodesIn, node_item};

use crate::nodes::NodeList;
use crate::parsing::{ParseErr, parse};
use arena::{Allocator, ChunkSource, copy_nodes};

/// Parses a text in one arena, copies the nodes to another, and resets the first. The copy stays.
///
/// # Errors
///
/// Those of `parse` and of `copy_nodes`. The first arena isn't reset then: what was in use stays as it was.
#[tactic(auto, unfolding(arena_rules::specs::Rounding::up, arena_items::specs::Layout::second_at, arena_items::specs::Layout::pair_size))]
pub fn keep<C: ChunkSource, D: ChunkSource>(
    first: &mut Allocator<C>,
    other: &mut Allocator<D>,
    src: &str,
) -> Result<NodeList, ParseErr>
    ensures nodes { IfOk result (AreNodesIn other.new.memory) }
    ensures list { IfOk result (λ kept. (expr : Expr) × (reading src.now ≡ Ok expr)
        × (vec_list node_item other.new.memory kept ≡ (placed expr no_rows).nodes)) }
    ensures wrong { IfErr result (NotKept first.old first.new other.old other.new src.now) }
    ensures ends { OnOk result (NoneReadable first.new.memory.state) }
    ensures unreset { OnErr result (Frame first.old.memory first.new.memory [] []) }
    ensures others { Frame other.old.memory other.new.memory [] [] }
{
    let tree = parse(first, src)?;
    let kept = copy_nodes(&tree.nodes, first, other)?;
    first.reset();
    Ok(kept)
}
