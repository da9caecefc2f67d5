// Negated expressions.
ghost use Rattle.std.specs.Prelude.{None, OnOk};
ghost use Rattle.arena_chunks.specs.Memory.{Memory};
ghost use Rattle.tree_rules.specs.Trees.{Expr, Neg};
ghost use Rattle.arena_items.specs.Asks.{Fresh};
ghost use Rattle.arena_tree.specs.TreesAt.{IsPlaced, kids_of};
ghost use Rattle.arena_tree.specs.Asking.{AsksFor, AsksSign};
ghost use Rattle.tree_nodes.specs.Layouts.{ListOf};
ghost use Rattle.arena_tree.specs.Parts.{signed_tree};
ghost use Rattle.arena_tree.specs.Spending.{Spends, error_of, node_cost};

use arena_chunks::{Allocator, ChunkSource};
use arena_items::Grown;
use tree_nodes::{Kind, Node, wrap};

// Negates the expression that a node represents.
pub(crate) fn negate<C: ChunkSource>(a: &mut Allocator<C>, node: &mut Node) -> Grown<()>
    ensures tree { (e : Expr) (old : Memory) → IsPlaced e old a.old.memory node.old
        → OnOk result (IsPlaced (Neg e) old a.new.memory node.new) }
    ensures spends { Spends (ListOf 1) node_cost 0 0 a.old a.new (error_of result) }
    ensures asks { AsksFor (Fresh 88 8) None (λ u. (kids_of node.new).raw.block) a.old a.new result }
{
    wrap(a, Kind::Neg, node)
}

// Negates it if a minus comes before it.
#[inline(always)]
pub(crate) fn sign<C: ChunkSource>(a: &mut Allocator<C>, minus: bool, node: &mut Node) -> Grown<()>
    ensures tree { (e : Expr) (old : Memory) → IsPlaced e old a.old.memory node.old
        → OnOk result (IsPlaced (signed_tree minus e) old a.new.memory node.new) }
    ensures spends { Spends (ListOf 1) node_cost 0 0 a.old a.new (error_of result) }
    ensures asks { AsksSign minus (λ u. (kids_of node.new).raw.block) a.old a.new result }
{
    if minus {
        return negate(a, node);
    }
    Ok(())
}
