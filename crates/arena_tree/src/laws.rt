// What calls leave of trees that they don't work on. A law is a function that does nothing: called in a body, it
// provides its facts there.
ghost use Rattle.std.specs.Prelude.{◌≡◌, List, []};
ghost use Rattle.arena_chunks.specs.Checkpoints.{GoesBack};
ghost use Rattle.arena_chunks.specs.Frame.{Frame, AreAllApart};
ghost use Rattle.arena_chunks.specs.Memory.{Memory};
ghost use Rattle.arena_store.specs.declared.block.Block.{Block};
ghost use Rattle.arena_items.specs.Footprint.{AreReadable};
ghost use Rattle.tree_rules.specs.Trees.{Stmts};
ghost use Rattle.arena_tree.specs.Folding.{lists_of, footprint};
ghost use Rattle.arena_tree.specs.Given.{IsTreeIn, Means};
ghost use Rattle.arena_tree.specs.Staying.{StaysTree};
ghost use Rattle.arena_tree.specs.declared.tree.Tree.{Tree};

/// The frame law of trees. A call on some blocks keeps a tree whose footprint is apart from them (`stays`): it is held,
/// means the same statements, names the same blocks, and these are apart from those that the call has afterwards. So
/// does a call that had no blocks before (`placed`); and so does going back to a mark, if the tree's blocks may still
/// be read (`back`).
///
/// A tree means one list of statements (`one`), and its blocks may be read (`readable`). Blocks from which they are
/// apart are apart from them (`turned`), and so from its lists of nodes, on which `fold` works (`lists`).
pub fn tree_law()
    ensures stays { (old new : Memory) (before after : List Block) (t : Tree) (trees : Stmts) → Frame old new before after
        → IsTreeIn old t → Means old t trees → AreAllApart (footprint trees old t) before
        → StaysTree trees old new after t }
    ensures placed { (old new : Memory) (after : List Block) (t : Tree) (trees : Stmts) → Frame old new [] after
        → IsTreeIn old t → Means old t trees → StaysTree trees old new after t }
    ensures back { (old new : Memory) (t : Tree) (trees : Stmts) → GoesBack old new → IsTreeIn old t → Means old t trees
        → AreReadable new.state (footprint trees old t) → StaysTree trees old new [] t }
    ensures one { (m : Memory) (t : Tree) (trees same : Stmts) → Means m t trees → Means m t same → trees ≡ same }
    ensures readable { (m : Memory) (t : Tree) (trees : Stmts) → IsTreeIn m t → Means m t trees
        → AreReadable m.state (footprint trees m t) }
    ensures turned { (m : Memory) (t : Tree) (trees : Stmts) (others : List Block)
        → AreAllApart (footprint trees m t) others → AreAllApart others (footprint trees m t) }
    ensures lists { (m : Memory) (t : Tree) (trees : Stmts) (others : List Block)
        → AreAllApart others (footprint trees m t) → AreAllApart others (lists_of trees m t) }
{}
