// What stays of ranges of a list that grows, and what stands beside a value that was placed.
ghost use Rattle.std.specs.Prelude.{◌≡◌, ◌≤◌, ◌++◌, ℕ, List, length, slice_range};
ghost use Rattle.arena_chunks.specs.Memory.{Memory};
ghost use Rattle.arena_items.specs.Beside.{AreBeside, IsNew};

use arena_items::InArena;
use arena_items::laws::frame_law;

/// A range of a list is the same range of the list with more at its end. So the operands that a node names stay, however
/// many are appended for other nodes.
#[tactic(auto, using(crate::proofs::RangeLemmas::range_stays))]
pub fn range_law<T>()
    ensures { (xs ys : List T) (i j : ℕ) → j ≤ length xs → slice_range (xs ++ ys) i j ≡ slice_range xs i j }
{}

/// A value is beside each one that was held before it was placed.
pub fn beside_new<V: InArena, W: InArena>()
    ensures { (old new : Memory) (v : V) (w : W) → V.is_held old v → IsNew W.InArena old new w
        → AreBeside V.InArena W.InArena new v w }
{
    frame_law::<V>();
}
