// Nodes that name nodes before them.
ghost use Rattle.std.specs.Prelude.{ℕ};

use crate::by_parts::ByParts;

/// A type of nodes that name others by index.
pub trait Linked {
    // A node may be at this index: each index in it is below.
    ghost is_after: { ℕ → Self → Type 0 };
}

impl<T: Linked> Linked for ByParts<T> {
    ghost is_after = { λ at node. T.is_after at node.0 };
}
