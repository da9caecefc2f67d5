// Nodes with any number of operands: ranges of a list beside the tree.
ghost use Rattle.std.specs.Prelude.{◌≡◌, ◌+◌, ◌++◌, ℕ, [], IfOk, length, slice_range};
ghost use Rattle.arena_chunks.specs.Memory.{Memory};
ghost use Rattle.arena_items.specs.Beside.{IsNew, Moves};
ghost use Rattle.arena_items.specs.declared.values.InArena.{Ghosts};
ghost use Rattle.raw_vec.specs.Growth.{amortised_growth};
ghost use Rattle.arena_vec.specs.Changes.{Grows};
ghost use Rattle.arena_vec.specs.Vecs.{vec_list};
ghost use Rattle.arena_vec.specs.declared.vec.Vec.{Vec};
ghost use Rattle.arena_ast.specs.Rows.{no_rows, rows_in};

use crate::ast::Ast;
use crate::linked::Linked;
use arena_chunks::{Allocator, ChunkSource};
use arena_items::laws::part_law;
use arena_items::{Beside, Grown, InArena, Item};
use arena_vec::Vec;

/// A tree, and a list of operands beside it. A node with any number of operands names a range of the list.
pub type Listed<T> = Beside<Ast<T>, Vec<u32>>;

/// Gives what a list of indices means a name for proofs: `indices_kind`.
pub trait IndexList {
    ghost kind: { Ghosts (Vec ℕ) };
}

impl IndexList for u32 {
    ghost kind = { ⟦<Vec<u32> as InArena>⟧ };
}

/// Returns a tree without nodes or names, and an empty list. Nothing is placed.
pub fn new_listed<T: Item + Linked>() -> Listed<T>
    ensures fresh { (memory : Memory) → IsNew ⟦<Listed<T> as InArena>⟧ memory memory result }
    ensures len { result.first.nodes.raw.len ≡ 0 }
    ensures rows { (memory : Memory) → rows_in T.Item memory result.first ≡ no_rows }
    ensures list { (memory : Memory) → vec_list ⟦<u32 as Item>⟧ memory result.second ≡ [] }
{
    Beside {
        first: Ast::new_in(),
        second: Vec::new_in(),
    }
}

/// Appends operands to the list, and returns where they begin and end. Earlier ranges stay as they were
/// (`laws::range_law`).
///
/// # Errors
///
/// As for `extend_from_slice` of a vector. The tree and the list are as they were.
pub fn list_operands<T: Item + Linked, C: ChunkSource>(
    a: &mut Allocator<C>,
    tree: &mut Listed<T>,
    operands: &[u32],
) -> Grown<(u32, u32)>
    requires { ⟦<Listed<T> as InArena>⟧.is_held a.old.memory tree.old }
    ensures moves { Moves ⟦<Listed<T> as InArena>⟧ a.old.memory a.new.memory tree.old tree.new }
    ensures tree { tree.new.first ≡ tree.old.first }
    ensures grows { let old = tree.old.second in
        let growth = amortised_growth 4 old.raw.cap (old.raw.len + length operands.now) in
        let list = vec_list ⟦<u32 as Item>⟧ a.old.memory old ++ operands.now in
        Grows ⟦<u32 as Item>⟧ a.old a.new old growth list tree.new.second result }
    ensures ends { IfOk result (λ r. (r.0 ≡ tree.old.second.raw.len) × (r.1 ≡ tree.new.second.raw.len)) }
    ensures range { IfOk result (λ r.
        slice_range (vec_list ⟦<u32 as Item>⟧ a.new.memory tree.new.second) r.0 r.1 ≡ operands.now) }
{
    part_law::<Ast<T>, Vec<u32>>();
    let from = tree.second.len();
    tree.second.extend_from_slice(a, operands)?;
    let to = tree.second.len();
    Ok((from, to))
}
