// By how much a copy raises the number of bytes in use.
ghost use Rattle.std.specs.Prelude.{◌≡◌, ◌+◌, ◌*◌, ◌≤◌, IfOk, OnOk, OnErr};
ghost use Rattle.arena_vec.specs.Vecs.{IsVecIn, vec_list};
ghost use Rattle.arena_clone.specs.AskBytes.{used};

use arena_chunks::{Allocator, ChunkSource};
use arena_clone::laws::{list_bytes_law, one_block_law};
use arena_clone::{CloneIn, Grown};
use arena_items::Item;
use arena_vec::Vec;

/// A copy of a list of numbers in another arena. The four bytes of each number come into use there, and at most 15 before them.
///
/// # Errors
///
/// Those of `clone_in`. The number of bytes in use doesn't rise.
pub fn copy_numbers<C: ChunkSource, D: ChunkSource>(
    list: &Vec<u32>,
    from: &Allocator<C>,
    to: &mut Allocator<D>,
) -> Grown<Vec<u32>>
    requires held { IsVecIn ⟦<u32 as Item>⟧ from.now.memory list.now }
    ensures held { IfOk result (IsVecIn ⟦<u32 as Item>⟧ to.new.memory) }
    ensures copy { IfOk result (λ copy. vec_list ⟦<u32 as Item>⟧ to.new.memory copy
        ≡ vec_list ⟦<u32 as Item>⟧ from.now.memory list.now) }
    ensures least { OnOk result (used to.old + 4 * list.now.raw.len ≤ used to.new) }
    ensures most { used to.new ≤ used to.old + (4 * list.now.raw.len + 15) }
    ensures refused { OnErr result (to.new.memory.state ≡ to.old.memory.state) }
{
    one_block_law::<u32>();
    list_bytes_law::<u32>();
    let copy = list.clone_in(from, to)?;
    Ok(copy)
}
