// A task of several calls.
ghost use Rattle.std.specs.Prelude.{◌≡◌, ◌^◌, ◌≤◌, [], ◌∷◌, IfOk, OnErr, length};
ghost use Rattle.arena_chunks.specs.Frame.{Frame};
ghost use Rattle.arena_vec.specs.Growth.{new_growth, empty_capacity};
ghost use Rattle.arena_vec.specs.Held.{empty_block};
ghost use Rattle.arena_items.specs.Room.{MakesRoom};
ghost use Rattle.arena_vec.specs.Vecs.{IsVecIn, vec_list};
ghost use Rattle.example_collections.specs.Ranking.{Splits};

use crate::sorting::sorted_of;
use crate::taking::{keep_from, take_front};
use arena_chunks::laws::frames;
use arena_chunks::{Allocator, ChunkSource};
use arena_items::Item;
use arena_vec::{Grown, Vec};

/// Sorts values, drops those below `least`, moves the lowest of the others to `out`, and returns a vector of the rest
/// and `true`. If fewer are left than `out` has space for, returns a vector of all of them and `false`, and leaves
/// `out` unchanged.
///
/// # Errors
///
/// Those of `with_capacity_in`. Nothing changes.
pub fn split_lowest<T: Item + Ord, C: ChunkSource>(
    a: &mut Allocator<C>,
    values: &[T],
    least: T,
    out: &mut [T],
) -> Grown<(Vec<T>, bool)>
    requires small { T.SIZE ≤ 2 ^ 24 }
    ensures made { MakesRoom T.SIZE T.ALIGN a.old a.new (empty_block T.ALIGN) (empty_capacity T.SIZE)
        (new_growth T.SIZE (length values.now)) (λ r. r.0.raw.block) result }
    ensures held { IfOk result (λ r. IsVecIn T.Item a.new.memory r.0) }
    ensures split { IfOk result (λ r.
        Splits T.cmp values.now least out.old out.new (vec_list T.Item a.new.memory r.0) r.1) }
    ensures frame { IfOk result (λ r. Frame a.old.memory a.new.memory [] (r.0.raw.block ∷ [])) }
    ensures err { OnErr result ((a.new.memory ≡ a.old.memory) × (out.new ≡ out.old)) }
{
    frames();
    let mut vec = sorted_of(a, values)?;
    keep_from(a, &mut vec, least);
    if (vec.len() as usize) < out.len() {
        return Ok((vec, false));
    }
    take_front(a, &mut vec, out);
    Ok((vec, true))
}
