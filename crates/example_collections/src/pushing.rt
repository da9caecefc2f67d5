// Values that are appended, and numbers that are added up.
ghost use Rattle.std.specs.Prelude.{◌≡◌, ℕ, ◌+◌, ◌*◌, ◌%◌, ◌^◌, ◌<◌, ◌≤◌, ◌++◌, [], ◌∷◌, replicate, Err, IsOk, OnOk};
ghost use Rattle.std.specs.List.{sum};
ghost use Rattle.arena_rules.specs.State.{used_bytes};
ghost use Rattle.arena_chunks.specs.Frame.{AreBlocksApart, Frame};
ghost use Rattle.arena_items.specs.Values.{IsBoxIn, box_value};
ghost use Rattle.arena_items.specs.Room.{SamePlaces};
ghost use Rattle.arena_items.specs.declared.room.AllocError.{AllocError};
ghost use Rattle.arena_vec.specs.Credit.{credit_of};
ghost use Rattle.arena_vec.specs.Vecs.{IsVecIn, vec_list};
ghost use Rattle.example_collections.specs.Pushing.{PushesInTurn};

use arena_chunks::{Allocator, ChunkSource};
use arena_items::laws::frame_law;
use arena_items::{Box, Item};
use arena_vec::laws::{growth_rule, vector_costs};
use arena_vec::{Grown, Vec};

/// Appends a value to a vector. A box that is disjoint from it keeps its value.
pub fn push_beside<T: Item, U: Item, C: ChunkSource>(
    a: &mut Allocator<C>,
    vec: &mut Vec<T>,
    other: Box<U>,
    value: T,
) -> Grown<()>
    requires small { T.SIZE ≤ 2 ^ 24 }
    requires vec { IsVecIn T.Item a.old.memory vec.old }
    requires other { IsBoxIn U.Item a.old.memory other }
    requires apart { AreBlocksApart other.block vec.old.raw.block }
    ensures list { let list = vec_list T.Item a.old.memory vec.old ++ value ∷ [] in
        OnOk result (vec_list T.Item a.new.memory vec.new ≡ list) }
    ensures held { IsBoxIn U.Item a.new.memory other }
    ensures other { box_value U.Item a.new.memory other ≡ box_value U.Item a.old.memory other }
    ensures apart { AreBlocksApart other.block vec.new.raw.block }
{
    frame_law::<Box<U>>();
    vec.push(a, value)
}

/// Appends a value to a vector below its capacity. It doesn't fail, and takes no memory.
pub fn push_below<T: Item, C: ChunkSource>(
    a: &mut Allocator<C>,
    vec: &mut Vec<T>,
    value: T,
) -> Grown<()>
    requires small { T.SIZE ≤ 2 ^ 24 }
    requires held { IsVecIn T.Item a.old.memory vec.old }
    requires room { vec.old.raw.len < vec.old.raw.cap }
    ensures ok { IsOk result }
    ensures places { SamePlaces a.old a.new }
    ensures used { used_bytes a.new.memory.state ≡ used_bytes a.old.memory.state }
{
    growth_rule();
    vec.push(a, value)
}

/// Appends a value `n` times. As long as twice all values fit in 2 ^ 32 bytes, the calls together ask for at most the
/// bytes of `4 * n` values and the vector's credit.
///
/// # Errors
///
/// Those of `push`, without `CapacityOverflow` if all values fit. The values that were appended before the failure
/// stay.
pub fn push_copies<T: Item, C: ChunkSource>(
    a: &mut Allocator<C>,
    vec: &mut Vec<T>,
    value: T,
    n: u32,
) -> Grown<()>
    requires small { T.SIZE ≤ 2 ^ 24 }
    requires held { IsVecIn T.Item a.old.memory vec.old }
    ensures held { IsVecIn T.Item a.new.memory vec.new }
    ensures list { let list = vec_list T.Item a.old.memory vec.old ++ replicate n value in
        OnOk result (vec_list T.Item a.new.memory vec.new ≡ list) }
    ensures frame { Frame a.old.memory a.new.memory (vec.old.raw.block ∷ []) (vec.new.raw.block ∷ []) }
    ensures cap { vec.old.raw.cap ≤ vec.new.raw.cap }
    ensures fits { vec.old.raw.len + n < 2 ^ 32 → (vec.old.raw.len + n) * T.SIZE < 2 ^ 32
        → ¬ (result ≡ Err AllocError.CapacityOverflow) }
    ensures asks { OnOk result ((asked : ℕ) × PushesInTurn T.Item value n a.old a.new vec.old asked vec.new
        × (0 < T.SIZE → (vec.old.raw.len + n) * (2 * T.SIZE) ≤ 2 ^ 32
        → asked + credit_of T.SIZE vec.new.raw.len vec.new.raw.cap
        ≤ credit_of T.SIZE vec.old.raw.len vec.old.raw.cap + 4 * n * T.SIZE)) }
{
    vector_costs::<T, ()>();
    'copies: for _ in 0..n {
        vec.push(a, value)?;
    }
    Ok(())
}

/// The sum of a vector's numbers, cut at 64 bits.
pub fn sum_of<C: ChunkSource>(a: &Allocator<C>, vec: Vec<u32>) -> u64
    requires held { IsVecIn ⟦<u32 as Item>⟧ a.now.memory vec }
    ensures { result ≡ sum (vec_list ⟦<u32 as Item>⟧ a.now.memory vec) % 2 ^ 64 }
{
    let mut sum = 0u64;
    for x in vec.into_iter(a) {
        sum = sum.wrapping_add(x as u64);
    }
    sum
}
