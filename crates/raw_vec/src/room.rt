// Room for more values.
ghost use Rattle.std.specs.Prelude.{◌≡◌, ◌+◌, ◌^◌, ◌≤◌, IfOk, OnErr};
ghost use Rattle.arena_items.specs.Room.{MakesRoom};
ghost use Rattle.raw_vec.specs.Growth.{amortised_growth};
ghost use Rattle.raw_vec.specs.Held.{IsRawIn};
ghost use Rattle.raw_vec.specs.Storage.{IsGrown};

use crate::raw::{RawVec, reserved};
use arena_chunks::{Allocator, ChunkSource};
use arena_items::{Grown, Item};

/// Returns the storage with room for `additional` more values, by amortised growth.
///
/// # Errors
///
/// As for `reserved`.
#[tactic(auto, unfolding(crate::specs::Growth::growth_to), using(crate::proofs::RoomLemmas::room_laws))]
#[inline(always)]
pub fn roomy<T: Item, C: ChunkSource>(
    a: &mut Allocator<C>,
    raw: RawVec<T>,
    additional: u64,
) -> Grown<RawVec<T>>
    requires small { T.SIZE ≤ 2 ^ 24 }
    requires held { IsRawIn T.Item a.old.memory raw }
    ensures made { let growth = amortised_growth T.SIZE raw.cap (raw.len + additional) in
        MakesRoom T.SIZE T.ALIGN a.old a.new raw.block raw.cap growth (λ r. r.block) result }
    ensures grown { let growth = amortised_growth T.SIZE raw.cap (raw.len + additional) in
        IfOk result (IsGrown T.Item a.old.memory a.new.memory raw growth) }
    ensures enough { IfOk result (λ r. raw.len + additional ≤ r.cap) }
    ensures err { OnErr result (a.new.memory ≡ a.old.memory) }
{
    reserved(a, raw, raw.len, additional, false)
}
