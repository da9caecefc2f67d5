// Room in the block of a text.
ghost use Rattle.std.specs.Prelude.{◌≡◌, ◌+◌, ◌*◌, ◌^◌, ◌<◌, ◌≤◌, IfOk, OnErr};
ghost use Rattle.arena_items.specs.Room.{MakesRoom};
ghost use Rattle.arena_text.specs.Growth.{amortised_growth, IsMore};
ghost use Rattle.arena_text.specs.Builders.{IsBuilderIn};
ghost use Rattle.arena_text.specs.Changes.{IsGrown};

use crate::growth::plan;
use crate::text::StringBuilder;
use arena_chunks::{Allocator, ChunkSource};
use arena_items::{AllocError, Grown, Growth, take_room};
use arena_place::Layout;

// Returns the layout of `n` bytes.
#[tactic(auto, using(crate::proofs::RoomLemmas::bytes_layout))]
fn layout_of(n: u64) -> Layout
    requires { n < 2 ^ 63 }
    ensures size { result.size ≡ n * 1 }
    ensures align { result.align ≡ 1 }
{
    Layout::of(n, 1)
}

// Returns the text after a growth.
#[tactic(auto, using(crate::proofs::RoomLemmas::growths))]
pub(crate) fn grown<C: ChunkSource>(
    a: &mut Allocator<C>,
    old: StringBuilder,
    growth: Growth,
) -> Grown<StringBuilder>
    requires held { IsBuilderIn a.old.memory old }
    requires more { IsMore old.cap growth }
    ensures made { MakesRoom 1 1 a.old a.new old.block old.cap growth (λ t. t.block) result }
    ensures grown { IfOk result (IsGrown a.old.memory a.new.memory old growth) }
    ensures err { OnErr result (a.new.memory ≡ a.old.memory) }
{
    match growth {
        Growth::Stays => Ok(old),
        Growth::Overflows => Err(AllocError::CapacityOverflow),
        Growth::GrowsTo { cap } => {
            let block = take_room(a, old.block, old.cap, layout_of(cap))?;
            Ok(StringBuilder {
                block,
                len: old.len,
                cap,
            })
        }
    }
}

// Returns the text with more room than it has. Out of line, so that a call with room is small.
#[tactic(auto, using(crate::proofs::RoomLemmas::growths))]
#[cold]
#[inline(never)]
fn reserved<C: ChunkSource>(
    a: &mut Allocator<C>,
    old: StringBuilder,
    additional: u64,
) -> Grown<StringBuilder>
    requires held { IsBuilderIn a.old.memory old }
    ensures made { let growth = amortised_growth old.cap old.len additional in
        MakesRoom 1 1 a.old a.new old.block old.cap growth (λ t. t.block) result }
    ensures grown { let growth = amortised_growth old.cap old.len additional in
        IfOk result (IsGrown a.old.memory a.new.memory old growth) }
    ensures enough { IfOk result (λ t. old.len + additional ≤ t.cap) }
    ensures err { OnErr result (a.new.memory ≡ a.old.memory) }
{
    let growth = plan(old.cap, old.len, additional);
    grown(a, old, growth)
}

// Returns the text with room for `additional` more bytes.
#[tactic(auto, unfolding(crate::specs::Growth::growth_to), using(crate::proofs::RoomLemmas::growths))]
#[inline]
pub(crate) fn roomy<C: ChunkSource>(
    a: &mut Allocator<C>,
    old: StringBuilder,
    additional: u64,
) -> Grown<StringBuilder>
    requires held { IsBuilderIn a.old.memory old }
    ensures made { let growth = amortised_growth old.cap old.len additional in
        MakesRoom 1 1 a.old a.new old.block old.cap growth (λ t. t.block) result }
    ensures grown { let growth = amortised_growth old.cap old.len additional in
        IfOk result (IsGrown a.old.memory a.new.memory old growth) }
    ensures enough { IfOk result (λ t. old.len + additional ≤ t.cap) }
    ensures err { OnErr result (a.new.memory ≡ a.old.memory) }
{
    if additional <= old.cap - old.len {
        return Ok(old);
    }
    // Written out, since otherwise the compiler stores the handle at each call for the growth, which is rare.
    let full = StringBuilder {
        block: old.block,
        len: old.len,
        cap: old.cap,
    };
    reserved(a, full, additional)
}
