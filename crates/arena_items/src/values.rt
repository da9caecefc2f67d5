// What values in an arena mean, and the blocks that they name.
ghost use Rattle.std.specs.Prelude.{◌≡◌, ℕ, List, [], ◌∷◌, ◌++◌, IsTrue, refl};
ghost use Rattle.std.proofs.Common.{ap};
ghost use Rattle.arena_chunks.specs.Memory.{Memory, is_readable};
ghost use Rattle.arena_store.specs.declared.block.Block.{Block};
ghost use Rattle.arena_items.specs.Footprint.{AreReadable, Agree};
ghost use Rattle.arena_items.specs.Values.{elements, IsBoxIn, box_value, IsSliceIn, slice_list, IsTextIn, text_bytes};
ghost use Rattle.arena_items.specs.laws.FootprintLaws.{held_readable, held_again, readable_both, readable_parts, agree_parts};

use crate::boxes::Box;
use crate::item::Item;
use crate::slices::BoxSlice;
use arena_chunks::Str;

/// A value that names blocks of an arena: one, as a handle does, several, or some that depend on its variant.
pub trait InArena {
    // What values of the type mean.
    ghost Meaning: { Type 0 };

    // All blocks whose bytes the value reads: those that it names, and the texts of its keys that their bytes name.
    ghost footprint: { Memory → Self → List Block };

    // The handle is well formed and its footprint is readable.
    ghost is_held: { Memory → Self → Type 0 };

    ghost means: { Memory → Self → Meaning };

    ghost readable: { (m : Memory) (v : Self) → is_held m v → AreReadable m.state (footprint m v) };

    // In two arenas that agree on its footprint it has the same footprint and means the same.
    ghost same_footprint: { (a c : Memory) (v : Self) → Agree a c (footprint a v)
        → footprint a v ≡ footprint c v };

    ghost same_meaning: { (a c : Memory) (v : Self) → Agree a c (footprint a v) → means a v ≡ means c v };

    ghost held_again: { (a c : Memory) (v : Self) → is_held a v → Agree a c (footprint a v)
        → AreReadable c.state (footprint a v) → is_held c v };
}

impl<T: Item> InArena for Box<T> {
    ghost Meaning = { T };

    ghost footprint = { λ m b. b.block ∷ [] };

    ghost is_held = { IsBoxIn T.Item };

    ghost means = { box_value T.Item };

    ghost readable = { λ m b held. held_readable T.SIZE T.ALIGN m.state b.block held };

    ghost same_footprint = { λ a c b agree. refl };

    ghost same_meaning = { λ a c b agree. ap T.decoded agree.0 };

    ghost held_again = { λ a c b held agree readable.
        held_again T.SIZE T.ALIGN a.state c.state b.block held readable.0 };
}

impl<T: Item> InArena for BoxSlice<T> {
    ghost Meaning = { List T };

    ghost footprint = { λ m s. s.block ∷ [] };

    ghost is_held = { IsSliceIn T.Item };

    ghost means = { slice_list T.Item };

    ghost readable = { λ m s held. held_readable _ T.ALIGN m.state s.block held };

    ghost same_footprint = { λ a c s agree. refl };

    ghost same_meaning = { λ a c s agree. ap (elements T.SIZE T.decoded s.length) agree.0 };

    ghost held_again = { λ a c s held agree readable.
        held_again _ T.ALIGN a.state c.state s.block held readable.0 };
}

impl InArena for Str {
    ghost Meaning = { List ℕ };

    ghost footprint = { λ m s. s.block ∷ [] };

    ghost is_held = { IsTextIn };

    ghost means = { text_bytes };

    ghost readable = { λ m s held. (held, tt) };

    ghost same_footprint = { λ a c s agree. refl };

    ghost same_meaning = { λ a c s agree. agree.0 };

    ghost held_again = { λ a c s held agree readable. readable.0 };
}

/// Two values at once, such as the parts of a larger one: they name the blocks of both.
impl<V: InArena, W: InArena> InArena for (V, W) {
    ghost Meaning = { V.Meaning × W.Meaning };

    ghost footprint = { λ m p. V.footprint m p.0 ++ W.footprint m p.1 };

    ghost is_held = { λ m p. V.is_held m p.0 × W.is_held m p.1 };

    ghost means = { λ m p. (V.means m p.0, W.means m p.1) };

    ghost readable = { λ m p held. readable_both m.state (V.footprint m p.0) (W.footprint m p.1)
        (V.readable m p.0 held.0) (W.readable m p.1 held.1) };

    ghost same_footprint = { λ a c p agree.
        let parts = agree_parts a c (V.footprint a p.0) (W.footprint a p.1) agree in
        λ i. V.same_footprint a c p.0 parts.0 i ++ W.same_footprint a c p.1 parts.1 i };

    ghost same_meaning = { λ a c p agree.
        let parts = agree_parts a c (V.footprint a p.0) (W.footprint a p.1) agree in
        λ i. (V.same_meaning a c p.0 parts.0 i, W.same_meaning a c p.1 parts.1 i) };

    ghost held_again = { λ a c p held agree readable.
        let parts = agree_parts a c (V.footprint a p.0) (W.footprint a p.1) agree in
        let again = readable_parts c.state (V.footprint a p.0) (W.footprint a p.1) readable in
        (V.held_again a c p.0 held.0 parts.0 again.0, W.held_again a c p.1 held.1 parts.1 again.1) };
}
