// What the handle of a bit set means.
ghost use Rattle.std.specs.Prelude.{[], ◌∷◌, refl};
ghost use Rattle.std.proofs.Common.{ap};
ghost use Rattle.std.specs.Int.{from_le_bytes, w64};
ghost use Rattle.arena_items.specs.laws.FootprintLaws.{held_readable, held_again};
ghost use Rattle.arena_items.specs.Values.{elements};
ghost use Rattle.arena_bits.specs.Bits.{Set, bits_of};
ghost use Rattle.arena_bits.specs.Sets.{IsSetIn, set_of};

use crate::set::BitSet;
use arena_items::InArena;

impl InArena for BitSet {
    ghost Meaning = { Set };

    ghost footprint = { λ m s. s.words.block ∷ [] };

    ghost is_held = { IsSetIn };

    ghost means = { set_of };

    ghost readable = { λ m s held. held_readable _ 8 m.state s.words.block held.place };

    ghost same_footprint = { λ a c s agree. refl };

    ghost same_meaning = { λ a c s agree.
        ap (λ bytes. bits_of (elements 8 (from_le_bytes w64) s.words.length bytes)) agree.0 };

    ghost held_again = { λ a c s held agree readable. record {
      place = held_again _ 8 a.state c.state s.words.block held.place readable.0;
      count = held.count;
    } };
}
