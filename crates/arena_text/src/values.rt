// A text as a value in an arena.
ghost use Rattle.std.specs.Prelude.{ℕ, List, [], ◌∷◌, take, refl};
ghost use Rattle.std.proofs.Common.{ap};
ghost use Rattle.arena_items.specs.laws.FootprintLaws.{held_readable, held_again};
ghost use Rattle.arena_text.specs.Builders.{IsBuilderIn, builder_bytes};

use crate::text::StringBuilder;
use arena_items::InArena;

impl InArena for StringBuilder {
    ghost Meaning = { List ℕ };

    ghost footprint = { λ m t. t.block ∷ [] };

    ghost is_held = { IsBuilderIn };

    ghost means = { builder_bytes };

    ghost readable = { λ m t held. held_readable t.cap 1 m.state t.block held.place };

    ghost same_footprint = { λ a c t agree. refl };

    ghost same_meaning = { λ a c t agree. ap (take t.len) agree.0 };

    ghost held_again = { λ a c t held agree readable. record {
      place = held_again t.cap 1 a.state c.state t.block held.place readable.0;
      within = held.within;
    } };
}
