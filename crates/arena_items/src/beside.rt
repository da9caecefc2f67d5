// Two values beside each other as one.
ghost use Rattle.std.specs.Prelude.{◌++◌};
ghost use Rattle.std.proofs.Common.{subst};
ghost use Rattle.arena_chunks.specs.Frame.{AreAllApart};
ghost use Rattle.arena_items.specs.laws.FootprintLaws.{readable_both, readable_parts, agree_parts};
ghost use Rattle.arena_items.specs.Beside.{AreBeside};

use crate::values::InArena;

/// Two values of one arena whose blocks are apart: it is held exactly if they are, and are.
#[derive(Clone, Copy)]
pub struct Beside<V, W> {
    pub first: V,
    pub second: W,
}

impl<V: InArena, W: InArena> InArena for Beside<V, W> {
    ghost Meaning = { V.Meaning × W.Meaning };

    ghost footprint = { λ m p. V.footprint m p.first ++ W.footprint m p.second };

    ghost is_held = { λ m p. AreBeside V.InArena W.InArena m p.first p.second };

    ghost means = { λ m p. (V.means m p.first, W.means m p.second) };

    ghost readable = { λ m p held. readable_both m.state (V.footprint m p.first) (W.footprint m p.second)
        (V.readable m p.first held.first) (W.readable m p.second held.second) };

    ghost same_footprint = { λ a c p agree.
        let parts = agree_parts a c (V.footprint a p.first) (W.footprint a p.second) agree in
        λ i. V.same_footprint a c p.first parts.0 i ++ W.same_footprint a c p.second parts.1 i };

    ghost same_meaning = { λ a c p agree.
        let parts = agree_parts a c (V.footprint a p.first) (W.footprint a p.second) agree in
        λ i. (V.same_meaning a c p.first parts.0 i, W.same_meaning a c p.second parts.1 i) };

    ghost held_again = { λ a c p held agree readable.
        let parts = agree_parts a c (V.footprint a p.first) (W.footprint a p.second) agree in
        let again = readable_parts c.state (V.footprint a p.first) (W.footprint a p.second) readable in
        record {
          first = V.held_again a c p.first held.first parts.0 again.0;
          second = W.held_again a c p.second held.second parts.1 again.1;
          apart = subst (λ bs. AreAllApart bs (W.footprint c p.second)) (V.same_footprint a c p.first parts.0)
              (subst (λ bs. AreAllApart (V.footprint a p.first) bs) (W.same_footprint a c p.second parts.1) held.apart);
        } };
}
