// What calls that may grow a vector do to its capacity, and what they ask of the arena.
ghost use Rattle.std.specs.Prelude.{◌≡◌, ℕ, ◌+◌, ◌*◌, ◌^◌, ◌<◌, ◌≤◌, List, length, Result, Ok, Err};
ghost use Rattle.arena_chunks.specs.Source.{View};
ghost use Rattle.arena_items.specs.Room.{capacity_after};
ghost use Rattle.arena_items.specs.declared.room.AllocError.{AllocError};
ghost use Rattle.arena_vec.specs.Changes.{Grows};
ghost use Rattle.arena_vec.specs.Credit.{asked_by, credit_of};
ghost use Rattle.raw_vec.specs.Growth.{amortised_growth};
ghost use Rattle.arena_vec.specs.Vecs.{IsVecIn};
ghost use Rattle.arena_vec.specs.declared.vec.Vec.{Vec};

use arena_items::Item;

/// What amortised growth costs. If twice the values that there are after n more still fit, the bytes that are asked
/// for, with those saved up afterwards, are at most those of four times n values and those saved up before. So n values
/// that are put into a new vector, in any number of such calls, ask for at most 4 * n * size bytes together.
#[tactic(auto, using(crate::proofs::CreditLemmas::keeps, crate::proofs::CreditLemmas::asks))]
pub fn growth_costs()
    ensures keeps { (size cap required : ℕ) → cap ≤ capacity_after (amortised_growth size cap required) cap }
    ensures asks { (size cap len n : ℕ) → len ≤ cap → 0 < size → (len + n) * (2 * size) ≤ 2 ^ 32
        → asked_by size (amortised_growth size cap (len + n))
        + credit_of size (len + n) (capacity_after (amortised_growth size cap (len + n)) cap)
        ≤ credit_of size len cap + 4 * n * size }
{}

/// What a `Grows` by amortised growth says of the vector: the capacity never shrinks; a call that requires what fits is
/// never a `CapacityOverflow`; and what a call asks for, with what is saved up then, is bounded as in `growth_costs`.
#[tactic(auto, using(crate::proofs::CreditLemmas::vec_keeps))]
pub fn vector_costs<T: Item, X>()
    ensures keeps { (old new : View) (v w : Vec T) (required : ℕ) (list : List T) (result : Result X AllocError)
        → Grows T.Item old new v (amortised_growth T.SIZE v.raw.cap required) list w result → v.raw.cap ≤ w.raw.cap }
    ensures fits { (old new : View) (v w : Vec T) (required : ℕ) (list : List T) (result : Result X AllocError)
        → required < 2 ^ 32 → required * T.SIZE < 2 ^ 32
        → Grows T.Item old new v (amortised_growth T.SIZE v.raw.cap required) list w result
        → ¬ (result ≡ Err AllocError.CapacityOverflow) }
    ensures asks { (old new : View) (v w : Vec T) (n : ℕ) (list : List T) (x : X)
        → IsVecIn T.Item old.memory v → 0 < T.SIZE → length list ≡ v.raw.len + n
        → (v.raw.len + n) * (2 * T.SIZE) ≤ 2 ^ 32
        → Grows T.Item old new v (amortised_growth T.SIZE v.raw.cap (v.raw.len + n)) list w (Ok x)
        → asked_by T.SIZE (amortised_growth T.SIZE v.raw.cap (v.raw.len + n))
        + credit_of T.SIZE w.raw.len w.raw.cap ≤ credit_of T.SIZE v.raw.len v.raw.cap + 4 * n * T.SIZE }
{}
