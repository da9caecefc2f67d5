// What is found under names, and which sets of bits there are.
ghost use Rattle.std.specs.Prelude.{◌≡◌, ℕ, ◌==◌, if◌then◌else◌, IsTrue, Some, None};
ghost use Rattle.arena_rules.specs.Bits.{with_bit, without_bit, joined, below};
ghost use Rattle.script_rules.specs.Objects.{Object, Objects, get, bind, unbind, are_rising, Bits, has, united};

/// A name holds the last object that it was given, until it is removed. Objects that agree at all names are equal.
#[tactic(auto, using(crate::proofs::LookupLemmas::entry_laws))]
pub fn entries()
    ensures bound { (objects : Objects) (name : ℕ) (o : Object) (q : ℕ)
        → get (bind objects name o) q ≡ (if q == name then Some o else get objects q) }
    ensures unbound { (objects : Objects) (name q : ℕ)
        → get (unbind objects name) q ≡ (if q == name then None else get objects q) }
    ensures same { (a b : Objects) → IsTrue (are_rising a) → IsTrue (are_rising b)
        → ((q : ℕ) → get a q ≡ get b q) → a ≡ b }
{}

/// A command on a set does to its bits what the method of the same name does to a bit set: it adds one bit, removes
/// one, or adds those bits of another set that are below an end.
#[tactic(auto, using(crate::proofs::LookupLemmas::bit_laws))]
pub fn bits()
    ensures set { (bits : Bits) (b q : ℕ) → has (bind bits b tt) q ≡ with_bit (has bits) b q }
    ensures unset { (bits : Bits) (b q : ℕ) → has (unbind bits b) q ≡ without_bit (has bits) b q }
    ensures united { (end : ℕ) (bits more : Bits) (q : ℕ)
        → has (united end bits more) q ≡ joined (has bits) (below end (has more)) q }
{}
