// Going back to a mark.
ghost use Rattle.std.specs.Prelude.{◌≡◌, ℕ, ◌≤◌, IsTrue, Some};
ghost use Rattle.arena_rules.specs.State.{State, IsValid, used_bytes, is_range_used};
ghost use Rattle.arena_rules.specs.Doubling.{IsDoubling};
ghost use Rattle.arena_rules.specs.Moves.{Outcome, Resizing, alloc, resize, dealloc};
ghost use Rattle.arena_rules.specs.Back.{Point, mark_of, back, accepts, KeepsMark};

/// Going back to an accepted mark takes a valid state to a valid one, and brings nothing into use. Chunks that double
/// still do. A valid state accepts its own mark, and going back to it at once changes nothing.
#[tactic(auto, using(crate::proofs::BackLemmas::back_laws))]
pub fn sent_back()
    ensures valid { (mark : Point) (state : State) → IsValid state → IsTrue (accepts mark state)
        → IsValid (back mark state) }
    ensures min_align { (mark : Point) (state : State) → (back mark state).min_align ≡ state.min_align }
    ensures is_growing { (mark : Point) (state : State) → (back mark state).is_growing ≡ state.is_growing }
    ensures generation { (mark : Point) (state : State) → (back mark state).generation ≡ state.generation }
    ensures fewer { (mark : Point) (state : State) (addr n : ℕ)
        → IsTrue (is_range_used (back mark state).chunks addr n)
        → IsTrue (is_range_used state.chunks addr n) }
    ensures used { (mark : Point) (state : State) → used_bytes (back mark state) ≤ used_bytes state }
    ensures doubling { (z : ℕ) (mark : Point) (state : State) → IsDoubling z state.chunks
        → IsDoubling z (back mark state).chunks }
    ensures own { (state : State) → IsValid state → IsTrue (accepts (mark_of state) state) }
    ensures at_once { (state : State) → back (mark_of state) state ≡ state }
{}

/// An accepted mark is kept by every allocation, resize and deallocation, and by going back to a mark with at least as
/// many chunks: it is still accepted, and what is in use before and after the call stays in its part, if it was there.
pub fn kept_marks()
    ensures alloc { (mark : Point) (state : State) (size align k : ℕ) (outcome : Outcome)
        → IsTrue (accepts mark state) → alloc state size align k ≡ Some outcome
        → KeepsMark mark state outcome.state }
    ensures resize { (mark : Point) (way : Resizing) (state : State) (p size align k : ℕ) (outcome : Outcome)
        → IsTrue (accepts mark state) → resize way state p size align k ≡ Some outcome
        → KeepsMark mark state outcome.state }
    ensures dealloc { (mark : Point) (state : State) (p size : ℕ) → IsTrue (accepts mark state)
        → KeepsMark mark state (dealloc state p size) }
    ensures back { (older newer : Point) (state : State) → older.chunks ≤ newer.chunks
        → IsTrue (accepts older state) → IsTrue (accepts newer state)
        → KeepsMark older state (back newer state) }
{}
