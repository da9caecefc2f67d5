// Moves: the blocks that they place, and the states that they leave.
ghost use Rattle.std.specs.Prelude.{◌≡◌, ◌≢◌, ℕ, ◌+◌, ◌-◌, ◌%◌, ◌^◌, ◌<◌, ◌≤◌, ◌↔◌, IsTrue, IsSome, false, length};
ghost use Rattle.arena_rules.specs.Rounding.{is_layout};
ghost use Rattle.arena_rules.specs.State.{State, is_min_align, IsValid, cursor_of, start_of, top_of, newest_size, used_bytes, allocated_bytes, is_range_used};
ghost use Rattle.arena_rules.specs.Search.{place, asked};
ghost use Rattle.arena_rules.specs.Moves.{Outcome, alloc, dealloc, reset, set_cursor};
ghost use Rattle.arena_rules.specs.Creation.{empty_state, fixed_state, create};
ghost use Rattle.arena_rules.specs.Blocks.{IsNewBlock, IsMovedBlock, IsBlock, LieBeside, grow_block, shrink_block};
ghost use Rattle.arena_rules.specs.State.{is_place_used};
ghost use Rattle.arena_rules.specs.declared.place.Place.{Place};

/// An allocation has a step for each number of refusals that can occur, and for no other: for 0 where there is a place,
/// and otherwise for each number up to that of the chunks to ask for, which is at most 64.
#[tactic(auto, using(crate::proofs::NewBlockLemmas::refusal_laws))]
pub fn refusals()
    ensures in_place { (state : State) (size align p k : ℕ) → place state size align ≡ Some p
        → IsSome (alloc state size align k) ↔ (k ≡ 0) }
    ensures in_new { (state : State) (size align k : ℕ) → IsValid state → IsTrue (is_layout size align)
        → place state size align ≡ None
        → IsSome (alloc state size align k) ↔ (k ≤ length (asked state size align)) }
    ensures most { (state : State) (size align : ℕ) → length (asked state size align) ≤ 64 }
{}

/// A block returned in a valid state is aligned, in use, and apart from everything that was in use, which stays in use.
/// A call that fails leaves the state as it was.
pub fn new_block()
    ensures placed { (state new : State) (size align k p : ℕ) → IsValid state → IsTrue (is_layout size align)
        → alloc state size align k ≡ Some (record { answer = Some p; state = new })
        → IsNewBlock state size align p new }
    ensures failed { (state new : State) (size align k : ℕ) → IsValid state → IsTrue (is_layout size align)
        → alloc state size align k ≡ Some (record { answer = None; state = new })
        → new ≡ state }
{}

/// Every move takes a valid state to a valid one. A block that is given back or shrunk must be in use or empty; a block
/// that grows has no precondition. A cursor that is set must be in the newest chunk, at a multiple of the least
/// alignment.
pub fn valid_moves()
    ensures by_alloc { (state : State) (size align k : ℕ) (outcome : Outcome) → IsValid state
        → IsTrue (is_layout size align) → alloc state size align k ≡ Some outcome
        → IsValid outcome.state }
    ensures by_dealloc { (state : State) (block : Place) → IsValid state → IsTrue (is_place_used state block)
        → IsValid (dealloc state block.addr block.size) }
    ensures by_shrink { (state : State) (block : Place) (size align k : ℕ) (outcome : Outcome) → IsValid state
        → IsTrue (is_place_used state block) → IsTrue (is_layout size align)
        → shrink_block state block size align k ≡ Some outcome
        → IsValid outcome.state }
    ensures by_grow { (state : State) (block : Place) (size align k : ℕ) (outcome : Outcome) → IsValid state
        → IsTrue (is_layout size align) → grow_block state block size align k ≡ Some outcome
        → IsValid outcome.state }
    ensures by_reset { (state : State) → IsValid state → IsValid (reset state) }
    ensures by_set_cursor { (state : State) (p : ℕ) → IsValid state → start_of state.chunks ≤ p
        → p ≤ top_of state.chunks → p % state.min_align ≡ 0
        → IsValid (set_cursor p state) }
{}

/// A block that shrinks or grows is returned in place of the old one: aligned and in use. Everything else that was in
/// use, apart from the old block, stays in use and is apart from the new one. A call that fails leaves the state as it
/// was.
pub fn moved_block()
    ensures shrunk { (state new : State) (block : Place) (size align k p : ℕ) → IsValid state
        → IsBlock state block → size ≤ block.size → IsTrue (is_layout size align)
        → shrink_block state block size align k ≡ Some (record { answer = Some p; state = new })
        → IsMovedBlock state block size align p new }
    ensures shrink_failed { (state new : State) (block : Place) (size align k : ℕ) → IsValid state
        → IsBlock state block → size ≤ block.size → IsTrue (is_layout size align)
        → shrink_block state block size align k ≡ Some (record { answer = None; state = new })
        → new ≡ state }
    ensures grown { (state new : State) (block : Place) (size align k p : ℕ) → IsValid state
        → IsBlock state block → IsTrue (is_layout size align)
        → grow_block state block size align k ≡ Some (record { answer = Some p; state = new })
        → IsMovedBlock state block size align p new }
    ensures grow_failed { (state new : State) (block : Place) (size align k : ℕ) → IsValid state
        → IsBlock state block → IsTrue (is_layout size align)
        → grow_block state block size align k ≡ Some (record { answer = None; state = new })
        → new ≡ state }
{}

/// Giving a block back moves the cursor if the block is at it, and changes nothing else. Whatever is in use apart from
/// the padded block (its end rounded up to the least alignment) stays in use, and nothing comes into use. Giving back
/// an empty block changes nothing.
#[tactic(auto, using(crate::proofs::ReturnLemmas::return_laws, crate::proofs::ReturnLemmas::dealloc_elsewhere))]
pub fn given_back()
    ensures min_align { (state : State) (p size : ℕ) → (dealloc state p size).min_align ≡ state.min_align }
    ensures is_growing { (state : State) (p size : ℕ) → (dealloc state p size).is_growing ≡ state.is_growing }
    ensures generation { (state : State) (p size : ℕ) → (dealloc state p size).generation ≡ state.generation }
    ensures elsewhere { (state : State) (p size : ℕ) → p ≢ cursor_of state.chunks
        → dealloc state p size ≡ state }
    ensures empty { (state : State) (p : ℕ) → IsValid state → dealloc state p 0 ≡ state }
    ensures keeps { (state : State) (p size addr n : ℕ) → 0 < n → IsTrue (is_range_used state.chunks addr n)
        → LieBeside state p size addr n
        → IsTrue (is_range_used (dealloc state p size).chunks addr n) }
    ensures fewer { (state : State) (p size addr n : ℕ) → IsValid state
        → IsTrue (is_range_used (dealloc state p size).chunks addr n)
        → IsTrue (is_range_used state.chunks addr n) }
{}

/// A new arena is in a valid state: a growing one without a chunk or with one chunk of the given capacity, and a fixed
/// one with one chunk at 4096.
pub fn first_states()
    ensures growing { (m : ℕ) → IsTrue (is_min_align m) → IsValid (empty_state m) }
    ensures with_capacity { (m capacity k : ℕ) (state : State) → IsTrue (is_min_align m)
        → create m capacity k ≡ Some (Some state)
        → IsValid state }
    ensures fixed { (m size : ℕ) → IsTrue (is_min_align m) → size % 16 ≡ 0 → size + 48 ≤ 2 ^ 63 - 16
        → IsValid (fixed_state m size) }
{}

/// A reset leaves nothing in use, keeps the newest chunk alone, and adds 1 to the generation if it is below 2 ^ 64 − 1.
#[tactic(auto, using(std::proofs::lemmas::Bool::Decides::nat_tests))]
pub fn all_given_back()
    ensures min_align { (state : State) → (reset state).min_align ≡ state.min_align }
    ensures is_growing { (state : State) → (reset state).is_growing ≡ state.is_growing }
    ensures generation { (state : State) → state.generation < 2 ^ 64 - 1
        → (reset state).generation ≡ state.generation + 1 }
    ensures unused { (state : State) (addr n : ℕ) → 0 < n
        → is_range_used (reset state).chunks addr n ≡ false }
    ensures used { (state : State) → used_bytes (reset state) ≡ 0 }
    ensures newest { (state : State) → newest_size (reset state).chunks ≡ newest_size state.chunks }
    ensures allocated { (state : State) → allocated_bytes (reset state) ≡ newest_size state.chunks }
{}
