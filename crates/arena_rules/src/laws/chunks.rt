// How an arena's chunks grow.
ghost use Rattle.std.specs.Prelude.{◌≡◌, ℕ, ◌-◌, ◌*◌, ◌^◌, ◌≤◌, IsTrue, true, Some, slice_get, length};
ghost use Rattle.arena_rules.specs.State.{State, newest_size, allocated_bytes};
ghost use Rattle.arena_rules.specs.Search.{asked};
ghost use Rattle.arena_rules.specs.Moves.{Outcome, Resizing, alloc, dealloc, resize, reset, set_cursor};
ghost use Rattle.arena_rules.specs.Blocks.{growing_block, grow_block, shrinking_block, shrink_block};
ghost use Rattle.arena_rules.specs.Doubling.{IsDoubling, oldest_size, first_entry, is_made_first, is_resize_made_first};
ghost use Rattle.arena_rules.specs.declared.place.Place.{Place};

/// `n` chunks that double have at least z · (2 ^ n − 1) bytes, where z is the least size of a chunk, or the size of the
/// oldest one. The newest chunk has at least half of all bytes, so a reset keeps at least half.
///
/// The chunk for the first size that is tried, if it is possible, is the first one that a growing arena asks for.
/// Chunks still double after an allocation that makes no chunk, or whose chunk is that one and was granted at once.
pub fn doubling()
    ensures sum { (z : ℕ) (state : State) → IsDoubling z state.chunks
        → z * (2 ^ length state.chunks - 1) ≤ allocated_bytes state }
    ensures from_oldest { (state : State) → IsDoubling 0 state.chunks
        → oldest_size state.chunks * (2 ^ length state.chunks - 1) ≤ allocated_bytes state }
    ensures newest { (z : ℕ) (state : State) → IsDoubling z state.chunks
        → allocated_bytes state ≤ 2 * newest_size state.chunks }
    ensures reset_doubles { (z : ℕ) (state : State) → IsDoubling z state.chunks
        → IsDoubling z (reset state).chunks }
    ensures reset_keeps { (z : ℕ) (state : State) → IsDoubling z state.chunks
        → allocated_bytes state ≤ 2 * allocated_bytes (reset state) }
    ensures first { (state : State) (size align : ℕ) (e : ℕ × ℕ) → state.is_growing ≡ true
        → first_entry state size align ≡ Some e
        → slice_get (asked state size align) 0 ≡ Some e }
    ensures by_alloc { (z : ℕ) (state : State) (size align k : ℕ) (outcome : Outcome) → z ≤ 16320
        → IsDoubling z state.chunks → alloc state size align k ≡ Some outcome
        → IsTrue (is_made_first state size align k)
        → IsDoubling z outcome.state.chunks }
{}

/// Chunks still double after a block is resized, if the call makes no chunk or makes it at the first size that is
/// tried. Giving a block back and setting a cursor make no chunk.
pub fn doubling_moves()
    ensures by_resize { (z : ℕ) (way : Resizing) (state : State) (p size align k : ℕ) (outcome : Outcome)
        → z ≤ 16320 → IsDoubling z state.chunks → resize way state p size align k ≡ Some outcome
        → IsTrue (is_resize_made_first way state size align k)
        → IsDoubling z outcome.state.chunks }
    ensures by_grow { (z : ℕ) (state : State) (block : Place) (size align k : ℕ) (outcome : Outcome)
        → z ≤ 16320 → IsDoubling z state.chunks → grow_block state block size align k ≡ Some outcome
        → IsTrue (is_resize_made_first (growing_block state block size align) state size align k)
        → IsDoubling z outcome.state.chunks }
    ensures by_shrink { (z : ℕ) (state : State) (block : Place) (size align k : ℕ) (outcome : Outcome)
        → z ≤ 16320 → IsDoubling z state.chunks → shrink_block state block size align k ≡ Some outcome
        → IsTrue (is_resize_made_first (shrinking_block state block size align) state size align k)
        → IsDoubling z outcome.state.chunks }
    ensures by_dealloc { (z p size : ℕ) (state : State) → IsDoubling z state.chunks
        → IsDoubling z (dealloc state p size).chunks }
    ensures by_set_cursor { (z p : ℕ) (state : State) → IsDoubling z state.chunks
        → IsDoubling z (set_cursor p state).chunks }
{}
