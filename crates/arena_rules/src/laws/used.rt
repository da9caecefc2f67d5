// How many bytes of the chunks are used after each move, and which addresses are in use.
ghost use Rattle.std.specs.Prelude.{◌≡◌, ◌≢◌, ℕ, ◌+◌, ◌-◌, ◌%◌, ◌^◌, ◌<◌, ◌≤◌, IsTrue};
ghost use Rattle.arena_rules.specs.Rounding.{is_layout};
ghost use Rattle.arena_rules.specs.State.{State, IsValid, start_of, cursor_of, top_of, used_bytes, allocated_bytes, is_range_used};
ghost use Rattle.arena_rules.specs.Search.{place};
ghost use Rattle.arena_rules.specs.Moves.{alloc, dealloc, set_cursor};
ghost use Rattle.arena_rules.specs.Creation.{empty_state, fixed_state, create};
ghost use Rattle.arena_rules.specs.State.{is_place_used};
ghost use Rattle.arena_rules.specs.Blocks.{padded_size};
ghost use Rattle.arena_rules.specs.Used.{taken, unit_of, placed_below};
ghost use Rattle.arena_rules.specs.declared.place.Place.{Place};

/// Below a cursor, a size takes at least itself, and less than a unit more, to reach a multiple of the unit. From a
/// multiple, a whole number of units takes exactly its size.
#[tactic(auto, using(crate::proofs::RoundingLemmas::rounding_laws, crate::proofs::UsedBytesLemmas::taken_exact))]
pub fn taken_bytes()
    ensures least { (cursor size unit : ℕ) → size ≤ cursor → size ≤ taken cursor size unit }
    ensures most { (cursor size unit : ℕ) → 0 < unit → size ≤ cursor
        → taken cursor size unit ≤ size + (unit - 1) }
    ensures exact { (cursor size unit : ℕ) → 0 < unit → size ≤ cursor → cursor % unit ≡ 0 → size % unit ≡ 0
        → taken cursor size unit ≡ size }
{}

/// A new block takes its size below the cursor, or below the data end of a new chunk, and less than a unit more: the
/// greater of its alignment and the least one. It takes exactly its size if that is a whole number of units, and the
/// cursor is a multiple of the unit, or the chunk is new and the alignment at most 16. A call that fails doesn't change
/// the number of used bytes.
#[tactic(auto, using(crate::proofs::UsedBytesLemmas::used_laws))]
pub fn used_by_alloc()
    ensures takes { (state new : State) (size align k p : ℕ) → IsValid state → IsTrue (is_layout size align)
        → alloc state size align k ≡ Some (record { answer = Some p; state = new })
        → let from = placed_below (place state size align) state new in
        used_bytes new ≡ used_bytes state + taken from size (unit_of state align) }
    ensures least { (state new : State) (size align k p : ℕ) → IsValid state → IsTrue (is_layout size align)
        → alloc state size align k ≡ Some (record { answer = Some p; state = new })
        → used_bytes state + size ≤ used_bytes new }
    ensures most { (state new : State) (size align k p : ℕ) → IsValid state → IsTrue (is_layout size align)
        → alloc state size align k ≡ Some (record { answer = Some p; state = new })
        → used_bytes new ≤ used_bytes state + size + (unit_of state align - 1) }
    ensures exact { (state new : State) (size align k p spot : ℕ) → IsValid state
        → IsTrue (is_layout size align) → place state size align ≡ Some spot
        → cursor_of state.chunks % unit_of state align ≡ 0 → size % unit_of state align ≡ 0
        → alloc state size align k ≡ Some (record { answer = Some p; state = new })
        → used_bytes new ≡ used_bytes state + size }
    ensures exact_in_new { (state new : State) (size align k p : ℕ) → IsValid state
        → IsTrue (is_layout size align) → place state size align ≡ None → align ≤ 16
        → size % unit_of state align ≡ 0
        → alloc state size align k ≡ Some (record { answer = Some p; state = new })
        → used_bytes new ≡ used_bytes state + size }
    ensures failed { (state new : State) (size align k : ℕ) → IsValid state → IsTrue (is_layout size align)
        → alloc state size align k ≡ Some (record { answer = None; state = new })
        → used_bytes new ≡ used_bytes state }
{}

/// A block at the cursor that is given back frees its size up to the next multiple of the least alignment: its size,
/// and less than the least alignment more. Any other frees nothing. Setting the cursor higher lowers the number of used
/// bytes by the distance, and setting it lower raises it.
#[tactic(auto, using(crate::proofs::UsedResizeLemmas::dealloc_laws))]
pub fn used_by_dealloc()
    ensures last { (state : State) (block : Place) → IsValid state → IsTrue (is_place_used state block)
        → block.addr ≡ cursor_of state.chunks
        → used_bytes (dealloc state block.addr block.size) + padded_size state.min_align block.addr block.size
        ≡ used_bytes state }
    ensures elsewhere { (state : State) (p size : ℕ) → p ≢ cursor_of state.chunks
        → used_bytes (dealloc state p size) ≡ used_bytes state }
    ensures padded_least { (m p size : ℕ) → 0 < m → size ≤ padded_size m p size }
    ensures padded_most { (m p size : ℕ) → 0 < m → padded_size m p size ≤ size + (m - 1) }
    ensures padded_exact { (m p size : ℕ) → 0 < m → p % m ≡ 0 → size % m ≡ 0 → padded_size m p size ≡ size }
    ensures by_set_cursor { (state : State) (p : ℕ) → IsValid state → start_of state.chunks ≤ p
        → p ≤ top_of state.chunks
        → used_bytes (set_cursor p state) + p ≡ used_bytes state + cursor_of state.chunks }
{}

/// Addresses in use are at least 4096, and end at or below the newest chunk's data end. All are below 2 ^ 64.
#[tactic(auto, using(crate::proofs::UsedLemmas::used_low, crate::proofs::UsedLemmas::used_high, crate::proofs::CursorLemmas::top_le))]
pub fn used_addresses()
    ensures low { (state : State) (addr n : ℕ) → IsValid state → 0 < n
        → IsTrue (is_range_used state.chunks addr n)
        → 4096 ≤ addr }
    ensures high { (state : State) (addr n : ℕ) → IsValid state → 0 < n
        → IsTrue (is_range_used state.chunks addr n)
        → addr + n ≤ top_of state.chunks }
    ensures below_last { (state : State) (addr n : ℕ) → IsValid state → 0 < n
        → IsTrue (is_range_used state.chunks addr n)
        → addr + n < 2 ^ 64 }
{}

/// A new arena has no byte in use.
#[tactic(auto, using(crate::proofs::CreationLemmas::created_unused))]
pub fn unused_at_first()
    ensures growing { (m : ℕ) → used_bytes (empty_state m) ≡ 0 }
    ensures with_capacity { (m capacity k : ℕ) (state : State) → create m capacity k ≡ Some (Some state)
        → used_bytes state ≡ 0 }
    ensures fixed { (m size : ℕ) → used_bytes (fixed_state m size) ≡ 0 }
{}

/// The used bytes are at most those of the chunks, which are between 4096 and the last address.
#[tactic(auto, using(crate::proofs::UsedBytesLemmas::used_within, crate::proofs::UsedBytesLemmas::allocated_within))]
pub fn bytes_within()
    ensures used { (state : State) → IsValid state → used_bytes state ≤ allocated_bytes state }
    ensures allocated { (state : State) → IsValid state → allocated_bytes state + 4096 < 2 ^ 64 }
{}
