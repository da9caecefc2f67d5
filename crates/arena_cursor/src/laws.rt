// Chunks at other addresses, and older chunks.
ghost use Rattle.std.specs.Prelude.{◌≡◌, ℕ, ◌+◌, ◌-◌, ◌%◌, ◌^◌, ◌<◌, ◌≤◌, IsTrue, List, max};
ghost use Rattle.std.specs.Option.{option_map};
ghost use Rattle.arena_rules.specs.Rounding.{is_power};
ghost use Rattle.arena_rules.specs.State.{Chunk, is_min_align};
ghost use Rattle.arena_rules.specs.Search.{asked, asked_above, next_base, place, place_below};
ghost use Rattle.arena_rules.specs.Moves.{growing, shrinking};
ghost use Rattle.arena_cursor.specs.Growing.{sizes_of};
ghost use Rattle.arena_cursor.specs.Steps.{arena_of, arena_over};
ghost use Rattle.arena_cursor.specs.declared.cursor.Cursor.{Cursor};

/// The sizes that an arena asks for don't depend on where its chunks are, below the middle of the addresses. Nor do the
/// offsets of its blocks: in a chunk that is further up by a multiple of a block's alignment, the block is as much
/// further up.
#[tactic(auto, using(crate::proofs::GrowingLemmas::address_laws))]
pub fn any_address()
    ensures sizes { (floor newest size align : ℕ) → IsTrue (is_power align) → next_base floor align ≤ 2 ^ 63
        → sizes_of (asked_above floor newest size align) ≡ sizes_of (asked_above 0 newest size align) }
    ensures places { (start cursor size align m t : ℕ) → 0 < start → IsTrue (is_power align) → IsTrue (is_min_align m)
        → t % max align m ≡ 0 → place_below (start + t) (cursor + t) size align m
        ≡ option_map (λ p. p + t) (place_below start cursor size align m) }
{}

/// What the calls say of a cursor in one chunk holds in an arena that grows, whatever its older chunks are: where a block
/// is placed, what becomes of one that is resized, and the sizes of the chunks that it asks for, below the middle of the
/// addresses.
#[tactic(auto, using(crate::proofs::GrowingLemmas::older_laws))]
pub fn any_older()
    ensures place { (at : Cursor) (n : ℕ) (older : List Chunk) (size align : ℕ)
        → place (arena_over at n older) size align ≡ place_below at.start at.cursor size align at.min_align }
    ensures grow { (at : Cursor) (n : ℕ) (older : List Chunk) (p size align new_size new_align : ℕ)
        → growing (arena_over at n older) p size align new_size new_align
        ≡ growing (arena_of at) p size align new_size new_align }
    ensures shrink { (at : Cursor) (n : ℕ) (older : List Chunk) (p size align new_size new_align : ℕ)
        → shrinking (arena_over at n older) p size align new_size new_align
        ≡ shrinking (arena_of at) p size align new_size new_align }
    ensures asked { (at : Cursor) (n : ℕ) (older : List Chunk) (size align : ℕ) → IsTrue (is_power align)
        → next_base (at.start + (at.end - at.start) + 48) align ≤ 2 ^ 63
        → sizes_of (asked (arena_over at n older) size align) ≡ sizes_of (asked_above 0 (at.end - at.start) size align) }
{}
