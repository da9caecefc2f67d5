// How many bytes of the chunks are used after a block was resized.
ghost use Rattle.std.specs.Prelude.{◌≡◌, ◌≢◌, ℕ, ◌+◌, ◌-◌, ◌*◌, ◌%◌, ◌≤◌, IsTrue};
ghost use Rattle.arena_rules.specs.State.{State, IsValid, used_bytes, is_place_used};
ghost use Rattle.arena_rules.specs.Moves.{Outcome, alloc, growth};
ghost use Rattle.arena_rules.specs.Moves.Resizing.{Stays, Anew, Refused};
ghost use Rattle.arena_rules.specs.Blocks.{growing_block, grow_block, shrinking_block, shrink_block};
ghost use Rattle.arena_rules.specs.Used.{taken, unit_of, GrowsTo, ShrinksTo};
ghost use Rattle.arena_rules.specs.declared.place.Place.{Place};

/// A block that grows in place moves down, and the used bytes rise by that distance. Otherwise the block is allocated
/// again, or the call is refused and the number of used bytes doesn't change.
#[tactic(auto, using(crate::proofs::UsedResizeLemmas::grow_laws), unfolding(crate::specs::Moves::grow))]
pub fn used_by_grow()
    ensures grown { (state : State) (block : Place) (size align k q : ℕ) (outcome : Outcome) → IsValid state
        → GrowsTo state block size align q → grow_block state block size align k ≡ Some outcome
        → used_bytes outcome.state ≡ used_bytes state + (block.addr - q) }
    ensures anew { (state : State) (block : Place) (size align k : ℕ)
        → growing_block state block size align ≡ Anew
        → grow_block state block size align k ≡ alloc state size align k }
    ensures refused { (state : State) (block : Place) (size align k : ℕ) (outcome : Outcome)
        → growing_block state block size align ≡ Refused → grow_block state block size align k ≡ Some outcome
        → used_bytes outcome.state ≡ used_bytes state }
    ensures never_stays { (state : State) (block : Place) (size align : ℕ)
        → growing_block state block size align ≢ Stays }
{}

/// How far a block that grows in place moves down: by what it needs below it, plus the bytes that align its new place.
/// The distance is at least the difference of the sizes. It is larger by less than the least alignment (for the end of
/// the block) plus less than a unit (for its place), where the unit is the greater of the block's alignment and the
/// least one. It is no larger if the block is aligned, its new size is a multiple of the least alignment, and it grows
/// by whole units.
#[tactic(auto, using(crate::proofs::UsedResizeLemmas::grow_laws))]
pub fn moved_down()
    ensures takes { (state : State) (block : Place) (size align q : ℕ) → IsValid state
        → GrowsTo state block size align q
        → block.addr - q ≡ taken block.addr (growth state block.size size) (unit_of state block.align) }
    ensures lower { (state : State) (block : Place) (size align q : ℕ) → IsValid state
        → GrowsTo state block size align q
        → q ≤ block.addr }
    ensures least { (state : State) (block : Place) (size align q : ℕ) → IsValid state
        → GrowsTo state block size align q
        → size - block.size ≤ block.addr - q }
    ensures most { (state : State) (block : Place) (size align q : ℕ) → IsValid state
        → GrowsTo state block size align q
        → block.addr - q ≤ size - block.size + (state.min_align - 1) + (unit_of state block.align - 1) }
    ensures exact { (state : State) (block : Place) (size align q : ℕ) → IsValid state
        → GrowsTo state block size align q → block.addr % block.align ≡ 0 → size % state.min_align ≡ 0
        → (size - block.size) % unit_of state block.align ≡ 0
        → block.addr - q ≡ size - block.size }
    ensures exact_at_one { (state : State) (block : Place) (size align q : ℕ) → IsValid state
        → state.min_align ≡ 1 → GrowsTo state block size align q → block.addr % block.align ≡ 0
        → (size - block.size) % block.align ≡ 0
        → block.addr - q ≡ size - block.size }
{}

/// A block that shrinks in place, and is in use or empty, moves up, and the used bytes fall by that distance. Otherwise
/// it stays and the number of used bytes doesn't change, or it is allocated again.
#[tactic(auto, using(crate::proofs::UsedResizeLemmas::shrink_laws), unfolding(crate::specs::Moves::shrink))]
pub fn used_by_shrink()
    ensures shrunk { (state : State) (block : Place) (size align k q : ℕ) (outcome : Outcome) → IsValid state
        → IsTrue (is_place_used state block) → ShrinksTo state block size align q
        → shrink_block state block size align k ≡ Some outcome
        → used_bytes outcome.state + (q - block.addr) ≡ used_bytes state }
    ensures anew { (state : State) (block : Place) (size align k : ℕ)
        → shrinking_block state block size align ≡ Anew
        → shrink_block state block size align k ≡ alloc state size align k }
    ensures stays { (state : State) (block : Place) (size align k : ℕ) (outcome : Outcome)
        → shrinking_block state block size align ≡ Stays
        → shrink_block state block size align k ≡ Some outcome
        → used_bytes outcome.state ≡ used_bytes state }
    ensures never_refused { (state : State) (block : Place) (size align : ℕ)
        → shrinking_block state block size align ≢ Refused }
{}

/// How far a block that shrinks in place moves up: by at least half of its size. The distance is at most the difference
/// of the sizes, and smaller by less than a unit, where the unit is the greater of the new alignment and the least one.
/// It is no smaller if the block shrinks by whole units.
#[tactic(auto, using(crate::proofs::UsedResizeLemmas::shrink_laws))]
pub fn moved_up()
    ensures higher { (state : State) (block : Place) (size align q : ℕ) → ShrinksTo state block size align q
        → block.addr ≤ q }
    ensures half { (state : State) (block : Place) (size align q : ℕ) → ShrinksTo state block size align q
        → block.size ≤ 2 * (q - block.addr) }
    ensures most { (state : State) (block : Place) (size align q : ℕ) → ShrinksTo state block size align q
        → q - block.addr ≤ block.size - size }
    ensures least { (state : State) (block : Place) (size align q : ℕ) → IsValid state
        → ShrinksTo state block size align q
        → block.size - size ≤ q - block.addr + (unit_of state align - 1) }
    ensures exact { (state : State) (block : Place) (size align q : ℕ) → IsValid state
        → ShrinksTo state block size align q → (block.size - size) % unit_of state align ≡ 0
        → q - block.addr ≡ block.size - size }
{}
