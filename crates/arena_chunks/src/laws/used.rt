// How many bytes calls bring into use, and how chunks grow.
ghost use Rattle.std.specs.Prelude.{◌≡◌, ◌≢◌, ℕ, ◌+◌, ◌-◌, ◌%◌, ◌≤◌, false, IsTrue, List};
ghost use Rattle.arena_rules.specs.Rounding.{is_layout};
ghost use Rattle.arena_rules.specs.State.{State, IsValid, cursor_of, used_bytes, allocated_bytes};
ghost use Rattle.arena_rules.specs.Moves.{Resizing, reset};
ghost use Rattle.arena_rules.specs.Moves.Resizing.{Stays, Moves, Anew};
ghost use Rattle.arena_rules.specs.Blocks.{padded_size};
ghost use Rattle.arena_rules.specs.Used.{unit_of};
ghost use Rattle.arena_rules.specs.Doubling.{IsDoubling, is_made_first, is_resize_made_first};
ghost use Rattle.arena_store.specs.Memory.{Memory, is_readable};
ghost use Rattle.arena_store.specs.Source.{View};
ghost use Rattle.arena_core.specs.Answers.Answer.{Placed};
ghost use Rattle.arena_core.specs.BlockCalls.{PlacesBlock, PlacesAfter, ResizesBlock, ResizesAfter, GrowsBlock, ShrinksBlock, GivesBack, WritesBlock, growing_of, shrinking_of};
ghost use Rattle.arena_store.specs.declared.block.Block.{Block};

/// A new block brings its size into use, and less than a unit more: the greater of its alignment and the least one. It
/// brings exactly its size if that and the cursor are multiples of the unit, and the alignment is at most 16.
pub fn used_by_placing()
    ensures least { (old new : View) (size align : ℕ) (b : Block) → IsTrue (is_layout size align)
        → PlacesBlock old new size align (Placed b)
        → used_bytes old.memory.state + size ≤ used_bytes new.memory.state }
    ensures most { (old new : View) (size align : ℕ) (b : Block) → IsTrue (is_layout size align)
        → PlacesBlock old new size align (Placed b)
        → used_bytes new.memory.state ≤ used_bytes old.memory.state + size +
        (unit_of old.memory.state align - 1) }
    ensures exact { (old new : View) (size align : ℕ) (b : Block) → IsTrue (is_layout size align) → align ≤ 16
        → size % unit_of old.memory.state align ≡ 0
        → cursor_of old.memory.state.chunks % unit_of old.memory.state align ≡ 0
        → PlacesBlock old new size align (Placed b)
        → used_bytes new.memory.state ≡ used_bytes old.memory.state + size }
{}

/// A block that grows in place brings into use what it grows by, and a little more: less than the least alignment for
/// its end, and less than a unit for its place. A block that shrinks in place frees as many bytes as it moves up. One
/// that is allocated again is a new block, and one that stays changes nothing. So a block that grows, whichever way, to
/// at least its alignment, brings at most its new size into use, with the padding of its end and of its place.
pub fn used_by_resizing()
    ensures grown_least { (old new : View) (block b : Block) (size align q : ℕ)
        → GrowsBlock old new block size align (Placed b) → growing_of old.memory block size align ≡ Moves q
        → used_bytes old.memory.state + (size - block.size) ≤ used_bytes new.memory.state }
    ensures grown_most { (old new : View) (block b : Block) (size align q : ℕ)
        → GrowsBlock old new block size align (Placed b) → growing_of old.memory block size align ≡ Moves q
        → used_bytes new.memory.state ≤ used_bytes old.memory.state + (size - block.size)
        + (old.memory.state.min_align - 1) + (unit_of old.memory.state block.align - 1) }
    ensures grown_exact { (old new : View) (block b : Block) (size align q : ℕ)
        → GrowsBlock old new block size align (Placed b) → growing_of old.memory block size align ≡ Moves q
        → block.addr % block.align ≡ 0 → size % old.memory.state.min_align ≡ 0
        → (size - block.size) % unit_of old.memory.state block.align ≡ 0
        → used_bytes new.memory.state ≡ used_bytes old.memory.state + (size - block.size) }
    ensures grown { (old new : View) (block b : Block) (size align : ℕ) → IsTrue (is_layout size align)
        → block.align ≤ align → GrowsBlock old new block size align (Placed b)
        → used_bytes new.memory.state ≤ used_bytes old.memory.state + size
        + (old.memory.state.min_align - 1) + (unit_of old.memory.state align - 1) }
    ensures shrunk { (old new : View) (block b : Block) (size align q : ℕ)
        → IsTrue (is_readable old.memory.state block)
        → ShrinksBlock old new block size align (Placed b)
        → shrinking_of old.memory block size align ≡ Moves q
        → used_bytes new.memory.state + (q - block.addr) ≡ used_bytes old.memory.state }
    ensures stays { (old new : View) (block b : Block) (size align : ℕ)
        → ResizesBlock Stays old new block size align (Placed b)
        → used_bytes new.memory.state ≡ used_bytes old.memory.state }
    ensures anew_least { (old new : View) (block b : Block) (size align : ℕ) → IsTrue (is_layout size align)
        → ResizesBlock Anew old new block size align (Placed b)
        → used_bytes old.memory.state + size ≤ used_bytes new.memory.state }
    ensures anew_most { (old new : View) (block b : Block) (size align : ℕ) → IsTrue (is_layout size align)
        → ResizesBlock Anew old new block size align (Placed b)
        → used_bytes new.memory.state ≤ used_bytes old.memory.state + size +
        (unit_of old.memory.state align - 1) }
{}

/// Giving a block at the cursor back frees its bytes up to the next multiple of the least alignment; with least
/// alignment 1 these are its size. Giving any other block back frees none. A write doesn't change the number of used
/// bytes. A reset frees all bytes, and an arena that doesn't grow keeps all its bytes.
#[tactic(auto, using(crate::proofs::UsedByCallLemmas::given_back_laws))]
pub fn used_by_giving_back()
    ensures last { (old new : Memory) (b : Block) → IsTrue (is_readable old.state b) → GivesBack old new b
        → b.addr ≡ cursor_of old.state.chunks
        → used_bytes new.state + padded_size old.state.min_align b.addr b.size ≡ used_bytes old.state }
    ensures plain { (old new : Memory) (b : Block) → IsTrue (is_readable old.state b) → GivesBack old new b
        → b.addr ≡ cursor_of old.state.chunks → old.state.min_align ≡ 1
        → used_bytes new.state + b.size ≡ used_bytes old.state }
    ensures elsewhere { (old new : Memory) (b : Block) → GivesBack old new b
        → b.addr ≢ cursor_of old.state.chunks
        → used_bytes new.state ≡ used_bytes old.state }
    ensures written { (old new : Memory) (b : Block) (at : ℕ) (list : List ℕ) → WritesBlock old new b at list
        → used_bytes new.state ≡ used_bytes old.state }
    ensures reset { (state : State) → used_bytes (reset state) ≡ 0 }
    ensures reset_keeps { (state : State) → IsValid state → state.is_growing ≡ false
        → allocated_bytes (reset state) ≡ allocated_bytes state }
{}

/// Chunks that double still do after each call that makes no chunk, or makes it at once at the first size tried.
pub fn doubling()
    ensures placed { (z : ℕ) (old new : View) (size align k : ℕ) (b : Block) → z ≤ 16320
        → PlacesAfter old new size align k (Placed b) → IsTrue (is_made_first old.memory.state size align k)
        → IsDoubling z old.memory.state.chunks → IsDoubling z new.memory.state.chunks }
    ensures resized { (z : ℕ) (way : Resizing) (old new : View) (block b : Block) (size align k : ℕ)
        → z ≤ 16320
        → ResizesAfter way old new block size align k (Placed b)
        → IsTrue (is_resize_made_first way old.memory.state size align k)
        → IsDoubling z old.memory.state.chunks → IsDoubling z new.memory.state.chunks }
    ensures given_back { (z : ℕ) (old new : Memory) (b : Block) → GivesBack old new b
        → IsDoubling z old.state.chunks → IsDoubling z new.state.chunks }
    ensures written { (z : ℕ) (old new : Memory) (b : Block) (at : ℕ) (list : List ℕ)
        → WritesBlock old new b at list
        → IsDoubling z old.state.chunks → IsDoubling z new.state.chunks }
{}
