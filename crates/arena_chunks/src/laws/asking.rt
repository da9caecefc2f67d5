// What calls on blocks ask the source for, and why they are refused.
ghost use Rattle.std.specs.Prelude.{◌≡◌, ℕ, ◌+◌, ◌-◌, ◌^◌, ◌<◌, ◌≤◌, true, false, IsTrue};
ghost use Rattle.arena_rules.specs.Rounding.{is_layout, is_power};
ghost use Rattle.arena_rules.specs.State.{allocated_bytes, top_of, used_bytes};
ghost use Rattle.arena_rules.specs.Moves.{Resizing};
ghost use Rattle.arena_rules.specs.Used.{unit_of};
ghost use Rattle.arena_store.specs.Source.{View};
ghost use Rattle.arena_chunks.specs.Asking.{AsksWithin, IsRefusedBySource, IsFull};
ghost use Rattle.arena_core.specs.Answers.{Answer};
ghost use Rattle.arena_core.specs.Answers.Answer.{Refused};
ghost use Rattle.arena_core.specs.BlockCalls.{PlacesBlock, ResizesBlock, GrowsBlock, ShrinksBlock, GivesBack};
ghost use Rattle.arena_store.specs.declared.block.Block.{Block};

/// A call on a block that needs at most this many bytes in use, with the block's padding, asks for chunks of at most
/// twice as many and five pages, and frees no chunk. A call that moves no cursor or gives a block back asks for none.
pub fn asks()
    ensures placed { (bytes : ℕ) (old new : View) (size align : ℕ) (answer : Answer) → IsTrue (is_layout size align)
        → align ≤ 16 → used_bytes old.memory.state + size + (unit_of old.memory.state align - 1) ≤ bytes
        → PlacesBlock old new size align answer → AsksWithin bytes old new }
    ensures resized { (bytes : ℕ) (way : Resizing) (old new : View) (block : Block) (size align : ℕ)
        (answer : Answer) → IsTrue (is_layout size align) → align ≤ 16
        → used_bytes old.memory.state + size + (unit_of old.memory.state align - 1) ≤ bytes
        → ResizesBlock way old new block size align answer → AsksWithin bytes old new }
    ensures given_back { (bytes : ℕ) (old new : View) (b : Block) → GivesBack old.memory new.memory b
        → new.source ≡ old.source → AsksWithin bytes old new }
    ensures nothing { (bytes : ℕ) (old new : View) → new.memory.state ≡ old.memory.state → new.source ≡ old.source
        → AsksWithin bytes old new }
{}

/// If a growing arena has no place for a block of at most 2^60 bytes, its source has refused, unless its newest data
/// end is above 2^63 + 2^62. This holds for a new block of any size, if the arena has less than 2^60 bytes and that end
/// is at most 2^62 + 2^61.
pub fn starved()
    ensures placed { (old new : View) (size align k : ℕ) → IsTrue (is_layout size align) → align ≤ 16
        → size ≤ 2 ^ 60 → old.memory.state.is_growing ≡ true → PlacesBlock old new size align (Refused k)
        → top_of old.memory.state.chunks ≤ 2 ^ 63 + 2 ^ 62 → IsRefusedBySource old new }
    ensures any_size { (old new : View) (size align k : ℕ) → IsTrue (is_layout size align) → align ≤ 16
        → size + 64 ≤ 2 ^ 63 → old.memory.state.is_growing ≡ true → PlacesBlock old new size align (Refused k)
        → allocated_bytes old.memory.state < 2 ^ 60 → top_of old.memory.state.chunks ≤ 2 ^ 62 + 2 ^ 61
        → IsRefusedBySource old new }
    ensures grown { (old new : View) (block : Block) (size align k : ℕ) → IsTrue (is_layout size align)
        → align ≤ 16 → IsTrue (is_power block.align) → block.align ≤ 16 → size ≤ 2 ^ 60
        → old.memory.state.is_growing ≡ true → GrowsBlock old new block size align (Refused k)
        → top_of old.memory.state.chunks ≤ 2 ^ 63 + 2 ^ 62 → IsRefusedBySource old new }
    ensures shrunk { (old new : View) (block : Block) (size align k : ℕ) → IsTrue (is_layout size align)
        → align ≤ 16 → size ≤ 2 ^ 60
        → old.memory.state.is_growing ≡ true → ShrinksBlock old new block size align (Refused k)
        → top_of old.memory.state.chunks ≤ 2 ^ 63 + 2 ^ 62 → IsRefusedBySource old new }
{}

/// If an arena that doesn't grow has no place for a block, it has fewer bytes than are in use and the block takes with
/// its padding.
pub fn full()
    ensures placed { (old new : View) (size align k : ℕ) → IsTrue (is_layout size align)
        → old.memory.state.is_growing ≡ false → PlacesBlock old new size align (Refused k)
        → IsFull (used_bytes old.memory.state + size + (unit_of old.memory.state align - 1)) old }
    ensures grown { (old new : View) (block : Block) (size align k : ℕ) → IsTrue (is_layout size align)
        → IsTrue (is_power block.align) → block.align ≤ 16
        → old.memory.state.is_growing ≡ false → GrowsBlock old new block size align (Refused k)
        → IsFull (used_bytes old.memory.state + size + (unit_of old.memory.state align - 1)) old }
    ensures shrunk { (old new : View) (block : Block) (size align k : ℕ) → IsTrue (is_layout size align)
        → old.memory.state.is_growing ≡ false → ShrinksBlock old new block size align (Refused k)
        → IsFull (used_bytes old.memory.state + size + (unit_of old.memory.state align - 1)) old }
{}
