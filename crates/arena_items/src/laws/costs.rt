// What it costs to take room for a collection.
ghost use Rattle.std.specs.Prelude.{◌≡◌, ℕ, ◌+◌, ◌*◌, ◌^◌, ◌≤◌, false, Ok, Err, Result, IsOk, IsTrue};
ghost use Rattle.arena_rules.specs.Rounding.{is_layout};
ghost use Rattle.arena_rules.specs.State.{allocated_bytes};
ghost use Rattle.arena_chunks.specs.Source.{View};
ghost use Rattle.arena_chunks.specs.Answers.Answer.{Placed};
ghost use Rattle.arena_chunks.specs.BlockCalls.{PlacesBlock};
ghost use Rattle.arena_store.specs.declared.block.Block.{Block};
ghost use Rattle.arena_items.specs.Costs.{used, Brings, Costs, Covers, farthest};
ghost use Rattle.arena_items.specs.Room.{MakesRoom, TakesRoom, RoomAnswer, SamePlaces};
ghost use Rattle.arena_items.specs.Values.{IsHeld};
ghost use Rattle.arena_items.specs.declared.room.AllocError.{AllocError};
ghost use Rattle.arena_items.specs.declared.room.Growth.TheVariants.{Stays, GrowsTo};

/// What a call that takes room brings into use, in an arena of least alignment 1: nothing if there was room; otherwise
/// at least the bytes that the new block has more than the old one, and at most all of them with its padding. A refusal
/// is the arena's own, of a new block with these bytes.
pub fn room_law<X>()
    ensures taken { (old new : View) (block b : Block) (cap size align : ℕ) → old.memory.state.min_align ≡ 1
        → IsTrue (is_layout size align) → block.align ≡ align → block.size ≤ size
        → TakesRoom old new block cap size align (Placed b) → Brings old new size align block }
    ensures not_taken { (old new : View) (block : Block) (cap size align : ℕ) (f : X → Block) (e : AllocError)
        → old.memory.state.min_align ≡ 1 → IsTrue (is_layout size align) → block.align ≡ align
        → RoomAnswer f (Err e) (TakesRoom old new block cap size align)
        → RoomAnswer f (Err e) (PlacesBlock old new size align) }
    ensures stays { (old new : View) (block : Block) (size align cap : ℕ) (f : X → Block) (result : Result X AllocError)
        → MakesRoom size align old new block cap Stays f result → used new ≡ used old }
    ensures grows { (old new : View) (block : Block) (size align cap more : ℕ) (f : X → Block) (x : X)
        → old.memory.state.min_align ≡ 1 → IsHeld (cap * size) align old.memory.state block
        → IsTrue (is_layout (more * size) align) → cap ≤ more
        → MakesRoom size align old new block cap (GrowsTo more) f (Ok x)
        → Brings old new (more * size) align block }
    ensures refused { (old new : View) (block : Block) (size align cap more : ℕ) (f : X → Block) (e : AllocError)
        → old.memory.state.min_align ≡ 1 → IsHeld (cap * size) align old.memory.state block
        → IsTrue (is_layout (more * size) align) → new.memory ≡ old.memory
        → MakesRoom size align old new block cap (GrowsTo more) f (Err e)
        → RoomAnswer f (Err e) (PlacesBlock old new (more * size) align) }
    ensures costs { (old new : View) (block : Block) (size align cap more : ℕ) (f : X → Block) (bytes before after : ℕ)
        (result : Result X AllocError)
        → old.memory.state.min_align ≡ 1 → IsHeld (cap * size) align old.memory.state block → cap ≤ more
        → Covers bytes before after (more * size) align result
        → MakesRoom size align old new block cap (GrowsTo more) f result
        → Costs farthest bytes before after old new result }
{}

/// Calls in a row cost together what each of them costs. If the first of two wasn't refused, and the arena is of the
/// same kind afterwards, the second is starved or full by the bytes of both. The address bound of a call that wasn't
/// refused may be replaced by any other, so a loop loses 2^61 of it only once.
pub fn costs_law<X, Y>()
    ensures nothing { (far bytes before after : ℕ) (old new : View) (x : X) → SamePlaces old new → after ≤ bytes + before
        → Costs far bytes before after old new (Ok x) }
    ensures weaken { (far near few many before after : ℕ) (old new : View) (result : Result X AllocError)
        → far ≤ near → few ≤ many
        → Costs near few before after old new result → Costs far many before after old new result }
    ensures ok { (far near bytes before after : ℕ) (old new : View) (result : Result X AllocError) → IsOk result
        → Costs far bytes before after old new result → Costs near bytes before after old new result }
    ensures then { (far one two before between after : ℕ) (old mid new : View)
        (first : Result X AllocError) (second : Result Y AllocError)
        → mid.memory.state.is_growing ≡ old.memory.state.is_growing
        → (old.memory.state.is_growing ≡ false
        → allocated_bytes mid.memory.state ≡ allocated_bytes old.memory.state)
        → IsOk first → Costs far one before between old mid first
        → Costs (far + 2 ^ 61) two between after mid new second
        → Costs far (one + two) before after old new second }
{}
