// What stays of values that a call doesn't work on, and where new values are placed. Each law is a call that does
// nothing: made in a body, it gives its facts there.
ghost use Rattle.std.specs.Prelude.{◌≡◌, ◌≢◌, ℕ, ◌<◌, ◌≤◌, List, [], ◌∷◌, IsTrue};
ghost use Rattle.arena_rules.specs.State.{State, IsValid};
ghost use Rattle.arena_chunks.specs.Memory.{Memory, is_readable};
ghost use Rattle.arena_chunks.specs.Source.{View};
ghost use Rattle.arena_chunks.specs.Answers.Answer.{Placed};
ghost use Rattle.arena_chunks.specs.Checkpoints.{GoesBack};
ghost use Rattle.arena_chunks.specs.Frame.{Frame, AreAllApart};
ghost use Rattle.arena_chunks.specs.BlockCalls.{PlacesBlock};
ghost use Rattle.arena_store.specs.declared.block.Block.{Block};
ghost use Rattle.arena_items.specs.Footprint.{Agree, AreReadable};
ghost use Rattle.arena_items.specs.FrameLaw.{StaysHeld, StaysInUse};

mod beside;
mod costs;

use crate::address::Address;
use crate::values::InArena;
pub use beside::{beside_law, new_law, part_law};
pub use costs::{costs_law, room_law};

/// The frame law. A call on some blocks keeps every value whose footprint is apart from them: it is held, names the
/// same blocks and means the same, and its footprint is apart from the blocks that the call has afterwards.
pub fn frame_law<V: InArena>()
    ensures { (old new : Memory) (before after : List Block) (v : V) → Frame old new before after
        → V.is_held old v → AreAllApart (V.footprint old v) before → StaysHeld old new after V.InArena v }
{}

/// Rolling back to a mark keeps every value whose footprint is still readable: it is held, names the same blocks and
/// means the same. So it keeps a value whose footprint was readable at the mark, if what was in use there still is.
pub fn back_law<V: InArena>()
    ensures readable { (old new : Memory) (v : V) → GoesBack old new → V.is_held old v
        → AreReadable new.state (V.footprint old v) → StaysHeld old new [] V.InArena v }
    ensures marked { (start old new : Memory) (v : V) → GoesBack old new → StaysInUse start.state old.state new.state
        → V.is_held old v → AreReadable start.state (V.footprint old v) → StaysHeld old new [] V.InArena v }
{}

/// A value means the same in two arenas that agree on its footprint.
pub fn meaning_law<V: InArena>()
    ensures { (a c : Memory) (v : V) → Agree a c (V.footprint a v) → V.means a v ≡ V.means c v }
{}

/// A new non-empty block has another address than every non-empty block that was readable before. No readable non-empty
/// block is placed below 4096, so none at `Address::DUMMY`, which is 0.
pub fn address_law()
    ensures new { (old new : Memory) (b c : Block) → Frame old new [] (b ∷ [])
        → IsTrue (is_readable old.state c) → 0 < b.size → 0 < c.size → b.addr ≢ c.addr }
    ensures placed { (old new : View) (size align : ℕ) (b c : Block)
        → PlacesBlock old new size align (Placed b)
        → IsTrue (is_readable old.memory.state c) → 0 < b.size → 0 < c.size → b.addr ≢ c.addr }
    ensures low { (state : State) (b : Block) → IsValid state → IsTrue (is_readable state b) → 0 < b.size
        → 4096 ≤ b.addr }
    ensures zero { Address.DUMMY.0 ≡ 0 }
    ensures dummy { (state : State) (b : Block) → IsValid state → IsTrue (is_readable state b) → 0 < b.size
        → b.addr ≢ Address.DUMMY.0 }
{}
