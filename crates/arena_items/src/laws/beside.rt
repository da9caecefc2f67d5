// What stays of values beside each other, and of values that were placed since a call began.
ghost use Rattle.std.specs.Prelude.{[]};
ghost use Rattle.arena_chunks.specs.Frame.{Frame};
ghost use Rattle.arena_chunks.specs.Memory.{Memory};
ghost use Rattle.arena_items.specs.Beside.{AreBeside, LeavesSecond, LeavesFirst, IsNew, Moves};

use crate::beside::Beside;
use crate::laws::frame_law;
use crate::values::InArena;

/// Two values whose blocks are apart. A call that works on the blocks of one leaves the other, with its meaning; both
/// are beside each other afterwards, and nothing else was written.
pub fn beside_law<V: InArena, W: InArena>()
    ensures first { (old new : Memory) (v u : V) (w : W) → AreBeside V.InArena W.InArena old v w → V.is_held new u
        → Frame old new (V.footprint old v) (V.footprint new u) → LeavesSecond V.InArena W.InArena old new v u w }
    ensures second { (old new : Memory) (v : V) (w u : W) → AreBeside V.InArena W.InArena old v w → W.is_held new u
        → Frame old new (W.footprint old w) (W.footprint new u) → LeavesFirst V.InArena W.InArena old new v w u }
{
    frame_law::<V>();
    frame_law::<W>();
}

/// A value that was placed since a call began, and calls that work on its blocks.
pub fn new_law<V: InArena>()
    ensures then { (old mid new : Memory) (v w : V) → IsNew V.InArena old mid v → Moves V.InArena mid new v w
        → IsNew V.InArena old new w }
    ensures moves { (old mid new : Memory) (u v w : V) → Moves V.InArena old mid u v → Moves V.InArena mid new v w
        → Moves V.InArena old new u w }
    ensures stays { (memory : Memory) (v : V) → V.is_held memory v → Moves V.InArena memory memory v v }
    ensures others { (old new : Memory) (v : V) → IsNew V.InArena old new v → Frame old new [] [] }
{}

/// A call on the blocks of one of two values works on those of both as one.
pub fn part_law<V: InArena, W: InArena>()
    ensures first { (old new : Memory) (v u : V) (w : W) → AreBeside V.InArena W.InArena old v w → Moves V.InArena old new v u
        → Moves ⟦<Beside<V, W> as InArena>⟧ old new (record { first = v; second = w }) (record { first = u; second = w }) }
    ensures second { (old new : Memory) (v : V) (w u : W) → AreBeside V.InArena W.InArena old v w → Moves W.InArena old new w u
        → Moves ⟦<Beside<V, W> as InArena>⟧ old new (record { first = v; second = w }) (record { first = v; second = u }) }
{
    beside_law::<V, W>();
}
