// Placements that are rolled back.
ghost use Rattle.std.specs.Prelude.{◌≡◌, ◌^◌, ◌≤◌, Err, IfOk, IfErr};
ghost use Rattle.arena_chunks.specs.Memory.{KeepsUsed};
ghost use Rattle.arena_chunks.specs.Source.{View, view};
ghost use Rattle.arena_chunks.specs.Answers.{answer_of};
ghost use Rattle.arena_chunks.specs.BlockCalls.{PlacesBlock};
ghost use Rattle.arena_chunks.specs.Checkpoints.{checkpoint_of, sent_back};
ghost use Rattle.arena_items.specs.Typed.{PlacesBox};
ghost use Rattle.arena_items.specs.Values.{IsBoxIn, box_value};
ghost use Rattle.example_blocks.specs.TwoValues.{AfterPlacing};

use arena_chunks::laws::marks;
use arena_chunks::{Allocator, Arena, ArenaErr, Block, ChunkSource};
use arena_items::laws::{back_law, frame_law};
use arena_items::{Box, Item, ItemErr};
use arena_place::Layout;
use arena_rules::laws::kept_marks;

/// Returns the block that a layout would get: places it, and rolls the arena back. What was in use stays in use, with
/// its bytes.
///
/// # Errors
///
/// Those of the arena's `try_alloc_layout`.
pub fn would_lie<const M: usize, C: ChunkSource>(
    arena: &mut Arena<M>,
    chunks: &mut C,
    layout: Layout,
) -> Result<Block, ArenaErr>
    ensures tried { (between : View)
        × PlacesBlock (view arena.old (C.source chunks.old)) between layout.size layout.align (answer_of result)
        × (between.source ≡ C.source chunks.new)
        × (arena.new ≡ sent_back (checkpoint_of arena.old.state) between.memory) }
    ensures kept { KeepsUsed arena.old arena.new }
{
    marks();
    let mark = arena.checkpoint();
    let placed = arena.try_alloc_layout(chunks, layout);
    arena.rewind(mark);
    placed
}

/// Places a value and rolls the arena back, so the value's box isn't held any more. A box from before is still held
/// and has its value, which is returned.
///
/// # Errors
///
/// Those of `Box::new_in`. Nothing changes.
pub fn try_beside<T: Item, U: Item, C: ChunkSource>(
    a: &mut Allocator<C>,
    kept: Box<U>,
    value: T,
) -> Result<U, ItemErr>
    requires small { T.SIZE ≤ 2 ^ 24 }
    requires short { U.SIZE ≤ 2 ^ 24 }
    requires kept { IsBoxIn U.Item a.old.memory kept }
    ensures back { IfOk result (λ u. AfterPlacing T.Item a.old (λ v. v ≡ value) (λ between tried.
        (a.new.memory ≡ sent_back (checkpoint_of a.old.memory.state) between.memory)
        × (a.new.source ≡ between.source))) }
    ensures held { IfOk result (λ u. IsBoxIn U.Item a.new.memory kept) }
    ensures means { IfOk result (λ u.
        box_value U.Item a.new.memory kept ≡ box_value U.Item a.old.memory kept) }
    ensures value { IfOk result (λ u. u ≡ box_value U.Item a.old.memory kept) }
    ensures err { IfErr result (λ e. PlacesBox T.Item a.old a.new (λ v. v ≡ value) (Err e)) }
{
    frame_law::<Box<U>>();
    back_law::<Box<U>>();
    kept_marks();
    arena_rules::laws::sent_back();
    let mark = a.checkpoint();
    let _tried = Box::new_in(value, a)?;
    a.rewind(mark);
    Ok(kept.get(a))
}
