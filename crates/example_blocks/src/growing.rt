// One function that places a value and takes room for a row.
ghost use Rattle.std.specs.Prelude.{◌≡◌, ◌+◌, ◌-◌, ◌*◌, ◌^◌, ◌≤◌, IfOk};
ghost use Rattle.arena_items.specs.Costs.{Costs, farthest};
ghost use Rattle.example_blocks.specs.Rows.{BeginsWith, BoxThenRow};

use arena_chunks::{Allocator, Block, ChunkSource};
use arena_items::laws::{costs_law, room_law};
use arena_items::{AllocError, Box, Grown, Item, put_item, take_room};
use arena_place::Layout;

/// Places a number in a box, and a row with room for `cap` boxes that begins with this box. Together they cost at
/// most their bytes and the padding of both blocks, if the row has at most 2 ^ 60 bytes.
///
/// # Errors
///
/// `CapacityOverflow` if `cap` boxes aren't a valid layout; otherwise those of `Box::new_in`, or those of
/// `take_room`, and then the box stays placed.
pub fn begin_row<C: ChunkSource>(a: &mut Allocator<C>, n: u32, cap: u64) -> Grown<Block>
    requires { 1 ≤ cap }
    ensures calls { BoxThenRow ⟦<u32 as Item>⟧ a.old a.new n (cap * 32) 8 result }
    ensures begins { IfOk result (λ row. BeginsWith ⟦<u32 as Item>⟧ ⟦<Box<u32> as Item>⟧ a.new.memory row n) }
    ensures costs { cap * 32 ≤ 2 ^ 60
        → Costs (farthest - 2 ^ 61) ((4 + 3) + (cap * 32 + 7)) 0 0 a.old a.new result }
{
    room_law::<Block>();
    costs_law::<Block, Block>();
    // For the proof: the least alignment is 1.
    a.known();
    let Some(layout) = Layout::array(cap, 32, 8) else {
        return Err(AllocError::CapacityOverflow);
    };
    let boxed = Box::new_in(n, a)?;
    let row = take_room(a, Block::empty(8), 0, layout)?;
    put_item(a, row, 0, boxed);
    Ok(row)
}
