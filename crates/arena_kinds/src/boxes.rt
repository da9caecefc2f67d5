// New boxes.
ghost use Rattle.std.specs.Prelude.{◌^◌, ◌≤◌};
ghost use Rattle.arena_kinds.specs.Dummies.{Boxes};

use arena_chunks::{Allocator, ChunkSource};
use arena_items::{Box, Grown, Item};

/// Places a value in a new box.
///
/// # Errors
///
/// As for the arena's `alloc_layout`. Nothing changes.
pub fn place_box<T: Item, C: ChunkSource>(a: &mut Allocator<C>, value: T) -> Grown<Box<T>>
    requires { T.SIZE ≤ 2 ^ 24 }
    ensures { Boxes T.Item a.old a.new value result }
{
    Ok(Box::new_in(value, a)?)
}
