// A box that is checked before it is read.
ghost use Rattle.std.specs.Prelude.{◌≡◌, ◌^◌, ◌≤◌, IfSome, IfNone};
ghost use Rattle.arena_items.specs.Values.{IsBoxIn, box_value};

use arena_chunks::{Allocator, ChunkSource};
use arena_items::{Box, Item};

/// Returns a box's value, or `None` if the box isn't held: its block was freed, or doesn't have the layout of the type.
pub fn get_checked<T: Item, C: ChunkSource>(a: &Allocator<C>, b: Box<T>) -> Option<T>
    requires { T.SIZE ≤ 2 ^ 24 }
    ensures value { IfSome result (λ v. v ≡ box_value T.Item a.now.memory b) }
    ensures some { IfSome result (λ v. IsBoxIn T.Item a.now.memory b) }
    ensures none { IfNone result (IsBoxIn T.Item a.now.memory b → ⊥) }
{
    if b.is_held(a) { Some(b.get(a)) } else { None }
}
