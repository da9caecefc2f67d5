// A type that contains an allocator and lends it.
ghost use Rattle.std.specs.Prelude.{◌≡◌, ◌^◌, ◌≤◌, IfOk, [], ◌∷◌, refl};
ghost use Rattle.arena_chunks.specs.Source.{View};
ghost use Rattle.arena_chunks.specs.Frame.{Frame};
ghost use Rattle.arena_items.specs.Typed.{PlacesBox};

use arena_chunks::{Allocator, ChunkSource};
use arena_items::{ArenaItems, Box, GetAllocator, Item, ItemErr, allocator_of};

/// An allocator with a number.
pub struct Guard<C: ChunkSource> {
    /// The allocator that it lends.
    pub arena: Allocator<C>,
    /// Isn't changed by any call on the allocator.
    pub id: u64,
}

impl<C: ChunkSource> GetAllocator for Guard<C> {
    type Chunks = C;

    ghost lent = { λ g. g.arena };

    ghost with_lent = { λ g a. record g { arena = a } };

    ghost lent_back = { λ g a. refl };

    ghost rest_stays = { λ g. refl };

    ghost last_counts = { λ g a c. refl };

    fn allocator(&mut self) -> &mut Allocator<C> {
        &mut self.arena
    }
}

/// Places a value through any type that has an allocator. The rest of it is unchanged.
///
/// # Errors
///
/// Those of `alloc`. Nothing changes.
pub fn put<A: GetAllocator, T: Item>(a: &mut A, value: T) -> Result<Box<T>, ItemErr>
    requires { T.SIZE ≤ 2 ^ 24 }
    ensures places { PlacesBox T.Item (A.lent a.old) (A.lent a.new) (λ v. v ≡ value) result }
    ensures rest { a.new ≡ A.with_lent a.old (A.lent a.new) }
{
    let result = allocator_of(a).alloc(value);
    result
}
