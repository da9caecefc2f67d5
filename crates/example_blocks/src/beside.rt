// Values next to others, and the laws on them.
ghost use Rattle.std.specs.Prelude.{◌≡◌, ◌≢◌, ◌+◌, ◌^◌, ◌<◌, ◌≤◌, IfOk, [], ◌∷◌};
ghost use Rattle.arena_items.specs.ByteForms.{pair_item};
ghost use Rattle.arena_items.specs.Footprint.{Agree};
ghost use Rattle.arena_items.specs.Typed.{PlacesBox};
ghost use Rattle.arena_items.specs.Values.{IsBoxIn, box_value};

use arena_chunks::{Allocator, ChunkSource};
use arena_items::laws::{address_law, meaning_law};
use arena_items::{Address, ArenaItems, Box, Item, ItemErr};

/// Returns a box's value from either of two arenas that have the same bytes in its block.
pub fn read_either<T: Item, C: ChunkSource>(
    first: &Allocator<C>,
    second: &Allocator<C>,
    b: Box<T>,
    from_second: bool,
) -> T
    requires small { T.SIZE ≤ 2 ^ 24 }
    requires first { IsBoxIn T.Item first.now.memory b }
    requires second { IsBoxIn T.Item second.now.memory b }
    requires agree { Agree first.now.memory second.now.memory (b.block ∷ []) }
    ensures { result ≡ box_value T.Item first.now.memory b }
{
    meaning_law::<Box<T>>();
    if from_second {
        b.get(second)
    } else {
        b.get(first)
    }
}

/// Places a value. The address of its box differs from that of an earlier box and from `Address::DUMMY`.
///
/// # Errors
///
/// Those of `alloc`. Nothing changes.
pub fn place_another<T: Item, U: Item, A: ArenaItems>(
    a: &mut A,
    earlier: Box<U>,
    value: T,
) -> Result<Box<T>, ItemErr>
    requires small { T.SIZE ≤ 2 ^ 24 }
    requires earlier { IsBoxIn U.Item (A.view a.old).memory earlier }
    requires filled { 0 < T.SIZE }
    requires before { 0 < U.SIZE }
    ensures places { PlacesBox T.Item (A.view a.old) (A.view a.new) (λ v. v ≡ value) result }
    ensures other { IfOk result (λ b. b.block.addr ≢ earlier.block.addr) }
    ensures real { IfOk result (λ b. b.block.addr ≢ Address.DUMMY.0) }
{
    address_law();
    let b = a.alloc(value)?;
    Ok(b)
}

/// Places a value and a number as one pair.
///
/// # Errors
///
/// Those of `alloc`. Nothing changes.
pub fn place_pair<T: Item, A: ArenaItems>(
    a: &mut A,
    value: T,
    n: u64,
) -> Result<Box<(T, u64)>, ItemErr>
    requires { T.SIZE + 40 ≤ 2 ^ 24 }
    ensures { PlacesBox (pair_item T.Item ⟦<u64 as Item>⟧) (A.view a.old) (A.view a.new)
        (λ p. p ≡ (value, n)) result }
{
    a.alloc((value, n))
}
