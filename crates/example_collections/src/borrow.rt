// An arena that is borrowed, used and given back.
ghost use Rattle.std.specs.Prelude.{◌≡◌, ◌^◌, ◌≤◌, IfSome};
ghost use Rattle.arena_items.specs.Typed.{PlacesBox};
ghost use Rattle.arena_items.specs.Values.{IsBoxIn, box_value};
ghost use Rattle.arena_pool.specs.Kinds.{IsOfKind};
ghost use Rattle.arena_pool.specs.declared.kind.PoolKind.{PoolKind};

use crate::lender::put;
use arena_chunks::{Allocator, ChunkSource};
use arena_items::{Box, Item, ItemErr};
use arena_pool::laws::kinds_by_values;
use arena_pool::{AllocatorGuard, AllocatorPool, ChunkMaker, PoolName};
use std::sync::Wait;

/// Places a value and reads it back, or returns `None` if there is no place for it. The arena keeps its kind.
#[tactic(auto, using(arena_pool::proofs::Layers::kind_laws))]
pub fn read_back<T: Item, C: ChunkSource>(a: &mut Allocator<C>, value: T) -> Option<T>
    requires { T.SIZE ≤ 2 ^ 24 }
    ensures value { IfSome result (λ v. v ≡ value) }
    ensures kind { (kind : PoolKind) → IsOfKind kind a.old.memory.state → IsOfKind kind a.new.memory.state }
{
    kinds_by_values::<T>();
    match Box::new_in(value, a) {
        Ok(b) => Some(b.get(a)),
        Err(_) => None,
    }
}

/// Places a value in a borrowed arena, reads it back, and gives the arena back to its pool. Returns `None` if there
/// is no place for the value or no memory for an arena. That the value is in the arena meanwhile is stated by
/// `take_out` and `put_in`.
pub fn through<T: Item, K: ChunkMaker, L: PoolName, R: Wait>(
    rt: &R,
    pool: &AllocatorPool<K, L>,
    value: T,
) -> Option<T>
    requires { T.SIZE ≤ 2 ^ 24 }
    ensures { IfSome result (λ v. v ≡ value) }
{
    let mut guard = pool.get_wait(rt).ok()?;
    let found = read_back(guard.parts_mut(), value);
    guard.put_back(rt);
    found
}

/// Places a value in a borrowed arena, and takes the arena out of its pool, with the value's box. Returns `None` if
/// there is no place for the value or no memory for an arena; an arena that was borrowed is given back then.
pub fn take_out<T: Item, K: ChunkMaker, L: PoolName, R: Wait>(
    rt: &R,
    pool: &AllocatorPool<K, L>,
    value: T,
) -> Option<(Box<T>, Allocator<K::Chunks>)>
    requires { T.SIZE ≤ 2 ^ 24 }
    ensures held { IfSome result (λ r. IsBoxIn T.Item r.1.memory r.0) }
    ensures value { IfSome result (λ r. box_value T.Item r.1.memory r.0 ≡ value) }
{
    kinds_by_values::<T>();
    let mut guard = pool.get(rt).ok()?;
    match Box::new_in(value, guard.parts_mut()) {
        Ok(b) => Some((b, guard.give_up(rt))),
        Err(_) => {
            guard.put_back(rt);
            None
        }
    }
}

/// Places a value in a guard's arena, through the function for all types that have an allocator. The guard's id is
/// unchanged.
///
/// # Errors
///
/// Those of `alloc`. Nothing changes.
pub fn put_in<T: Item, K: ChunkMaker, L: PoolName>(
    guard: &mut AllocatorGuard<'_, K, L>,
    value: T,
) -> Result<Box<T>, ItemErr>
    requires { T.SIZE ≤ 2 ^ 24 }
    ensures places { PlacesBox T.Item guard.old.0 guard.new.0 (λ v. v ≡ value) result }
    ensures id { guard.new.1 ≡ guard.old.1 }
{
    put(guard, value)
}
