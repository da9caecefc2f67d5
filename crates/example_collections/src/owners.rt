// An arena that two threads own.
ghost use Rattle.std.specs.Prelude.{◌≡◌, IfOk, IfErr, IfSome, IfNone};
ghost use Rattle.arena_pool.specs.Claiming.{times, with_free};
ghost use Rattle.arena_pool.specs.GivingUp.{IsReturned};

use arena_chunks::{Allocator, ChunkSource};
use arena_pool::{GaveUp, Owner, ShareErr, share};
use std::alloc::Global;
use std::thread::{Threads, join};

/// Gives up an owner's share. Returns the arena if the other owner has given up before. An owner that has already
/// found that the other has given up never gets `None`.
pub fn freed<C: ChunkSource + Drop>(owner: Owner<C>) -> Option<Allocator<C>>
    ensures arena { IfSome result (λ a. a ≡ owner.shared) }
    ensures none { IfNone result (times 0 owner.lists.taken ≡ 0) }
{
    match owner.give_up() {
        GaveUp::Stays(_) => None,
        GaveUp::Freed(arena, _) => Some(arena),
    }
}

/// Returns the arena if the other owner has given up.
///
/// # Errors
///
/// The other owner hasn't given up. The owner is returned.
pub fn alone<C: ChunkSource + Drop>(owner: Owner<C>) -> Result<Allocator<C>, Owner<C>>
    ensures arena { IfOk result (λ a. a ≡ owner.shared) }
    ensures owner { IfErr result (λ o. o.shared ≡ owner.shared) }
    ensures found { IfErr result (λ o. o.lists ≡ with_free 0 owner.lists) }
{
    let mut owner = owner;
    if owner.is_double_owned() {
        return Err(owner);
    }
    match owner.give_up() {
        GaveUp::Freed(arena, _) => Ok(arena),
        // `is_double_owned` found that the other has given up, so the arena doesn't stay with it.
        GaveUp::Stays(_) => unreachable!(),
    }
}

/// Two threads own an arena, and both give it up. An arena that one of them gets back is the one that was shared,
/// unchanged.
///
/// # Errors
///
/// Out of memory. The arena is returned.
pub fn freed_by_two<C: ChunkSource + Drop + Send, R: Threads>(
    rt: &R,
    alloc: Global,
    a: Allocator<C>,
) -> Result<(Option<Allocator<C>>, Option<Allocator<C>>), ShareErr<C>>
    ensures first { IfOk result (λ r. IfSome r.0 (λ b. b ≡ a)) }
    ensures second { IfOk result (λ r. IfSome r.1 (λ b. b ≡ a)) }
    ensures exhausted { IfErr result (IsReturned a) }
{
    let (one, other) = share(alloc, a)?;
    Ok(join(rt, || freed(one), || freed(other)))
}
