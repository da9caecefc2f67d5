// Helpers for the tests of pools, scripts and workers.
ghost use Rattle.std.specs.Prelude.{◌≡◌};
ghost use Rattle.arena_pool.specs.Names.{IsBlankOf};
ghost use Rattle.arena_pool.specs.declared.kind.PoolKind.{PoolKind};

mod pools;
mod scripts;
mod workers;

use arena_pool::{AllocatorPool, Counts, MemoryMaker, PoolKind, PoolName};
use std::alloc::{Alloc, Global};
use std::fmt::Display;
use std::process::Abort;
use std::sync::Wait;
use std::sync::ledger::Blank;
use std::test::*;
use std::thread::Threads;

/// The handle of a test.
trait Rt: Threads + Wait + Abort + Alloc<A = Global> + Sync {}

impl<R: Threads + Wait + Abort + Alloc<A = Global> + Sync> Rt for R {}

/// The pool to make: its kind, its limit, and the number of its arenas at first.
type Plan = (PoolKind, Option<u64>, u32);

type Pool<L> = AllocatorPool<MemoryMaker, L>;

// Makes the planned pool, with the name `L`.
fn pool_of<L: PoolName>(rt: &impl Rt, plan: Plan, blank: Blank) -> Pool<L>
    requires blank { IsBlankOf L.name L.parts blank }
    requires kind { L.kind ≡ plan.0 }
    requires limit { L.limit ≡ plan.1 }
{
    let (alloc, (kind, limit, arenas)) = (rt.alloc(), plan);
    let maker = MemoryMaker::new(alloc, 1 << 20);
    let pool = match (kind, limit) {
        (PoolKind::Standard, None) => AllocatorPool::new(alloc, arenas, maker, blank),
        (PoolKind::Standard, Some(limit)) => {
            AllocatorPool::new_with_limit(alloc, arenas, limit, maker, blank)
        }
        (PoolKind::FixedSize { bytes }, limit) => {
            assert!(rt; bytes % 16 == 0 && bytes >= 48 && limit.is_none());
            AllocatorPool::new_fixed_size(alloc, arenas, bytes, maker, blank)
        }
    };
    pool.ok().expect(rt, "a pool")
}

// The four counts of a pool, in the order made, stored, lent, given up.
type All = (u64, u64, u64, u64);

fn are_counts(rt: &impl Abort, counts: Counts, all: All) {
    let found = (counts.made, counts.stored, counts.lent, counts.given_up);
    assert_eq!(rt; found, all);
}

// Fails the test, with `what` as the message, unless the condition holds.
fn holds(rt: &impl Abort, so: bool, what: &str) {
    assert!(rt; so, "{what}");
}

fn says<E: Display>(rt: &impl Rt, error: &E, text: &str) -> Result<(), Fail> {
    let said = format!(in rt.alloc(); "{error}")?;
    assert!(rt; said.as_str() == text);
    Ok(())
}
