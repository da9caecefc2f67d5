// Tests of many threads over one pool.
ghost use Rattle.std.specs.Prelude.{◌≡◌};
ghost use Rattle.arena_pool.specs.Names.{IsBlankOf};

use super::{SMALL, marks, wait_until};
use crate::tests::{Plan, Pool, Rt, are_counts, holds, pool_of};
use arena_pool::{MOST_LENT, PoolKind, PoolName};
use std::marker::Brand;
use std::sync::Wait;
use std::sync::atomic::{AtomicU64, Ordering};
use std::sync::ledger::Blank;
use std::test::*;
use std::thread;
use std::thread::join;

/// The number of threads. Each borrows `ROUNDS` times, so there are 10,048 loans in all.
const WORKERS: usize = 64;

const ROUNDS: usize = 157;

const LOANS: u64 = (WORKERS * ROUNDS) as u64;

// Borrows an arena, marks it, and gives it back or up. Returns whether no trace of another borrower was seen.
fn borrow<L: PoolName>(rt: &impl Wait, pool: &Pool<L>, mark: u8, gives_up: bool) -> bool {
    let Ok(mut guard) = pool.get(rt) else {
        return false;
    };
    let intact = marks(guard.parts_mut(), mark);
    if gives_up {
        let _ = guard.give_up(rt);
    } else {
        guard.put_back(rt);
    }
    intact
}

// Borrows an arena in each round; the last one may be given up. Returns whether no trace of another borrower was ever
// seen.
fn work<L: PoolName>(rt: &impl Wait, pool: &Pool<L>, mark: u8, gives_up_last: bool) -> bool {
    (0..ROUNDS).all(|round| borrow(rt, pool, mark, gives_up_last && round == ROUNDS - 1))
}

// Runs all threads over a pool. The first `givers` threads give up their last arena.
fn all_work<L: PoolName + Send + Sync>(rt: &impl Rt, pool: &Pool<L>, givers: usize) {
    let each = |i: usize| work(rt, pool, (i % 256) as u8, i < givers);
    let intact = thread::map_indices(rt, rt.alloc(), WORKERS, &each);
    assert!(rt; intact.expect(rt, "results").iter().all(|one| *one));
}

// At the end no arena is lent. A fixed-size pool made no further arena. A standard pool made at most one for each
// thread and one for each that was given up.
fn crowd<L: PoolName + Send + Sync>(
    rt: &impl Rt,
    plan: Plan,
    givers: usize,
    given_up: u64,
    blank: Blank,
)
    requires blank { IsBlankOf L.name L.parts blank }
    requires kind { L.kind ≡ plan.0 }
    requires limit { L.limit ≡ plan.1 }
{
    let pool = pool_of::<L>(rt, plan, blank);
    let arenas = u64::from(plan.2);
    are_counts(rt, pool.counts(rt), (arenas, arenas, 0, 0));
    all_work(rt, &pool, givers);
    let counts = pool.counts(rt);
    let most = (arenas + WORKERS as u64).saturating_add(given_up);
    assert_eq!(rt; (counts.lent, counts.given_up), (0, given_up));
    assert!(rt; counts.made == arenas || plan.0 == PoolKind::Standard && counts.made <= most);
}

// A pool, the number of threads that give an arena up, and the arenas that are given up, by their borrowers or by the
// limit.
const CROWDS: &[(Plan, usize, u64)] = &[
    ((SMALL, None, 1), 0, 0),
    ((SMALL, None, 4), 3, 3),
    ((PoolKind::Standard, None, 4), 32, 32),
    // Each arena comes back with one chunk of 16320 bytes.
    ((PoolKind::Standard, Some(16320), 4), 32, 32),
    ((PoolKind::Standard, Some(16319), 4), 32, LOANS),
];

#[test]
fn crowds(rt: HostRuntime) {
    for (plan, givers, given_up) in CROWDS {
        crowd::<Brand>(&rt, *plan, *givers, *given_up, Blank::new(MOST_LENT));
    }
}

fn yields() {
    for _ in 0..1000 {
        thread::yield_now();
    }
}

// Holds the only arena for a while, and sets the stage before it gives it back.
fn hold<L: PoolName>(rt: &impl Wait, pool: &Pool<L>, stage: &AtomicU64) -> bool {
    let Ok(guard) = pool.get(rt) else {
        return false;
    };
    stage.store(1, Ordering::SeqCst);
    yields();
    stage.store(2, Ordering::SeqCst);
    guard.put_back(rt);
    true
}

// Asks for the arena while it is held. Returns whether it came after it was given back, and not before.
fn wait_for<L: PoolName>(rt: &impl Wait, pool: &Pool<L>, stage: &AtomicU64) -> bool {
    wait_until(rt, stage, 1);
    let Ok(guard) = pool.get_wait(rt) else {
        return false;
    };
    let given_back = stage.load(Ordering::SeqCst) == 2;
    guard.put_back(rt);
    given_back
}

// One thread holds the pool's only arena, and another waits for it.
fn one_waits<L: PoolName + Send + Sync>(rt: &impl Rt, plan: Plan, blank: Blank)
    requires blank { IsBlankOf L.name L.parts blank }
    requires kind { L.kind ≡ plan.0 }
    requires limit { L.limit ≡ plan.1 }
{
    let pool = pool_of::<L>(rt, plan, blank);
    let stage = AtomicU64::new(0);
    let (held, waited) = join(
        rt,
        || hold(rt, &pool, &stage),
        || wait_for(rt, &pool, &stage),
    );
    holds(rt, held && waited, "an arena that was given back");
}

#[test]
fn a_borrower_waits_until_another_gives_back(rt: HostRuntime) {
    let plan = (PoolKind::FixedSize { bytes: 48 }, None, 1);
    one_waits::<Brand>(&rt, plan, Blank::new(MOST_LENT));
}
