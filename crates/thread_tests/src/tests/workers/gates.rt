// A test of gates: workers run at the same time, since the gate holds all scripts but the last until the last has
// finished.
ghost use Rattle.std.specs.Prelude.{◌≡◌};
ghost use Rattle.arena_pool.specs.Names.{IsBlankOf};

use super::{is_done, run_over, scripts};
use crate::tests::{Plan, Rt, holds, pool_of, says};
use arena_pool::{MOST_LENT, PoolKind, PoolName};
use arena_script::Engine;
use script_workers::{Gate, ScriptsErr};
use std::marker::Brand;
use std::sync::atomic::{AtomicU64, Ordering};
use std::sync::ledger::Blank;
use std::test::*;
use std::thread;

/// How often a script checks whether the last one has finished.
const TURNS: u32 = 1_000_000;

/// Holds each script until the last has finished, and counts those that saw it.
#[derive(Drop, Default)]
struct AfterTheLast {
    last: u32,
    finished: AtomicU64,
    seen: AtomicU64,
}

impl Gate for AfterTheLast {
    fn started(&self, piece: u32) {
        if piece == self.last {
            return;
        }
        for _ in 0..TURNS {
            if self.finished.load(Ordering::SeqCst) == 1 {
                self.seen.fetch_add(1, Ordering::SeqCst);
                return;
            }
            thread::yield_now();
        }
    }

    fn finished(&self, piece: u32) {
        if piece == self.last {
            self.finished.store(1, Ordering::SeqCst);
        }
    }
}

// Runs as many scripts as there are workers and arenas: all but the last script wait for the last one.
fn run_at_once<L: PoolName + Send + Sync>(
    rt: &impl Rt,
    plan: Plan,
    blank: Blank,
) -> Result<(), Fail>
    requires blank { IsBlankOf L.name L.parts blank }
    requires kind { L.kind ≡ plan.0 }
    requires limit { L.limit ≡ plan.1 }
{
    let pool = pool_of::<L>(rt, plan, blank);
    let workers = plan.2;
    let gate = AfterTheLast {
        last: workers.saturating_sub(1),
        ..Default::default()
    };
    let scripts = scripts(rt.alloc(), workers as usize, 0)?;
    let (all, _) = run_over(rt, &pool, workers, &gate, &Engine, &scripts);
    for (i, served) in all.iter().enumerate() {
        assert!(rt; is_done(served), "script {i}");
    }
    let seen = gate.seen.load(Ordering::SeqCst);
    holds(rt, seen == u64::from(gate.last), "the last script first");
    Ok(())
}

#[test]
fn workers_run_at_once(rt: HostRuntime) -> Result<(), Fail> {
    for workers in [2, 3, 9] {
        let plan = (PoolKind::Standard, None, workers);
        run_at_once::<Brand>(&rt, plan, Blank::new(MOST_LENT))?;
    }
    Ok(())
}

#[test]
fn want_of_memory_says_so(rt: HostRuntime) -> Result<(), Fail> {
    says(&rt, &ScriptsErr::OutOfMemory, "out of memory")
}
