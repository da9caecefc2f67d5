// Tests of two copies of a script that run twice over one pool, with few workers and many: the replies are the same
// each time, and the pool's counts are as expected.
ghost use Rattle.std.specs.Prelude.{◌≡◌};
ghost use Rattle.arena_pool.specs.Names.{IsBlankOf};

use super::{Served, run_over};
use crate::tests::{Plan, Rt, are_counts, holds, pool_of};
use arena_pool::{MOST_LENT, PoolKind, PoolName};
use arena_script::Engine;
use script_lines::{parse_scripts, put_outcome};
use script_workers::NoGate;
use std::alloc::Global;
use std::marker::Brand;
use std::sync::ledger::Blank;
use std::test::*;

const SCRIPTS: &str = "\
script\nlist 1\npush 1 5\npush 1 6\nat 1 1\nat 1 2\nlist 1\ntext 2\nbyte 2 104\nbyte 2 200\nshow 2\npop 2\n\
script\nlist 1\npush 1 5\npush 1 6\nat 1 1\nat 1 2\nlist 1\ntext 2\nbyte 2 104\nbyte 2 200\nshow 2\npop 2\n";

const LINES: &str = "\
script 0\ndone\ndone\ndone\nnumber 6\nout of range\nname taken\ndone\ndone\nnot ascii\nbytes 68\nwrong kind\nended done\n\
script 1\ndone\ndone\ndone\nnumber 6\nout of range\nname taken\ndone\ndone\nnot ascii\nbytes 68\nwrong kind\nended done\n";

// A pool, and the workers. After each run all arenas are stored, and no further one was made.
const ROWS: &[(Plan, u32)] = &[
    ((PoolKind::Standard, None, 1), 1),
    ((PoolKind::Standard, None, 2), 2),
    ((PoolKind::Standard, None, 64), 64),
    ((PoolKind::FixedSize { bytes: 144 }, None, 1), 64),
];

fn are_lines(alloc: Global, all: &[Served]) -> Result<bool, Fail> {
    let mut text = Vec::new(alloc);
    for (i, served) in all.iter().enumerate() {
        put_outcome(&mut text, i as u64, &served.outcome)?;
    }
    Ok(text.as_slice() == LINES.as_bytes())
}

fn run_twice<L: PoolName + Send + Sync>(
    rt: &impl Rt,
    plan: Plan,
    workers: u32,
    blank: Blank,
) -> Result<(), Fail>
    requires blank { IsBlankOf L.name L.parts blank }
    requires kind { L.kind ≡ plan.0 }
    requires limit { L.limit ≡ plan.1 }
{
    let pool = pool_of::<L>(rt, plan, blank);
    let arenas = u64::from(plan.2);
    let scripts = parse_scripts(rt.alloc(), SCRIPTS.as_bytes())?;
    for _ in 0..2 {
        let (all, counts) = run_over(rt, &pool, workers, &NoGate, &Engine, &scripts);
        holds(rt, are_lines(rt.alloc(), &all)?, "the same lines");
        are_counts(rt, counts, (arenas, arenas, 0, 0));
    }
    Ok(())
}

#[test]
fn two_scripts_twice_over_one_pool(rt: HostRuntime) -> Result<(), Fail> {
    for (plan, workers) in ROWS {
        run_twice::<Brand>(&rt, *plan, *workers, Blank::new(MOST_LENT))?;
    }
    Ok(())
}
