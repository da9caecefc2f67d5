// A test of many scripts and many workers over pools of both kinds: each script is run once and ends as it should, and
// after that no arena is lent.
ghost use Rattle.std.specs.Prelude.{◌≡◌};
ghost use Rattle.arena_pool.specs.Names.{IsBlankOf};

use super::stages::Stages;
use super::{Served, is_done, is_vast, run_over, scripts};
use crate::tests::{Plan, Rt, holds, pool_of};
use arena_pool::{MOST_LENT, PoolKind, PoolName};
use script_rules::Ended;
use script_workers::Starved;
use std::marker::Brand;
use std::sync::ledger::Blank;
use std::test::*;

/// Arenas with room for the 38 bytes of a script with a small set.
const SMALL: PoolKind = PoolKind::FixedSize { bytes: 96 };

// Whether a script with a vast set ended with the cause that its kind of pool gives.
fn is_starved(served: &Served, kind: PoolKind) -> bool {
    let ended = served.outcome.ended;
    match &served.starved {
        None => kind != PoolKind::Standard && ended == Ended::Full,
        Some(Starved::Refused(_)) => kind == PoolKind::Standard && ended == Ended::Refused,
        Some(Starved::Grown(_)) => false,
    }
}

// Runs all scripts twice: first without vast sets, then with one in every third script. After each run no arena is
// lent, and those of starved scripts were given up.
fn crowds<L: PoolName + Send + Sync>(
    rt: &impl Rt,
    plan: Plan,
    workers: u32,
    count: usize,
    blank: Blank,
) -> Result<(), Fail>
    requires blank { IsBlankOf L.name L.parts blank }
    requires kind { L.kind ≡ plan.0 }
    requires limit { L.limit ≡ plan.1 }
{
    let pool = pool_of::<L>(rt, plan, blank);
    let (kind, _, arenas) = plan;
    for vast in [0, 3] {
        let scripts = scripts(rt.alloc(), count, vast)?;
        let stages = Stages::of(rt.alloc(), count)?;
        let (all, counts) = run_over(rt, &pool, workers, &stages, &stages, &scripts);
        holds(rt, all.len() == count, "an outcome for each script");
        holds(rt, stages.are_over(), "each script in its turn, and once");
        for (i, served) in all.iter().enumerate() {
            let is_right = if is_vast(i, vast) {
                is_starved(served, kind)
            } else {
                is_done(served)
            };
            assert!(rt; is_right, "script {i}");
        }
        let starved = all.iter().filter(|served| served.starved.is_some()).count();
        assert_eq!(rt; (counts.lent, counts.given_up), (0, starved as u64));
        let is_standard = kind == PoolKind::Standard;
        let no_more = is_standard || counts.made == u64::from(arenas);
        holds(rt, no_more, "no arena that a fixed pool made later");
    }
    Ok(())
}

#[test]
fn ten_thousand_scripts(rt: HostRuntime) -> Result<(), Fail> {
    for plan in [(PoolKind::Standard, None, 64), (SMALL, None, 1)] {
        crowds::<Brand>(&rt, plan, 64, 10_000, Blank::new(MOST_LENT))?;
    }
    Ok(())
}
