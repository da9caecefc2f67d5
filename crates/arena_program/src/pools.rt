// Scripts over a pool that is made for them.
ghost use Rattle.std.specs.Prelude.{◌≡◌, ◌<◌, ◌^◌, length, IfOk};
ghost use Rattle.arena_pool.specs.Names.{IsBlankOf};
ghost use Rattle.script_workers.specs.Serving.{IsServedAlone};
ghost use Rattle.arena_program.specs.Words.{IsWithin, IsLender};
ghost use Rattle.arena_program.specs.PoolEnds.{kind_of, limit_of, arenas_of};
ghost use Rattle.arena_program.specs.Rendering.{IsPrintout, outcome_text, script_text};

use crate::printout::Printout;
use crate::rendering::render_all;
use crate::tasks::{Lender, Task};
use arena_pool::{AllocatorPool, ChunkMaker, MOST_LENT, OutOfMemory, PoolKind, PoolName};
use arena_script::Job;
use script_rules::Script;
use script_workers::Scripts;
use std::alloc::Global;
use std::marker::Brand;
use std::sync::Wait;
use std::sync::ledger::Blank;
use std::thread::Threads;

// The kind of the pool, and its limit in bytes, if it has one.
fn kind_and_limit(lender: Lender) -> (PoolKind, Option<u64>)
    ensures kind { result.0 ≡ kind_of lender }
    ensures limit { result.1 ≡ limit_of lender }
{
    match lender {
        Lender::Standard => (PoolKind::Standard, None),
        Lender::Keeping { limit } => (PoolKind::Standard, Some(limit)),
        Lender::Fixed { bytes, .. } => (PoolKind::FixedSize { bytes }, None),
    }
}

// How many arenas the pool has at first.
fn arenas(task: Task) -> u32
    ensures { result ≡ arenas_of task }
{
    match task.lender {
        Lender::Fixed { arenas, .. } => arenas,
        _ => task.workers,
    }
}

/// Runs scripts over a new pool, as the task says. Returns the texts of their outcomes, in order, which the workers
/// make. Waits at the pool's lock.
///
/// # Errors
///
/// Out of memory for the pool, the workers, their outcomes or the texts.
pub fn run_task<R: Threads + Wait + Sync, K: ChunkMaker + Drop + Send, J: Job<K::Chunks> + Sync>(
    rt: &R,
    alloc: Global,
    task: Task,
    maker: K,
    job: &J,
    scripts: Vec<Script>,
) -> Result<Printout<K::Chunks>, OutOfMemory>
    requires workers { IsWithin 1 64 task.workers }
    requires lender { IsLender task.lender }
    requires few { length scripts.items < 2 ^ 32 }
    ensures { IfOk result (IsPrintout (IsServedAlone K.Chunks.source (kind_of task.lender) J.worked) (outcome_text script_text)
        (λ served. served.starved) scripts.items) }
{
    let blank = Blank::new(MOST_LENT);
    in_pool::<Brand, R, K, J>(rt, alloc, task, maker, blank, job, scripts)
}

// `L` names the pool; it occurs in no type of the signature.
#[tactic(auto, using(crate::proofs::TaskLemmas::has_regions, crate::proofs::TaskLemmas::has_limit))]
fn in_pool<
    L: PoolName + Send + Sync,
    R: Threads + Wait + Sync,
    K: ChunkMaker + Drop + Send,
    J: Job<K::Chunks> + Sync,
>(
    rt: &R,
    alloc: Global,
    task: Task,
    maker: K,
    blank: Blank,
    job: &J,
    scripts: Vec<Script>,
) -> Result<Printout<K::Chunks>, OutOfMemory>
    requires blank { IsBlankOf L.name L.parts blank }
    requires kind { L.kind ≡ kind_of task.lender }
    requires limit { L.limit ≡ limit_of task.lender }
    requires workers { IsWithin 1 64 task.workers }
    requires lender { IsLender task.lender }
    requires few { length scripts.items < 2 ^ 32 }
    ensures { IfOk result (IsPrintout (IsServedAlone K.Chunks.source (kind_of task.lender) J.worked) (outcome_text script_text)
        (λ served. served.starved) scripts.items) }
{
    let (kind, limit) = kind_and_limit(task.lender);
    let pool = AllocatorPool::<K, L>::of_kind(alloc, kind, limit, arenas(task), maker, blank)?;
    render_all(rt, alloc, &pool, task.workers, &Scripts { job }, scripts)
}
