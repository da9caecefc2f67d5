// Many scripts over one pool.
ghost use Rattle.std.specs.Prelude.{◌≡◌, ◌<◌, ◌≤◌, ◌^◌, length, IfOk};
ghost use Rattle.std.specs.List.{AllZip};
ghost use Rattle.script_workers.specs.Serving.{IsServedAlone};

use crate::scripts::Scripts;
use arena_pool::{AllocatorPool, ChunkMaker, OutOfMemory, PoolName};
use arena_script::Job;
use arena_workers::{Gate, run_all};
use script_rules::{Outcome, Script};
use std::alloc::Global;
use std::sync::Wait;
use std::thread::Threads;

/// What came of a script: its outcome, and what shows that it was starved, exactly if it ended refused.
pub type Served<C> = arena_workers::Served<Outcome, C>;

/// Why no outcomes are returned.
#[derive(Clone, Copy, PartialEq, Eq, Debug, thiserror::Error)]
pub enum ScriptsErr {
    /// Out of memory for the claims, the workers or their outcomes.
    #[error("out of memory")]
    OutOfMemory,
}

impl From<OutOfMemory> for ScriptsErr {
    fn from(_: OutOfMemory) -> ScriptsErr {
        ScriptsErr::OutOfMemory
    }
}

/// Runs scripts over a pool, on threads as `run_all` of `arena_workers` starts them. Returns what came of each script,
/// in order. Each script has an arena of the pool's kind to itself, of which nothing is used, and the promises about
/// its outcome don't depend on what runs before it or at the same time, nor on how many workers there are.
///
/// - It ends `Full` only over a fixed pool whose arenas have fewer bytes than the script costs up to the next command.
/// - It ends `Refused` only over a standard pool, and then `starved` shows that the arena's source refused, or that the
///   arena grew large. Such an arena doesn't go back to the pool.
/// - A script for which there is no memory, for an arena or for its outcome, ends `OutOfMemory` with no reply.
///
/// The worker that runs a script calls the gate when it begins and when it ends. The call waits at the pool's lock;
/// over a fixed pool with no arena, it waits forever if there are scripts.
///
/// # Errors
///
/// Out of memory for the claims, the workers or their outcomes.
#[tactic(auto, using(crate::proofs::AloneLemmas::all_alone))]
pub fn run_scripts<
    R: Threads + Wait + Sync,
    K: ChunkMaker + Drop + Send,
    L: PoolName + Send + Sync,
    G: Gate + Sync,
    J: Job<K::Chunks> + Sync,
>(
    rt: &R,
    alloc: Global,
    pool: &AllocatorPool<K, L>,
    workers: u32,
    gate: &G,
    job: &J,
    scripts: &[Script],
) -> Result<Vec<Served<K::Chunks>>, ScriptsErr>
    requires workers { (0 < workers) × (workers ≤ 64) }
    requires few { length scripts.now < 2 ^ 32 }
    ensures { IfOk result (λ all. AllZip (IsServedAlone K.Chunks.source L.kind J.worked) scripts.now all.items) }
{
    Ok(run_all(rt, alloc, pool, workers, gate, &Scripts { job }, scripts)?)
}
