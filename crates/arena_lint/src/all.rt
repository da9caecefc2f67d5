// Many sources over one pool.
ghost use Rattle.std.specs.Prelude.{◌≡◌, ◌<◌, ◌≤◌, ◌^◌, All, length, IfOk};
ghost use Rattle.std.specs.List.{AllZip};
ghost use Rattle.arena_lint.specs.All.{IsLintedAlone};

use crate::parts::{LintErr, Linted, lint_parts};
use arena_pool::{AllocatorPool, ChunkMaker, OutOfMemory, PoolName};
use arena_workers::Gate;
use lint_reports::Source;
use short_bytes::Bytes;
use std::alloc::Global;
use std::sync::Wait;
use std::thread::Threads;

// The sources as parts. Copies no byte.
fn parts_of<'a>(alloc: Global, sources: &'a [Bytes]) -> Result<Vec<Source<'a>>, OutOfMemory>
    ensures { IfOk result (λ parts. parts.items ≡ sources.now) }
{
    let mut parts = Vec::with_capacity(alloc, sources.len())?;
    for bytes in sources {
        let part = Source::new(bytes.as_slice());
        parts.push(part)?;
    }
    Ok(parts)
}

/// Lints texts over a pool, on threads as `run_all` of `arena_workers` starts them. Returns the report of each text, in
/// order. Each text has an arena of the pool's kind to itself, of which nothing is used, and the promises about its
/// report don't depend on what is linted before it or at the same time, nor on how many workers there are.
///
/// - It is `Full` only over a fixed pool whose arenas have fewer than 4096 bytes for each byte of the text and 4096
///   more.
/// - It is `Refused` only over a standard pool, and then `starved` shows that the arena's source of chunks refused, or
///   that the arena grew large. Such an arena doesn't go back to the pool.
/// - It is `OutOfMemory` where there is no memory for it: for an arena, or for what was found.
///
/// The worker that lints a text calls the gate when it begins and when it ends. The call waits at the pool's lock; over
/// a fixed pool with no arena, it waits forever if there are texts.
///
/// # Errors
///
/// Out of memory for the claims, the workers or their reports.
pub fn lint_all<
    R: Threads + Wait + Sync,
    K: ChunkMaker + Drop + Send,
    L: PoolName + Send + Sync,
    G: Gate + Sync,
>(
    rt: &R,
    alloc: Global,
    pool: &AllocatorPool<K, L>,
    workers: u32,
    gate: &G,
    sources: &[Bytes],
) -> Result<Vec<Linted<K::Chunks>>, LintErr>
    requires workers { (0 < workers) × (workers ≤ 64) }
    requires few { length sources.now < 2 ^ 32 }
    requires short { All (λ bytes. length bytes ≤ 2 ^ 24) sources.now }
    ensures { IfOk result (λ all. AllZip (IsLintedAlone K.Chunks.source L.kind) sources.now all.items) }
{
    let parts = parts_of(alloc, sources)?;
    lint_parts(rt, alloc, pool, workers, gate, parts.as_slice())
}
