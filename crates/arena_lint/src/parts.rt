// Parts of one input over one pool.
ghost use Rattle.std.specs.Prelude.{◌≡◌, ◌<◌, ◌≤◌, ◌^◌, All, length, map, IfOk};
ghost use Rattle.std.specs.List.{AllZip};
ghost use Rattle.arena_lint.specs.All.{IsLintedAlone, linted, is_refused};

use crate::lint::lint_one;
use arena_chunks::{Allocator, ChunkSource};
use arena_pool::{AllocatorPool, ChunkMaker, OutOfMemory, PoolName};
use arena_workers::{Gate, Served, Starved, Work, run_all};
use lint_reports::{FileReport, Source};
use std::alloc::Global;
use std::sync::Wait;
use std::thread::Threads;

/// The result for a source.
#[derive(Drop)]
pub struct Linted<C: ChunkSource> {
    /// Its report.
    pub report: FileReport,
    /// What shows that it was starved, exactly if the report is `Refused`.
    pub starved: Option<Starved<C>>,
}

/// Why no reports are returned.
#[derive(Clone, Copy, PartialEq, Eq, Debug, thiserror::Error)]
pub enum LintErr {
    /// Out of memory for the claims, the workers or the reports.
    #[error("out of memory")]
    OutOfMemory,
}

impl From<OutOfMemory> for LintErr {
    fn from(_: OutOfMemory) -> LintErr {
        LintErr::OutOfMemory
    }
}

/// The work of linting sources, for callers of `run_all` that wrap it; `lint_parts` does this work.
#[derive(Drop)]
pub struct Linting<'a> {
    // Is empty, and is there for the lifetime of the sources alone.
    of: &'a [u8],
}

impl<'a> Linting<'a> {
    /// Returns this work.
    pub fn new() -> Linting<'a> {
        Linting { of: &[] }
    }
}

impl<'a, C: ChunkSource> Work<C> for Linting<'a> {
    type Piece = Source<'a>;

    type Outcome = FileReport;

    ghost use Rattle.arena_lint.specs.All.{lint_terms};

    ghost terms = { lint_terms };

    #[tactic(auto, using(crate::proofs::AllLemmas::kind_kept))]
    fn run(&self, alloc: Global, a: &mut Allocator<C>, _i: u32, piece: &Source<'a>) -> FileReport {
        lint_one(alloc, a, piece.as_slice())
    }

    fn unserved(&self, _alloc: Global) -> FileReport {
        FileReport::OutOfMemory
    }

    fn is_refused(&self, outcome: &FileReport) -> bool {
        matches!(outcome, FileReport::Refused)
    }
}

// The results of the work, in the types of the linter.
fn with_names<C: ChunkSource + Drop>(
    alloc: Global,
    all: Vec<Served<FileReport, C>>,
) -> Result<Vec<Linted<C>>, OutOfMemory>
    ensures { IfOk result (λ v. v.items ≡ map linted all.items) }
{
    let mut each = Vec::with_capacity(alloc, all.len())?;
    for served in all {
        let Served {
            outcome: report,
            starved,
        } = served;
        each.push(Linted { report, starved })?;
    }
    Ok(each)
}

/// Does what `lint_all` does, for sources that are parts of one input. Copies no byte.
///
/// # Errors
///
/// Out of memory for the claims, the workers or their reports.
#[tactic(auto, using(crate::proofs::AllLemmas::all_alone))]
pub fn lint_parts<
    R: Threads + Wait + Sync,
    K: ChunkMaker + Drop + Send,
    L: PoolName + Send + Sync,
    G: Gate + Sync,
>(
    rt: &R,
    alloc: Global,
    pool: &AllocatorPool<K, L>,
    workers: u32,
    gate: &G,
    sources: &[Source<'_>],
) -> Result<Vec<Linted<K::Chunks>>, LintErr>
    requires workers { (0 < workers) × (workers ≤ 64) }
    requires few { length sources.now < 2 ^ 32 }
    requires short { All (λ bytes. length bytes ≤ 2 ^ 24) sources.now }
    ensures { IfOk result (λ all. AllZip (IsLintedAlone K.Chunks.source L.kind) sources.now all.items) }
{
    let all = run_all(rt, alloc, pool, workers, gate, &Linting::new(), sources)?;
    Ok(with_names(alloc, all)?)
}
