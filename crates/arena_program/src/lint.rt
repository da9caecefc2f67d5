// Lints the sources of the input.
ghost use Rattle.std.specs.Prelude.{◌≡◌, ◌<◌, ◌≤◌, ◌^◌, All, None, length, IfOk};
ghost use Rattle.arena_chunks.specs.Source.{View};
ghost use Rattle.arena_pool.specs.Names.{IsBlankOf};
ghost use Rattle.arena_pool.specs.declared.kind.PoolKind.TheVariants.{Standard};
ghost use Rattle.lint_reports.specs.Sources.{sources};
ghost use Rattle.arena_lint.specs.All.{IsLintedAlone};
ghost use Rattle.arena_calls.specs.Ends.{outside};
ghost use Rattle.arena_program.specs.Words.{IsWithin};
ghost use Rattle.arena_program.specs.PoolEnds.{LintEnds};
ghost use Rattle.arena_program.specs.Rendering.{IsPrintout, linted_text};

use crate::printout::{Printout, print_all};
use crate::rendering::render_all;
use arena_calls::{Input, Output, ReadErr, Status, read_all};
use arena_chunks::OutOfMemory;
use arena_lint::Linting;
use arena_pool::{AllocatorPool, ChunkMaker, MOST_LENT, PoolName};
use arena_workers::Starved;
use lint_reports::{Source, laws, sources_of};
use std::alloc::Global;
use std::marker::Brand;
use std::sync::Wait;
use std::sync::ledger::Blank;
use std::thread::Threads;

// Lints sources over a new standard pool, on threads. Returns the texts of their reports, in order, which the workers
// make.
fn lint_over_pool<R: Threads + Wait + Sync, K: ChunkMaker + Drop + Send>(
    rt: &R,
    alloc: Global,
    workers: u32,
    maker: K,
    sources: Vec<Source<'_>>,
) -> Result<Printout<K::Chunks>, OutOfMemory>
    requires workers { IsWithin 1 64 workers }
    requires few { length sources.items < 2 ^ 32 }
    requires short { All (λ bytes. length bytes ≤ 2 ^ 24) sources.items }
    ensures { IfOk result (IsPrintout (IsLintedAlone K.Chunks.source Standard) linted_text (λ linted. linted.starved) sources.entry.items) }
{
    let blank = Blank::new(MOST_LENT);
    lint_in_standard::<Brand, R, K>(rt, alloc, workers, maker, blank, sources)
}

// `L` names the pool; it occurs in no type of the signature.
fn lint_in_standard<
    L: PoolName + Send + Sync,
    R: Threads + Wait + Sync,
    K: ChunkMaker + Drop + Send,
>(
    rt: &R,
    alloc: Global,
    workers: u32,
    maker: K,
    blank: Blank,
    sources: Vec<Source<'_>>,
) -> Result<Printout<K::Chunks>, OutOfMemory>
    requires blank { IsBlankOf L.name L.parts blank }
    requires kind { L.kind ≡ Standard }
    requires limit { L.limit ≡ None }
    requires workers { IsWithin 1 64 workers }
    requires few { length sources.items < 2 ^ 32 }
    requires short { All (λ bytes. length bytes ≤ 2 ^ 24) sources.items }
    ensures { IfOk result (IsPrintout (IsLintedAlone K.Chunks.source Standard) linted_text (λ linted. linted.starved) sources.entry.items) }
{
    let pool = AllocatorPool::<K, L>::new(alloc, workers, maker, blank)?;
    render_all(rt, alloc, &pool, workers, &Linting::new(), sources)
}

// The sources of an input: few enough, and none too long, to be linted.
fn sources_in<'a>(alloc: Global, bytes: &'a [u8]) -> Result<Vec<Source<'a>>, OutOfMemory>
    requires { length bytes.now ≤ 2 ^ 24 }
    ensures sources { IfOk result (λ all. all.items ≡ sources bytes.now) }
    ensures few { IfOk result (λ all. length all.items < 2 ^ 32) }
    ensures short { IfOk result (λ all. All (λ source. length source ≤ 2 ^ 24) all.items) }
{
    laws::sizes();
    sources_of(alloc, bytes)
}

/// Reads all of the input as sources, lints each, and writes their reports. `starved` gains what shows that sources
/// were starved, once memory can no longer run out.
#[tactic(auto, using(crate::proofs::RunLemmas::whole_front))]
pub fn run_sources<I: Input, O: Output, R: Threads + Wait + Sync, K: ChunkMaker + Drop + Send>(
    rt: &R,
    alloc: Global,
    workers: u32,
    input: &mut I,
    output: &mut O,
    maker: K,
    starved: &mut Vec<(u32, Starved<K::Chunks>)>,
) -> Status
    requires workers { IsWithin 1 64 workers }
    ensures { (arena : View) → LintEnds K.Chunks.source result
        (outside (I.left input.old) (I.faults input.old) (O.written output.old) (O.faults output.old) arena)
        (outside (I.left input.new) (I.faults input.new) (O.written output.new) (O.faults output.new) arena)
        starved.old.items starved.new.items }
{
    let bytes = match read_all(alloc, input) {
        Ok(bytes) => bytes,
        Err(ReadErr::Failed) => return Status::ReadFault,
        Err(ReadErr::TooLong) => return Status::InputTooLong,
        Err(ReadErr::OutOfMemory) => return Status::OutOfMemory,
    };
    let Ok(sources) = sources_in(alloc, bytes.as_slice()) else {
        return Status::OutOfMemory;
    };
    let Ok(printout) = lint_over_pool(rt, alloc, workers, maker, sources) else {
        return Status::OutOfMemory;
    };
    let Ok(texts) = printout.into_texts(starved) else {
        return Status::OutOfMemory;
    };
    print_all(output, texts.as_slice())
}
