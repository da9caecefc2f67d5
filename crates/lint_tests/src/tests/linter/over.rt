// Lints the sources of an input over a pool that is made for them.
ghost use Rattle.std.specs.Prelude.{◌≡◌, ◌≤◌, ◌^◌, All, IsTrue, None, IfOk, length};
ghost use Rattle.arena_pool.specs.Names.{IsBlankOf};
ghost use Rattle.arena_pool.specs.declared.kind.PoolKind.{PoolKind};

use super::super::{Rt, same_at};
use arena_chunks::ChunkSource;
use arena_lint::{Gate, Linted, NoGate, lint_all};
use arena_pool::{AllocatorPool, ChunkMaker, MOST_LENT, MemoryMaker, PoolKind, PoolName};
use lint_reports::{Source, put_report, sources_of};
use short_bytes::Bytes;
use std::alloc::{Alloc, Global};
use std::marker::Brand;
use std::process::Abort;
use std::sync::ledger::Blank;
use std::test::*;

/// The pool's kind, its arenas, and the number of workers.
pub type Over = (PoolKind, u32, u32);

/// One worker on a pool that begins with one arena.
pub const ALONE: Over = (PoolKind::Standard, 1, 1);

// Whether each source is short enough for a linter.
fn are_short(sources: &[Source<'_>]) -> bool
    ensures { IsTrue result → All (λ bytes. length bytes ≤ 2 ^ 24) sources.now }
{
    sources
        .iter()
        .all(|source| source.as_slice().len() <= 16_777_216)
}

// Returns the sources with bytes of their own.
fn owned(alloc: Global, sources: &[Source<'_>]) -> Result<Vec<Bytes>, Fail>
    ensures { IfOk result (λ all. all.items ≡ sources.now) }
{
    let mut all = Vec::new(alloc);
    for source in sources {
        all.push(Bytes::of(alloc, source.as_slice())?)?;
    }
    Ok(all)
}

fn lines_of<C: ChunkSource>(alloc: Global, all: &[Linted<C>]) -> Result<Vec<u8>, Fail> {
    let mut text = Vec::new(alloc);
    for (i, linted) in all.iter().enumerate() {
        put_report(&mut text, i as u64, &linted.report)?;
    }
    Ok(text)
}

// Returns the lines of the sources' reports over a pool. After that all arenas are given back, except those of starved
// sources.
fn lint_with<K: ChunkMaker + Drop + Send, L: PoolName + Send + Sync>(
    rt: &impl Rt,
    pool: &AllocatorPool<K, L>,
    workers: u32,
    gate: &(impl Gate + Sync),
    input: &[u8],
) -> Result<Vec<u8>, Fail> {
    let alloc = rt.alloc();
    let sources = sources_of(alloc, input)?;
    assert!(rt; workers > 0 && workers <= 64);
    assert!(rt; sources.len() < 1 << 20 && are_short(&sources));
    let linted = lint_all(rt, alloc, pool, workers, gate, &owned(alloc, &sources)?);
    let all = linted.ok().expect(rt, "reports");
    let starved = all.iter().filter(|linted| linted.starved.is_some()).count();
    let counts = pool.counts(rt);
    assert!(rt; counts.lent == 0 && counts.given_up == starved as u64);
    lines_of(alloc, &all)
}

// The pool is named by `L`, which occurs in no type of the signature.
fn lint_named<L: PoolName + Send + Sync, K: ChunkMaker + Drop + Send>(
    rt: &impl Rt,
    over: Over,
    maker: K,
    gate: &(impl Gate + Sync),
    input: &[u8],
    blank: Blank,
) -> Result<Vec<u8>, Fail>
    requires blank { IsBlankOf L.name L.parts blank }
    requires kind { L.kind ≡ over.0 }
    requires limit { L.limit ≡ None }
{
    let (kind, arenas, workers) = over;
    let made = match kind {
        PoolKind::Standard => AllocatorPool::<K, L>::new(rt.alloc(), arenas, maker, blank),
        PoolKind::FixedSize { bytes } => {
            assert!(rt; bytes % 16 == 0 && bytes >= 48);
            AllocatorPool::new_fixed_size(rt.alloc(), arenas, bytes, maker, blank)
        }
    };
    lint_with(rt, &made.ok().expect(rt, "a pool"), workers, gate, input)
}

/// Returns the lines of the reports of an input's sources over a new pool.
pub(super) fn linted_over<K: ChunkMaker + Drop + Send>(
    rt: &impl Rt,
    over: Over,
    maker: K,
    gate: &(impl Gate + Sync),
    input: &[u8],
) -> Result<Vec<u8>, Fail> {
    lint_named::<Brand, K>(rt, over, maker, gate, input, Blank::new(MOST_LENT))
}

/// Checks the lines of an input's reports, if each arena's source of chunks has this budget.
pub(super) fn tells(
    rt: &impl Rt,
    over: Over,
    budget: u64,
    input: &[u8],
    lines: &[u8],
) -> Result<(), Fail> {
    let maker = MemoryMaker::new(rt.alloc(), budget);
    let told = linted_over(rt, over, maker, &NoGate, input)?;
    same_at(rt, (over.2, budget), told.as_slice() == lines, true);
    Ok(())
}
