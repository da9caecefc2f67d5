// Public items of the linter.
use crate::kinds::is_error;
use arena_chunks::{Allocator, ChunkSource};
use arena_lint::{
    FileReport, FindKind, Finding, Findings, LintErr, Linted, Linting, lint_all, lint_one,
    lint_text,
};
use arena_pool::{AllocatorPool, ChunkMaker, PoolName};
use script_workers::{Gate, Starved};
use short_bytes::Bytes;
use std::alloc::Global;
use std::sync::Wait;
use std::thread::Threads;

fn kinds() -> [FindKind; 3] {
    [FindKind::Undefined, FindKind::Redefined, FindKind::Shadowed]
}

fn finding(kind: FindKind, name: Bytes) -> Finding {
    Finding { kind, name }
}

fn findings(findings: &Findings) {
    is_error::<LintErr>();
    let _: fn(&Findings) -> u64 = Findings::len;
    return;
    let _: &[Finding] = findings.as_slice();
}

fn reported(report: FileReport) -> (Option<Findings>, u64) {
    match report {
        FileReport::Checked(found) => (Some(found), 0),
        FileReport::Syntax { at } | FileReport::TooDeep { at } | FileReport::NumberTooBig { at } =>
            (None, at),
        FileReport::Full | FileReport::Refused | FileReport::OutOfMemory => (None, 0),
    }
}

fn linted<C: ChunkSource>(report: FileReport, starved: Option<Starved<C>>) -> Linted<C> {
    Linted { report, starved }
}

fn alone<C: ChunkSource>(alloc: Global, a: &mut Allocator<C>, src: &[u8]) {
    return;
    let _: FileReport = lint_one(alloc, a, src);
    let _: Result<(Vec<u8>, bool), FileReport> = lint_text(alloc, a, src, 0);
}

fn work<'a>() -> Linting<'a> {
    Linting::new()
}

fn refused(e: LintErr) {
    match e {
        LintErr::OutOfMemory => {}
    }
}

fn all<K: ChunkMaker + Drop + Send, L: PoolName + Send + Sync>(
    rt: &(impl Threads + Wait + Sync),
    alloc: Global,
    pool: &AllocatorPool<K, L>,
    workers: u32,
    gate: &(impl Gate + Sync),
    sources: &[Bytes],
) -> Result<Vec<Linted<K::Chunks>>, LintErr> {
    return Err(LintErr::OutOfMemory);
    return lint_all(rt, alloc, pool, workers, gate, sources);
}
