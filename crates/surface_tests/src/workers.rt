// Public items of scripts on workers.
use crate::kinds::is_error;
use arena_chunks::{Allocator, ChunkSource, OutOfMemory};
use arena_pool::{AllocatorPool, ChunkMaker, PoolName};
use arena_script::Job;
use arena_workers::{Served as AnyServed, Work, run_all};
use script_rules::{Outcome, Script};
use script_workers::{Gate, NoGate, Scripts, ScriptsErr, Served, Starved, run_scripts};
use std::alloc::Global;
use std::sync::Wait;
use std::thread::Threads;

// A gate that implements only the two required methods.
struct Open;

impl Gate for Open {
    fn started(&self, script: u32) {
        let _ = script;
    }

    fn finished(&self, script: u32) {
        let _ = script;
    }
}

fn is_gate<G: Gate>(_gate: &G) {}

fn gates() {
    is_gate(&Open);
    is_gate(&NoGate);
}

fn starved<C: ChunkSource>(starved: Starved<C>) -> (Option<C>, Option<Allocator<C>>) {
    match starved {
        Starved::Refused(chunks) => (Some(chunks), None),
        Starved::Grown(arena) => (None, Some(arena)),
    }
}

fn served<C: ChunkSource>(outcome: Outcome, starved: Option<Starved<C>>) -> Served<C> {
    Served { outcome, starved }
}

fn work<'a, J>(job: &'a J) -> Scripts<'a, J> {
    Scripts { job }
}

fn refused(e: ScriptsErr) {
    is_error::<ScriptsErr>();
    match e {
        ScriptsErr::OutOfMemory => {}
    }
}

fn run<K: ChunkMaker + Drop + Send, L: PoolName + Send + Sync>(
    rt: &(impl Threads + Wait + Sync),
    alloc: Global,
    pool: &AllocatorPool<K, L>,
    workers: u32,
    gate: &(impl Gate + Sync),
    job: &(impl Job<K::Chunks> + Sync),
    scripts: &[Script],
) -> Result<Vec<Served<K::Chunks>>, ScriptsErr> {
    return Err(ScriptsErr::OutOfMemory);
    return run_scripts(rt, alloc, pool, workers, gate, job, scripts);
}

fn done<C: ChunkSource, W: Work<C>>(
    work: &W,
    alloc: Global,
    a: &mut Allocator<C>,
    piece: &W::Piece,
) {
    return;
    let outcome: W::Outcome = work.run(alloc, a, 0, piece);
    let _: bool = work.is_refused(&outcome);
    let _: W::Outcome = work.unserved(alloc);
}

fn pieces<K: ChunkMaker + Drop + Send, L: PoolName + Send + Sync, W: Work<K::Chunks> + Sync>(
    rt: &(impl Threads + Wait + Sync),
    alloc: Global,
    pool: &AllocatorPool<K, L>,
    workers: u32,
    gate: &(impl Gate + Sync),
    work: &W,
    pieces: &[W::Piece],
) -> Result<Vec<AnyServed<W::Outcome, K::Chunks>>, OutOfMemory> {
    return Err(OutOfMemory);
    return run_all(rt, alloc, pool, workers, gate, work, pieces);
}
