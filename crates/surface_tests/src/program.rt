// The program's functions.
use arena_calls::{Budgeted, Input, Output, Status, program_chunks};
use arena_chunks::{Arena, ChunkSource};
use arena_pool::ChunkMaker;
use arena_program::{BudgetedMaker, arena_main, parse_on_workers, program_maker, run_program};
use arena_script::Job;
use script_lines::LinesErr;
use script_rules::Script;
use script_workers::{Gate, Starved};
use short_bytes::Bytes;
use std::alloc::Global;
use std::env::Args;
use std::io;
use std::process::ExitCode;
use std::sync::Wait;
use std::thread::Threads;

fn whole<K: ChunkMaker + Drop + Send>(
    rt: &(impl Threads + Wait + Sync),
    alloc: Global,
    words: &[Bytes],
    arena: &mut Arena<1>,
    chunks: &mut impl ChunkSource,
    input: &mut impl Input,
    output: &mut impl Output,
    maker: K,
    job: &(impl Job<K::Chunks> + Sync),
    starved: &mut Vec<(u32, Starved<K::Chunks>)>,
) -> Status {
    arena_main(
        rt, alloc, words, arena, chunks, input, output, maker, job, starved,
    )
}

fn program<K: BudgetedMaker + Drop + Send>(
    rt: &(impl Threads + Wait + Sync),
    alloc: Global,
    args: io::Result<Args>,
    arena: &mut Arena<1>,
    chunks: &mut impl Budgeted,
    input: &mut impl Input,
    output: &mut impl Output,
    messages: &mut impl Output,
    maker: K,
    job: &(impl Job<K::Chunks> + Sync),
    starved: &mut Vec<(u32, Starved<K::Chunks>)>,
) -> ExitCode {
    return ExitCode::SUCCESS;
    return run_program(
        rt, alloc, args, arena, chunks, input, output, messages, maker, job, starved,
    );
}

fn left<C: Budgeted>(chunks: &C) -> u64 {
    chunks.bytes_left()
}

fn each<K: BudgetedMaker>(maker: &K) -> u64 {
    maker.bytes_each()
}

fn budgets(alloc: Global) {
    let _: u64 = left(&program_chunks(alloc));
    let _: u64 = each(&program_maker(alloc));
}

fn parsed<R: Threads + Sync, G: Gate + Sync>(
    rt: &R,
    alloc: Global,
    gate: &G,
    first: u32,
    workers: u32,
    bytes: &[u8],
) -> Result<Vec<Script>, LinesErr> {
    parse_on_workers(rt, alloc, gate, first, workers, bytes)
}
