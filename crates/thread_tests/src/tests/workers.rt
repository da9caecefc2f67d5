// Helpers for the tests of workers: scripts by their numbers, and how they end.
mod crowds;
mod gates;
mod stages;
mod twice;

use super::{Pool, Rt};
use arena_chunks::MemoryChunks;
use arena_pool::{Counts, PoolName};
use arena_rules::OutOfMemory;
use arena_script::Job;
use script_rules::{Command, Ended, Script};
use script_workers::{Gate, run_scripts};
use std::alloc::Global;
use std::test::*;

type Served = script_workers::Served<MemoryChunks>;

/// A number of bits for which no arena here has room: they take 536,870,912 bytes.
const VAST: u32 = u32::MAX;

// A script that makes a value, its number, and a set of `bits` bits.
fn script(alloc: Global, number: usize, bits: u32) -> Result<Script, OutOfMemory> {
    let value = number as u64;
    let mut script = Script::new(alloc);
    script.push(Command::MakeValue { name: 0, value })?;
    script.push(Command::MakeBits {
        name: 1,
        capacity: bits,
    })?;
    Ok(script)
}

// `count` scripts with small sets, except that those whose number is a multiple of `vast` have a vast set.
fn scripts(alloc: Global, count: usize, vast: usize) -> Result<Vec<Script>, Fail> {
    let mut all = Vec::new(alloc);
    for number in 0..count {
        let bits = if is_vast(number, vast) { VAST } else { 65 };
        all.push(script(alloc, number, bits)?)?;
    }
    Ok(all)
}

// Whether the number is a multiple of `vast`; never if `vast` is 0.
fn is_vast(number: usize, vast: usize) -> bool {
    vast > 0 && number % vast == 0
}

// Whether a script ended `done`. Its replies are then those that it has alone, by contract.
fn is_done(served: &Served) -> bool {
    served.outcome.ended == Ended::Done && served.starved.is_none()
}

// Runs scripts over a pool. Returns the outcome of each, and the pool's counts after that.
fn run_over<L: PoolName + Send + Sync>(
    rt: &impl Rt,
    pool: &Pool<L>,
    workers: u32,
    gate: &(impl Gate + Sync),
    job: &(impl Job<MemoryChunks> + Sync),
    scripts: &[Script],
) -> (Vec<Served>, Counts) {
    assert!(rt; workers > 0 && workers <= 64 && scripts.len() < 1 << 20);
    let ran = run_scripts(rt, rt.alloc(), pool, workers, gate, job, scripts);
    (ran.ok().expect(rt, "outcomes"), pool.counts(rt))
}
