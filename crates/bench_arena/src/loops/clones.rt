// Loops over copies to another arena.
use super::maps::filled;
use super::vec::{numbers, sizes};
use super::{Bench, Clock, Failed, Heap, Timed, count, new_allocator};
use arena_clone::CloneIn;

pub(super) fn time(bench: &Bench) -> Result<(), Failed> {
    bench.time("vec_clone", 10_000_000, vec_clone)?;
    bench.time("map_clone", 1_000_000, map_clone)
}

// A vector of numbers that is copied. A call is one number.
fn vec_clone(rt: &HostRuntime, a: &mut Heap, calls: u64) -> Result<Timed, Failed> {
    let vec = numbers(a, calls)?;
    let mut other = new_allocator(rt);
    let clock = Clock::start(rt);
    let copy = vec.clone_in(a, &mut other)?;
    clock.stop(rt, sizes(copy))
}

// A map of numbers that is copied. A call is one pair.
fn map_clone(rt: &HostRuntime, a: &mut Heap, calls: u64) -> Result<Timed, Failed> {
    let n = count(calls)?;
    let map = filled(a, n)?;
    let mut other = new_allocator(rt);
    let clock = Clock::start(rt);
    let copy = map.clone_in(a, &mut other)?;
    clock.stop(rt, copy.len() as u64)
}
