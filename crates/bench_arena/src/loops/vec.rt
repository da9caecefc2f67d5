// Loops over vectors.
ghost use Rattle.std.specs.Prelude.{IfOk};
ghost use Rattle.arena_vec.specs.Vecs.{IsVecIn};

use super::{Bench, Clock, Failed, Heap, Timed, count};
use arena_items::Item;
use arena_vec::Vec;

// The number of numbers in a small vector, of those that are inserted at the front, and of those that are appended at
// once.
const FEW: u64 = 4;

const INSERTED: u64 = 64;

const SLICE: u64 = 256;

pub(super) fn time(bench: &Bench) -> Result<(), Failed> {
    bench.time("vec_push", 10_000_000, vec_push)?;
    bench.time("vec_push_reserved", 10_000_000, vec_push_reserved)?;
    bench.time("vec_sum", 10_000_000, vec_sum)?;
    bench.time_batches("vec_small", 10_000_000, small)?;
    bench.time("vec_extend", 50_000_000, vec_extend)?;
    bench.time_batches("vec_insert_front", 10_000_000, in_front)?;
    bench.time("vec_retain", 10_000_000, vec_retain)?;
    bench.time("vec_iter", 10_000_000, vec_iter)
}

pub(super) fn sizes(vec: Vec<u32>) -> u64 {
    vec.len() as u64 + vec.capacity() as u64
}

/// Returns a vector of `calls` numbers.
pub(super) fn numbers(a: &mut Heap, calls: u64) -> Result<Vec<u32>, Failed>
    ensures { IfOk result (IsVecIn ⟦<u32 as Item>⟧ a.new.memory) }
{
    let n = count(calls)?;
    let vec = Vec::from_iter_in(0..n, a)?;
    Ok(vec)
}

// Appends the numbers below n to the vector.
fn pushed(a: &mut Heap, vec: Vec<u32>, n: u32) -> Result<Vec<u32>, Failed>
    requires { IsVecIn ⟦<u32 as Item>⟧ a.old.memory vec }
{
    let mut vec = vec;
    for i in 0..n {
        vec.push(a, i)?;
    }
    Ok(vec)
}

// Returns the number at an index, or 0 past the end.
fn number_at(a: &Heap, vec: Vec<u32>, i: u32) -> u64
    requires { IsVecIn ⟦<u32 as Item>⟧ a.now.memory vec }
{
    if i < vec.len() {
        vec.get(a, i) as u64
    } else {
        0
    }
}

// Numbers that are appended.
fn vec_push(rt: &HostRuntime, a: &mut Heap, calls: u64) -> Result<Timed, Failed> {
    let n = count(calls)?;
    let clock = Clock::start(rt);
    let vec = pushed(a, Vec::new_in(), n)?;
    clock.stop(rt, sizes(vec))
}

// Numbers that are appended to a vector with room for them.
fn vec_push_reserved(rt: &HostRuntime, a: &mut Heap, calls: u64) -> Result<Timed, Failed> {
    let n = count(calls)?;
    let clock = Clock::start(rt);
    let vec = Vec::with_capacity_in(calls, a)?;
    let vec = pushed(a, vec, n)?;
    clock.stop(rt, sizes(vec))
}

// Numbers that are read by their index.
fn vec_sum(rt: &HostRuntime, a: &mut Heap, calls: u64) -> Result<Timed, Failed> {
    let vec = numbers(a, calls)?;
    let clock = Clock::start(rt);
    let mut number: u64 = 0;
    for i in 0..vec.len() {
        number = number.wrapping_add(vec.get(a, i) as u64);
    }
    clock.stop(rt, number)
}

// Appends numbers to new vectors of four, and adds up the last ones.
fn small(a: &mut Heap, values: u64) -> Result<u64, Failed> {
    let mut number: u64 = 0;
    for i in 0..count(values / FEW)? {
        let mut vec = Vec::new_in();
        for k in 0..FEW as u32 {
            vec.push(a, i.wrapping_add(k))?;
        }
        number = number.wrapping_add(number_at(a, vec, 3));
    }
    Ok(number)
}

// Appends numbers to a vector, several at once, `times` times.
fn extended(a: &mut Heap, source: &[u32; SLICE as usize], times: u64) -> Result<Vec<u32>, Failed> {
    let mut vec = Vec::new_in();
    for _ in 0..times {
        vec.extend_from_slice(a, source)?;
    }
    Ok(vec)
}

// Numbers that are appended 256 at a time. A call is one number.
fn vec_extend(rt: &HostRuntime, a: &mut Heap, calls: u64) -> Result<Timed, Failed> {
    let mut source = [0; SLICE as usize];
    for i in 0..SLICE {
        source[i as usize] = i as u32;
    }
    let clock = Clock::start(rt);
    let vec = extended(a, &source, calls / SLICE)?;
    clock.stop(rt, sizes(vec))
}

// Inserts numbers at the front of vectors, 64 in each, and adds up the first ones.
fn in_front(a: &mut Heap, values: u64) -> Result<u64, Failed> {
    let mut number: u64 = 0;
    for i in 0..count(values / INSERTED)? {
        let mut vec = Vec::with_capacity_in(INSERTED, a)?;
        for k in 0..INSERTED as u32 {
            vec.insert(a, 0, i.wrapping_add(k))?;
        }
        number = number.wrapping_add(number_at(a, vec, 0));
    }
    Ok(number)
}

// Numbers that a predicate keeps or removes. It keeps two in three.
fn vec_retain(rt: &HostRuntime, a: &mut Heap, calls: u64) -> Result<Timed, Failed> {
    let mut vec = numbers(a, calls)?;
    let clock = Clock::start(rt);
    vec.retain(a, |x| *x % 3 != 0);
    clock.stop(rt, vec.len() as u64)
}

// Numbers that are iterated in order.
fn vec_iter(rt: &HostRuntime, a: &mut Heap, calls: u64) -> Result<Timed, Failed> {
    let vec = numbers(a, calls)?;
    let clock = Clock::start(rt);
    let mut number: u64 = 0;
    for x in vec.into_iter(a) {
        number = number.wrapping_add(x as u64);
    }
    clock.stop(rt, number)
}
