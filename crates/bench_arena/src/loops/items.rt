// Loops over values.
use super::{Bench, Clock, Failed, Heap, Timed};
use arena_items::{ArenaItems, Box};

// The number of numbers that are copied at once.
const COPIED: u64 = 1024;

pub(super) fn time(bench: &Bench) -> Result<(), Failed> {
    let mut source = [0; COPIED as usize];
    for i in 0..COPIED {
        source[i as usize] = i as u32;
    }
    bench.time_batches("box_new", 10_000_000, boxes)?;
    bench.time_batches(
        "slice_copy",
        50_000_000,
        |a, values| slices(a, &source, values),
    )?;
    bench.time_batches("str_copy", 10_000_000, texts)?;
    bench.time("alloc_fixed", 10_000_000, alloc_fixed)
}

// Places boxed numbers, and adds up what is read from them.
fn boxes(a: &mut Heap, values: u64) -> Result<u64, Failed> {
    let mut number: u64 = 0;
    for i in 0..values {
        let boxed = Box::new_in(i, a)?;
        number = number.wrapping_add(boxed.get(a));
    }
    Ok(number)
}

// Copies numbers, 1,024 at a time, and adds up some of them. A call is one number.
fn slices(a: &mut Heap, source: &[u32; COPIED as usize], values: u64) -> Result<u64, Failed> {
    let mut number: u64 = 0;
    for i in 0..values / COPIED {
        let slice = a.alloc_slice_copy(source)?;
        number = number.wrapping_add(slice.get(a, i % COPIED) as u64);
    }
    Ok(number)
}

// Places texts of ten bytes, and adds up their lengths.
fn texts(a: &mut Heap, values: u64) -> Result<u64, Failed> {
    let mut number: u64 = 0;
    for _ in 0..values {
        let text = a.alloc_str("identifier")?;
        number = number.wrapping_add(text.block.size);
    }
    Ok(number)
}

// Boxed numbers in memory that wasn't used before.
fn alloc_fixed(rt: &HostRuntime, a: &mut Heap, calls: u64) -> Result<Timed, Failed> {
    let clock = Clock::start(rt);
    for i in 0..calls {
        a.alloc(i)?;
    }
    clock.stop(rt, a.used_bytes())
}
