// Loops over blocks.
ghost use Rattle.std.specs.Prelude.{◌≡◌, IfOk};

use super::{Bench, Clock, Failed, Heap, Timed, new_allocator, with_capacity};
use arena_chunks::Alloc;
use arena_place::Layout;

// Between two resets: the number of blocks that are placed, and the number of bytes by which a block of one byte is
// grown.
const PLACED: u64 = 16384;

const GROWN: u64 = 63;

pub(super) fn time(bench: &Bench) -> Result<(), Failed> {
    bench.time("alloc_warm", 10_000_000, alloc_warm)?;
    bench.time("grow_at_cursor", 10_000_000, grow_at_cursor)?;
    // In an arena of the closure's own the compiler sees the values of its fields.
    bench.time("reset_empty", 10_000_000, |rt, _, calls| {
        let mut a = new_allocator(rt);
        reset_empty(rt, &mut a, calls)
    })?;
    bench.time("reset_chunks", 100_000, reset_chunks)
}

pub(super) fn layout(size: u64, align: u64) -> Result<Layout, Failed>
    ensures { IfOk result (λ l. l.size ≡ size) }
{
    Layout::new(size, align).ok_or(Failed::NoPlace)
}

// Sizes 1 to 64 and alignments 1 to 8, in an unpredictable order.
fn small_layouts() -> Result<[Layout; 64], Failed> {
    let mut layouts = [layout(1, 1)?; 64];
    for i in 0..64u64 {
        layouts[i as usize] = layout(i * 29 % 64 + 1, 1 << (i * 7 % 4))?;
    }
    Ok(layouts)
}

// Places blocks, and returns the number of bytes in use.
fn place_round(a: &mut Heap, layouts: &[Layout; 64], blocks: u64) -> Result<u64, Failed> {
    for i in 0..blocks {
        a.alloc_layout(layouts[(i % 64) as usize])?;
    }
    let used = a.used_bytes();
    a.reset();
    Ok(used)
}

// Blocks of mixed small layouts, in a chunk that is reset before it is full.
fn alloc_warm(rt: &HostRuntime, a: &mut Heap, calls: u64) -> Result<Timed, Failed> {
    *a = with_capacity(rt, 1 << 20)?;
    let layouts = small_layouts()?;
    let clock = Clock::start(rt);
    let mut number: u64 = 0;
    for _ in 0..calls / PLACED {
        number = number.wrapping_add(place_round(a, &layouts, PLACED)?);
    }
    number = number.wrapping_add(place_round(a, &layouts, calls % PLACED)?);
    clock.stop(rt, number)
}

// Places a block of one byte, grows it one byte at a time, and returns the number of bytes in use.
fn grow_round(a: &mut Heap, most: u64) -> Result<u64, Failed> {
    let mut block = a.alloc_layout(layout(1, 1)?)?;
    for size in 2..=most {
        block = a.grow(block, layout(size, 1)?)?;
    }
    let used = a.used_bytes();
    a.reset();
    Ok(used)
}

// A block of 1 to 64 bytes, grown by one byte at a time.
fn grow_at_cursor(rt: &HostRuntime, a: &mut Heap, calls: u64) -> Result<Timed, Failed> {
    *a = with_capacity(rt, 1 << 20)?;
    let clock = Clock::start(rt);
    let mut number: u64 = 0;
    for _ in 0..calls / GROWN {
        number = number.wrapping_add(grow_round(a, GROWN + 1)?);
    }
    if calls % GROWN > 0 {
        number = number.wrapping_add(grow_round(a, calls % GROWN + 1)?);
    }
    clock.stop(rt, number)
}

// One block of eight bytes, and a reset, which keeps the first chunk.
fn reset_empty(rt: &HostRuntime, a: &mut Heap, calls: u64) -> Result<Timed, Failed> {
    let eight = layout(8, 8)?;
    let clock = Clock::start(rt);
    let mut number: u64 = 0;
    for _ in 0..calls {
        a.alloc_layout(eight)?;
        number = number.wrapping_add(a.used_bytes());
        a.reset();
    }
    clock.stop(rt, number)
}

// Layouts of blocks that take a chunk each.
fn large_layouts() -> Result<[Layout; 3], Failed> {
    Ok([layout(1, 1)?, layout(16320, 1)?, layout(32640, 1)?])
}

// Places blocks with these layouts, resets, and returns the number of bytes that the chunks have after that.
fn placed_and_reset(a: &mut Heap, layouts: &[Layout; 3]) -> Result<u64, Failed> {
    for layout in layouts {
        a.alloc_layout(*layout)?;
    }
    a.reset();
    Ok(a.capacity())
}

fn new_and_reset(rt: &HostRuntime, layouts: &[Layout; 3]) -> Result<u64, Failed> {
    let mut a = new_allocator(rt);
    placed_and_reset(&mut a, layouts)
}

// A new arena of three chunks, of which a reset frees two.
fn reset_chunks(rt: &HostRuntime, _: &mut Heap, calls: u64) -> Result<Timed, Failed> {
    let layouts = large_layouts()?;
    let clock = Clock::start(rt);
    let mut number: u64 = 0;
    for _ in 0..calls {
        number = number.wrapping_add(new_and_reset(rt, &layouts)?);
    }
    clock.stop(rt, number)
}
