// Loops over blocks in older chunks.
ghost use Rattle.std.specs.Prelude.{◌≡◌, ◌≤◌, ◌<◌, IfOk, IsTrue};
ghost use Rattle.std.specs.List.{All};
ghost use Rattle.arena_chunks.specs.Memory.{is_readable};

use super::arena::layout;
use super::{Bench, Clock, Failed, Timed};
use arena_chunks::{Arena, Block, MemoryChunks};
use std::alloc::{AllocError, Global};

// The number of blocks, and the number of calls after which their unpredictable order repeats.
const BLOCKS: u64 = 1024;

const ORDER: u64 = 65536;

// The bytes that the source has for each chunk: enough for the smallest one, so no chunk is twice as large as the one
// before.
const SMALLEST: u64 = 1 << 14;

pub(super) fn time(bench: &Bench) -> Result<(), Failed> {
    let chunks = bench.chunks;
    bench.time(
        "read_older",
        10_000_000,
        |rt, _, calls| read_older(rt, calls, chunks),
    )?;
    bench.time(
        "write_older",
        10_000_000,
        |rt, _, calls| write_older(rt, calls, chunks),
    )
}

// Places blocks of eight bytes, distributed evenly over the older chunks, or all in the newest chunk if there are no
// older ones.
fn place_scattered(
    arena: &mut Arena<1>,
    chunks: &mut MemoryChunks,
    older: u64,
) -> Result<[Block; BLOCKS as usize], Failed>
    requires { older < 1024 }
{
    let eight = layout(8, 8)?;
    let mut blocks = [Block::empty(8); BLOCKS as usize];
    for i in 0..BLOCKS {
        chunks.left = SMALLEST;
        let block = arena.try_alloc_layout(chunks, eight)?;
        arena.write(block, 0, &i.to_le_bytes());
        blocks[i as usize] = block;
        if i * older / BLOCKS < (i + 1) * older / BLOCKS {
            let rest = layout(arena.chunk_capacity(), 1)?;
            arena.try_alloc_layout(chunks, rest)?;
        }
    }
    chunks.left = SMALLEST;
    arena.try_alloc_layout(chunks, eight)?;
    Ok(blocks)
}

// Returns numbers below 65536 in an unpredictable order. A number means the block whose index is its remainder.
fn unpredictable(alloc: Global) -> Result<Vec<u16>, AllocError> {
    let mut order = Vec::with_capacity(alloc, ORDER as usize)?;
    let mut x: u64 = 1;
    for _ in 0..ORDER {
        x = x
            .wrapping_mul(6364136223846793005)
            .wrapping_add(1442695040888963407);
        order.push((x >> 48) as u16)?;
    }
    Ok(order)
}

// Whether all blocks are readable and have at least eight bytes.
fn all_held(arena: &Arena<1>, blocks: &[Block]) -> bool
    ensures { IsTrue result → All (λ b. IsTrue (is_readable arena.now.state b) × (8 ≤ b.size)) blocks.now }
{
    blocks
        .iter()
        .all(|block| arena.is_held_place(*block) && block.size >= 8)
}

// Places the blocks in an arena of `chunks` chunks: all in the newest if it is the only one, otherwise in the older
// ones.
fn scattered(
    rt: &HostRuntime,
    arena: &mut Arena<1>,
    chunks: u64,
) -> Result<[Block; BLOCKS as usize], Failed>
    ensures { IfOk result (λ blocks. All (λ b. IsTrue (is_readable arena.new.state b) × (8 ≤ b.size)) blocks) }
{
    let mut source = MemoryChunks::new(rt.alloc(), SMALLEST);
    let blocks = place_scattered(arena, &mut source, chunks.clamp(1, BLOCKS) - 1)?;
    if !all_held(arena, &blocks) {
        return Err(Failed::NoPlace);
    }
    Ok(blocks)
}

// Reads the blocks in this order, and adds up their first bytes.
fn read_round(arena: &Arena<1>, blocks: &[Block; BLOCKS as usize], order: &[u16]) -> u64
    requires { All (λ b. IsTrue (is_readable arena.now.state b) × (8 ≤ b.size)) blocks.now }
{
    let mut number: u64 = 0;
    for n in order {
        let block = blocks[*n as usize % BLOCKS as usize];
        if let Some(byte) = arena.read(block).first() {
            number = number.wrapping_add(*byte as u64);
        }
    }
    number
}

// Writes eight bytes to the blocks in this order.
fn write_round(arena: &mut Arena<1>, blocks: &[Block; BLOCKS as usize], order: &[u16])
    requires { All (λ b. IsTrue (is_readable arena.old.state b) × (8 ≤ b.size)) blocks.now }
    ensures { arena.new.state ≡ arena.old.state }
{
    for n in order {
        let block = blocks[*n as usize % BLOCKS as usize];
        arena.write(block, 0, &(*n as u64 + 1).to_le_bytes());
    }
}

fn timed_reads(
    rt: &HostRuntime,
    arena: &mut Arena<1>,
    order: &[u16],
    calls: u64,
    chunks: u64,
) -> Result<Timed, Failed> {
    let blocks = scattered(rt, arena, chunks)?;
    let left = &order[..order.len().min((calls % ORDER) as usize)];
    let clock = Clock::start(rt);
    let mut number: u64 = 0;
    for _ in 0..calls / ORDER {
        number = number.wrapping_add(read_round(arena, &blocks, order));
    }
    number = number.wrapping_add(read_round(arena, &blocks, left));
    clock.stop(rt, number)
}

fn timed_writes(
    rt: &HostRuntime,
    arena: &mut Arena<1>,
    order: &[u16],
    calls: u64,
    chunks: u64,
) -> Result<Timed, Failed> {
    let blocks = scattered(rt, arena, chunks)?;
    let left = &order[..order.len().min((calls % ORDER) as usize)];
    let clock = Clock::start(rt);
    for _ in 0..calls / ORDER {
        write_round(arena, &blocks, order);
    }
    write_round(arena, &blocks, left);
    let timed = clock.stop(rt, 0)?;
    Ok(Timed {
        number: read_round(arena, &blocks, order),
        ..timed
    })
}

// Blocks in the older of `chunks` chunks, which are read in an unpredictable order.
fn read_older(rt: &HostRuntime, calls: u64, chunks: u64) -> Result<Timed, Failed> {
    let order = unpredictable(rt.alloc())?;
    let mut arena = Arena::<1>::new(rt.alloc());
    timed_reads(rt, &mut arena, order.as_slice(), calls, chunks)
}

// Blocks in the older of `chunks` chunks, to which eight bytes are written in an unpredictable order.
fn write_older(rt: &HostRuntime, calls: u64, chunks: u64) -> Result<Timed, Failed> {
    let order = unpredictable(rt.alloc())?;
    let mut arena = Arena::<1>::new(rt.alloc());
    timed_writes(rt, &mut arena, order.as_slice(), calls, chunks)
}
