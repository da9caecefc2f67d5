//! A first program over the arena: places, grows and shrinks blocks within a memory budget, and prints what each call
//! returns.
#![tactic(auto)]

ghost use Rattle.std.specs.Prelude.{◌≡◌, ◌≤◌, IfOk, IsTrue};
ghost use Rattle.arena.specs.Memory.{is_readable};

use arena::{Alloc, Allocator, ArenaErr, Block, Layout, MemoryChunks, Str};
use std::io;
use std::process::ExitCode;

// The most bytes that the arena's chunks may have in all.
const BUDGET: u64 = 40_000;

// Why the example ended early: an invalid layout, an error of the arena, or a failed write.
#[derive(Drop)]
enum Failed {
    NoLayout,
    NoPlace(ArenaErr),
    Output,
}

impl From<ArenaErr> for Failed {
    fn from(e: ArenaErr) -> Failed {
        Failed::NoPlace(e)
    }
}

impl From<io::Error> for Failed {
    fn from(_: io::Error) -> Failed {
        Failed::Output
    }
}

// Returns a layout. An invalid size or alignment becomes an error, so that callers can use `?`.
fn layout(size: u64, align: u64) -> Result<Layout, Failed>
    ensures { IfOk result (λ l. l.size ≡ size) }
{
    Layout::new(size, align).ok_or(Failed::NoLayout)
}

// Places a text, and prints it with its address. The contract says that the text is readable after that.
fn place_text(rt: &HostRuntime, a: &mut Allocator<MemoryChunks>) -> Result<Str, Failed>
    ensures { IfOk result (λ s. IsTrue (is_readable a.new.memory.state s.block)) }
{
    let text = a.alloc_str("hello")?;
    let at = text.block.addr;
    println!(rt; "{:?} at {at}", text.get(a).unwrap_or("no text"))?;
    Ok(text)
}

// Places four numbers of four bytes each, grows the block by two numbers, and shrinks it to half.
fn resize_numbers(rt: &HostRuntime, a: &mut Allocator<MemoryChunks>) -> Result<(), Failed> {
    let numbers = a.alloc(layout(16, 4)?)?;
    a.write(
        numbers,
        0,
        &[1, 0, 0, 0, 2, 0, 0, 0, 3, 0, 0, 0, 4, 0, 0, 0],
    );
    let at = numbers.addr;
    println!(rt; "16 bytes at {at}")?;
    let more = a.grow(numbers, layout(24, 4)?)?;
    let at = more.addr;
    println!(rt; "grown to 24 bytes at {at}")?;
    let fewer = a.shrink(more, layout(12, 4)?)?;
    let at = fewer.addr;
    println!(rt; "shrunk to 12 bytes at {at}: {:?}", a.read(fewer))?;
    Ok(())
}

// Asks for more bytes than the budget has left. The arena reports how many requests for chunks were refused.
fn ask_for_too_much(rt: &HostRuntime, a: &mut Allocator<MemoryChunks>) -> Result<(), Failed> {
    match a.alloc_layout(layout(30_000, 1)?) {
        Ok(block) => {
            let at = block.addr;
            println!(rt; "30000 bytes at {at}")?;
        }
        Err(ArenaErr::AllocErr { refused }) => {
            println!(rt; "no place for 30000 bytes, requests refused: {refused}")?;
        }
        Err(e) => return Err(Failed::NoPlace(e)),
    }
    Ok(())
}

// Prints the bytes in use, the capacity, and the counts of blocks that were placed and of those that were resized.
fn report(rt: &HostRuntime, a: &Allocator<MemoryChunks>) -> io::Result<()> {
    let used = a.used_bytes();
    let capacity = a.capacity();
    let (placed, resized) = a.get_allocation_stats();
    println!(rt; "used {used} of {capacity} bytes; placed {placed}, grown or shrunk {resized}")
}

// Runs all steps, and then resets the arena, after which no block is held any more.
fn run(rt: &HostRuntime) -> Result<(), Failed> {
    let chunks = MemoryChunks::new(rt.alloc(), BUDGET);
    let mut a = Allocator::new(rt.alloc(), chunks);
    let text = place_text(rt, &mut a)?;
    resize_numbers(rt, &mut a)?;
    ask_for_too_much(rt, &mut a)?;
    report(rt, &a)?;
    a.reset();
    report(rt, &a)?;
    let is_held = a.is_held_place(text.block);
    println!(rt; "the text is still held: {is_held}")?;
    Ok(())
}

fn main(rt: HostRuntime) -> ExitCode {
    let said = match run(&rt) {
        Ok(()) => return ExitCode::SUCCESS,
        Err(Failed::NoLayout) => eprintln!(&rt; "no layout"),
        Err(Failed::NoPlace(ArenaErr::AllocErr { refused })) => {
            eprintln!(&rt; "no place, requests refused: {refused}")
        }
        Err(Failed::NoPlace(ArenaErr::OutOfMemory)) => eprintln!(&rt; "out of memory"),
        Err(Failed::Output) => eprintln!(&rt; "write fault"),
    };
    // If standard error can't be written, the exit status still reports the failure.
    let _ = said;
    ExitCode::FAILURE
}
