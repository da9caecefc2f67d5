// Public items of runs of calls, and of the program's calls.
use arena_calls::{
    Failed, Input, MemoryInput, MemoryOutput, Output, Status, StdInput, StdOutput, arena_calls,
};
use arena_chunks::{Arena, Block, ChunkSource};
use arena_runs::{Call, Ran, Reply, Stopped, run_calls};
use short_bytes::Bytes;
use std::alloc::Global;

fn all_calls(name: u32, size: u64, align: u64, fill: u8, at: u64, bytes: Bytes) -> [Call; 11] {
    [
        Call::Alloc {
            name,
            size,
            align,
            fill,
        },
        Call::Grow {
            name,
            size,
            align,
            fill,
        },
        Call::Shrink { name, size, align },
        Call::Dealloc { name },
        Call::Write { name, at, bytes },
        Call::Read { name },
        Call::Mark { name },
        Call::Back { name },
        Call::Reset,
        Call::Used,
        Call::Allocated,
    ]
}

fn all_replies(addr: u64, refused: u32, bytes: Bytes) -> [Reply; 9] {
    [
        Reply::Placed { addr, refused },
        Reply::Done,
        Reply::Bytes(bytes),
        Reply::Number(1u64),
        Reply::AllocErr { refused },
        Reply::NoSuchName,
        Reply::NameTaken,
        Reply::BadLayout,
        Reply::OutOfRange,
    ]
}

fn run<const M: usize, C: ChunkSource>(
    alloc: Global,
    arena: &mut Arena<M>,
    chunks: &mut C,
    calls: &[Call],
) -> Result<Ran, Stopped> {
    run_calls(alloc, arena, chunks, calls)
}

fn ran(replies: Vec<Reply>, held: Vec<(u32, Block)>) -> Ran {
    Ran { replies, held }
}

fn stopped(e: Stopped) -> u64 {
    match e {
        Stopped::OutOfMemory { done } => done,
    }
}

fn streams() {
    let _: fn(Global, Vec<u8>, u32, Vec<u64>) -> MemoryInput = MemoryInput::new;
    let _: fn(Global, u32, Vec<u64>) -> MemoryOutput = MemoryOutput::new;
    let _: fn(&mut MemoryInput, &mut [u8]) -> Result<usize, Failed> = <MemoryInput as Input>::read;
    let _: fn(&mut MemoryOutput, &[u8]) -> Result<usize, Failed> = <MemoryOutput as Output>::write;
    let _: Failed = Failed;
}

fn moves<I: Input, O: Output>(input: &mut I, output: &mut O, buf: &mut [u8], piece: &[u8]) {
    return;
    let _: Result<usize, Failed> = input.read(buf);
    let _: Result<usize, Failed> = output.write(piece);
}

fn standard<R: std::io::Read + Drop, W: std::io::Write + Drop>(
    input: &mut StdInput<R>,
    output: &mut StdOutput<W>,
    buf: &mut [u8],
    piece: &[u8],
) {
    moves(input, output, buf, piece);
}

fn statuses() -> [Status; 7] {
    [
        Status::Done,
        Status::Usage,
        Status::BadLine(1u64),
        Status::OutOfMemory,
        Status::ReadFault,
        Status::WriteFault,
        Status::InputTooLong,
    ]
}

fn coded(status: &Status) -> u8 {
    status.code()
}

fn whole<C: ChunkSource, I: Input, O: Output>(
    alloc: Global,
    words: &[Bytes],
    arena: &mut Arena<1>,
    chunks: &mut C,
    input: &mut I,
    output: &mut O,
) -> Status {
    arena_calls(alloc, words, arena, chunks, input, output)
}
