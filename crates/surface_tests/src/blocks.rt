// Public items of sources of chunks, of blocks and of bytes.
use crate::kinds::{is_copy, is_error, is_plain, is_shown};
use arena_chunks::bumpalo_alloc::{CannotReallocInPlace, Excess};
use arena_chunks::{
    ArenaErr, Block, ChunkSource, MemoryChunks, OutOfMemory, RawErr, RefusingChunks, Str,
};
use short_bytes::Bytes;
use std::alloc::Global;

// A source that implements only the required method.
struct Refusing {
    refused: u64,
}

impl ChunkSource for Refusing {
    ghost use Rattle.std.specs.Prelude.{None};

    ghost source = { λ c. record { refusals = c.refused; asked = None } };

    fn request(&mut self, size: u64, align: u64) -> Option<Vec<u8>> {
        let _ = (size, align);
        self.refused = self.refused.saturating_add(1);
        None
    }
}

fn made(bytes: &Bytes) {
    return;
    let _: fn(Global, u64) -> MemoryChunks = MemoryChunks::new;
    let _: fn(Global, Vec<u64>) -> RefusingChunks = RefusingChunks::new;
    let _: fn(&mut MemoryChunks, u64, u64) -> Option<Vec<u8>> =
        <MemoryChunks as ChunkSource>::request;
    let _: fn(&mut RefusingChunks, u64, u64) -> Option<Vec<u8>> =
        <RefusingChunks as ChunkSource>::request;
    let _: fn(Global) -> Bytes = Bytes::new;
    let _: fn(Global, &[u8]) -> Result<Bytes, OutOfMemory> = Bytes::of;
    let _: fn(&mut Bytes, u8) -> Result<(), OutOfMemory> = Bytes::push;
    let _: fn(&Bytes) -> u64 = Bytes::len;
    let _: &[u8] = bytes.as_slice();
    let _: OutOfMemory = OutOfMemory;
    let _: fn(u64) -> Block = Block::empty;
    is_copy::<Block>();
    is_copy::<Str>();
    is_plain::<ArenaErr>();
    is_error::<ArenaErr>();
    is_plain::<CannotReallocInPlace>();
    is_error::<CannotReallocInPlace>();
    is_shown::<Excess>();
}

fn parts(generation: u64, addr: u64, size: u64, align: u64) -> Str {
    let block = Block {
        generation,
        addr,
        size,
        align,
    };
    Str { block }
}

fn refused(e: ArenaErr) -> Option<u32> {
    match e {
        ArenaErr::AllocErr { refused } => Some(refused),
        ArenaErr::OutOfMemory => None,
    }
}

fn given_back(e: RawErr) -> Vec<u8> {
    match e {
        RawErr::OutOfMemory { region } => region,
    }
}
