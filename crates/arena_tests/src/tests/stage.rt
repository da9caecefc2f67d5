// An arena on which the steps of a table are taken.
ghost use Rattle.std.specs.Prelude.{IsTrue};
ghost use Rattle.arena_chunks.specs.Memory.{is_readable};

use super::steps::{Answer, Step};
use super::{layout, must, refusing, same_at};
use arena_chunks::{Arena, ArenaErr, Block, Checkpoint, RefusingChunks};
use std::alloc::Global;
use std::process::Abort;

// An arena, its source, and the blocks that it returned.
#[derive(Drop)]
pub(super) struct Stage<const M: usize> {
    // The name of the case and the number of the step, for messages.
    at: (&'static str, u64),
    arena: Arena<M>,
    chunks: RefusingChunks,
    blocks: Vec<Block>,
}

impl<const M: usize> Stage<M> {
    // A source that refuses the requests with these numbers.
    pub(super) fn of(
        rt: &impl Abort,
        alloc: Global,
        name: &'static str,
        arena: Arena<M>,
        refuse: &[u64],
    ) -> Stage<M> {
        Stage {
            at: (name, 0),
            arena,
            chunks: refusing(alloc, refuse).expect(rt, "memory"),
            blocks: Vec::new(alloc),
        }
    }

    pub(super) fn take(&mut self, rt: &impl Abort, step: &Step) {
        self.at.1 = self.at.1.wrapping_add(1);
        match *step {
            Step::Write(n, bytes) => {
                let block = self.held(rt, n);
                must(rt, self.at, bytes.len() as u64 <= block.size);
                self.arena.write(block, 0, bytes);
            }
            Step::Dealloc(n) => {
                let block = self.held(rt, n);
                self.arena.dealloc(block);
            }
            Step::Reset => self.arena.reset(),
            Step::Walk(chunks) => self.walks(rt, chunks),
            Step::Alloc(size, align, wanted) => {
                let layout = layout(rt, size, align);
                let result = self.arena.try_alloc_layout(&mut self.chunks, layout);
                self.has_answered(rt, result, (size, align), wanted);
            }
            Step::Grow(n, size, align, wanted) => {
                let (block, layout) = (self.held(rt, n), layout(rt, size, align));
                must(rt, self.at, block.size <= size);
                let result = self.arena.grow(&mut self.chunks, block, layout);
                self.has_answered(rt, result, (size, align), wanted);
            }
            Step::GrowZeroed(n, size, align, wanted) => {
                let (block, layout) = (self.held(rt, n), layout(rt, size, align));
                must(rt, self.at, block.size <= size);
                let result = self.arena.grow_zeroed(&mut self.chunks, block, layout);
                self.has_answered(rt, result, (size, align), wanted);
            }
            Step::Shrink(n, size, align, wanted) => {
                let (block, layout) = (self.held(rt, n), layout(rt, size, align));
                must(rt, self.at, size <= block.size);
                let result = self.arena.shrink(&mut self.chunks, block, layout);
                self.has_answered(rt, result, (size, align), wanted);
            }
            Step::Realloc(n, size, wanted) => {
                let block = self.held(rt, n);
                let result = self.arena.realloc(&mut self.chunks, block, size);
                self.has_answered(rt, result, (size, block.align), wanted);
            }
            _ => self.shows(rt, step),
        }
    }

    // The steps that change nothing.
    fn shows(&self, rt: &impl Abort, step: &Step) {
        let (at, arena) = (self.at, &self.arena);
        match *step {
            Step::Read(n, wanted) => {
                let block = self.held(rt, n);
                same_at(rt, at, arena.read(block), wanted);
            }
            Step::Requests(wanted) => same_at(rt, at, self.chunks.requests(), Some(wanted)),
            Step::HeldAt(generation, addr, size, wanted) => {
                let block = Block {
                    generation,
                    addr,
                    size,
                    align: 1,
                };
                same_at(rt, at, arena.is_held_place(block), wanted);
            }
            Step::AcceptsAt(generation, chunks, addr, wanted) => {
                let mark = Checkpoint {
                    generation,
                    chunks,
                    addr,
                };
                same_at(rt, at, arena.accepts(mark), wanted);
            }
            Step::Used(wanted) => same_at(rt, at, arena.used_bytes(), wanted),
            Step::Allocated(wanted) => same_at(rt, at, arena.allocated_bytes(), wanted),
            Step::Capacity(wanted) => same_at(rt, at, arena.chunk_capacity(), wanted),
            Step::Cursor(wanted) => same_at(rt, at, arena.cursor(), wanted),
            Step::Statistics(placed, resized) => {
                same_at(rt, at, arena.get_allocation_stats(), (placed, resized))
            }
            _ => must(rt, at, false),
        }
    }

    // Returns the block with this number. The test fails if it isn't held.
    fn held(&self, rt: &impl Abort, n: usize) -> Block
        ensures { IsTrue (is_readable self.now.arena.state result) }
    {
        must(rt, self.at, n < self.blocks.len());
        let block = self.blocks[n];
        must(rt, self.at, self.arena.is_held_place(block));
        block
    }

    // Checks the size and the alignment of a returned block, and stores it under the next number.
    fn has_answered(
        &mut self,
        rt: &impl Abort,
        answered: Result<Block, ArenaErr>,
        layout: (u64, u64),
        wanted: Answer,
    ) {
        match answered {
            Ok(block) => {
                same_at(rt, self.at, Ok(block.addr), wanted);
                same_at(rt, self.at, (block.size, block.align), layout);
                self.blocks.push(block).expect(rt, "memory");
            }
            Err(ArenaErr::AllocErr { refused }) => same_at(rt, self.at, Err(refused), wanted),
            Err(ArenaErr::OutOfMemory) => must(rt, self.at, false),
        }
    }

    // Both walks yield these used parts, and then `None` each time.
    fn walks(&mut self, rt: &impl Abort, chunks: &[(u64, usize, Option<u8>)]) {
        let at = self.at;
        let mut ranges = self.arena.iter_allocated_chunks_raw();
        for &(addr, size, _) in chunks {
            same_at(rt, at, ranges.next(), Some((addr, size as u64)));
        }
        same_at(rt, at, (ranges.next(), ranges.next()), (None, None));
        let mut parts = self.arena.iter_allocated_chunks();
        for &(_, size, first) in chunks {
            let part = parts.next().expect(rt, "a chunk");
            same_at(rt, at, (part.len(), part.first().copied()), (size, first));
        }
        same_at(rt, at, (parts.next(), parts.next()), (None, None));
    }
}
