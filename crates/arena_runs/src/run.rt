// A run of calls.
ghost use Rattle.std.specs.Prelude.{◌<◌, ◌≤◌, List, [], ◌∷◌, IfOk, IfErr, OnOk, OnErr};
ghost use Rattle.call_rules.specs.declared.calls.Reply.{Reply};
ghost use Rattle.arena_runs.specs.Replies.{StillTaken, TakesMore};
ghost use Rattle.arena_store.specs.Source.{Source, view};
ghost use Rattle.arena_runs.specs.Runs.{Runs, Stops, StopsWith};
ghost use Rattle.arena_runs.specs.Running.{IsRunning, IsOnTheWay, GoesOn, StaysAt, StaysBehind, EndsWith};

use crate::marks::Marks;
use crate::names::blocks;
use crate::replies::{Listed, Replies};
use crate::serve::serve_into;
use arena_core::Arena;
use arena_rules::{OutOfMemory, Place};
use arena_store::{Block, ChunkSource};
use call_rules::{Call, Reply};
use name_map::Names;
use std::alloc::Global;

/// The result of a run of calls: a reply for each call, and the blocks that names hold at the end, by ascending name.
#[derive(Drop, Debug)]
pub struct Ran {
    pub replies: Vec<Reply>,
    pub held: Vec<(u32, Block)>,
}

/// Why a run stopped early.
#[derive(Drop, Debug)]
pub enum Stopped {
    /// Out of memory. The first `done` calls were run, and the arena is in the state after them.
    OutOfMemory { done: u64 },
}

/// A run over an arena, call by call. It has what the arena doesn't: the blocks by name, and the marks.
#[derive(Drop)]
pub struct Run {
    pub(crate) alloc: Global,
    pub(crate) names: Names<Place>,
    pub(crate) marks: Marks,
}

impl Run {
    /// Begins a run over this arena, with no names and no marks.
    ///
    /// # Errors
    ///
    /// None at present: names and marks take memory as calls set them.
    pub fn new<const M: usize>(alloc: Global, arena: &Arena<M>) -> Result<Run, OutOfMemory>
        ensures { (source : Source) → IfOk result (λ run. IsRunning
            (view arena.now source) (view arena.now source) run.names run.marks [] []) }
    {
        // For the proof: the arena's state is valid.
        arena.known();
        Ok(Run {
            alloc,
            names: Names::new(alloc),
            marks: Marks::new(alloc),
        })
    }

    /// Runs one more call over the run's arena, and passes the reply to `replies`, which must have room for one reply
    /// without bytes and for `left` more after it.
    ///
    /// # Errors
    ///
    /// `OutOfMemory` if memory runs out, at a call that places a block by an allocation, returns bytes or sets a mark,
    /// or that resizes a block while there is a mark. The arena is in the state after the calls before, and no reply
    /// was passed on; the run is over.
    #[inline(always)]
    pub fn serve<const M: usize, C: ChunkSource, R: Replies>(
        &mut self,
        arena: &mut Arena<M>,
        chunks: &mut C,
        call: &Call,
        left: usize,
        replies: &mut R,
    ) -> Result<(), OutOfMemory>
        requires running { IsOnTheWay (view arena.old (C.source chunks.old)) self.old.names self.old.marks }
        requires room { left < R.room replies.old }
        ensures serves { OnOk result ((reply : Reply)
            × GoesOn call.now reply (view arena.old (C.source chunks.old)) (view arena.new (C.source chunks.new))
            self.old.names self.new.names self.old.marks self.new.marks
            × TakesMore R.has_taken replies.old replies.new (reply ∷ [])) }
        ensures room { OnOk result (left ≤ R.room replies.new) }
        ensures stays { OnErr result (StaysAt call.now
            (view arena.old (C.source chunks.old)) (view arena.new (C.source chunks.new)) self.old.names self.old.marks) }
        ensures same { OnErr result (StillTaken R.has_taken replies.old replies.new) }
    {
        serve_into(arena, chunks, self, call, left, replies)?;
        Ok(())
    }

    /// Returns the blocks that names hold, by ascending name.
    ///
    /// # Errors
    ///
    /// `OutOfMemory` if memory runs out.
    pub fn held<const M: usize>(&self, arena: &Arena<M>) -> Result<Vec<(u32, Block)>, OutOfMemory>
        ensures ok { (source : Source) → IfOk result (λ held.
            EndsWith (view arena.now source) self.now.names self.now.marks held.items) }
        ensures err { (source : Source) → OnErr result (StaysBehind (view arena.now source) self.now.names self.now.marks) }
    {
        let held = blocks(self.alloc, &self.names, arena.generation())?;
        Ok(held)
    }
}

/// Runs calls over an arena, one after another, beginning with no names and no marks, and passes each reply to
/// `replies`. Returns the blocks that names hold at the end, by ascending name.
///
/// # Errors
///
/// `OutOfMemory` if memory runs out: before the first call, after the last, or at a call that places a block by an
/// allocation, returns bytes or sets a mark, or that resizes a block while there is a mark. The arena is then in the
/// state after the first `done` calls, its blocks sound and with their bytes; the replies of these calls were passed
/// on.
pub fn run_calls_into<const M: usize, C: ChunkSource, R: Replies>(
    alloc: Global,
    arena: &mut Arena<M>,
    chunks: &mut C,
    calls: &[Call],
    replies: &mut R,
) -> Result<Vec<(u32, Block)>, Stopped>
    ensures ok { IfOk result (λ held. (list : List Reply)
        × Runs (view arena.old (C.source chunks.old)) (view arena.new (C.source chunks.new))
        calls.now list held.items
        × TakesMore R.has_taken replies.old replies.new list) }
    ensures err { IfErr result (StopsWith
        (view arena.old (C.source chunks.old)) (view arena.new (C.source chunks.new)) calls.now
        (TakesMore R.has_taken replies.old replies.new)) }
{
    // For the proof: the arena's state is valid.
    arena.known();
    let Ok(mut run) = Run::new(alloc, arena) else {
        return Err(Stopped::OutOfMemory { done: 0 });
    };
    // Room for all replies is made first, so that no call is run whose reply has no room.
    let Ok(()) = replies.reserve(calls.len()) else {
        return Err(Stopped::OutOfMemory { done: 0 });
    };
    for (done, call) in calls.iter().enumerate() {
        let left = calls.len() - done - 1;
        let Ok(()) = run.serve(arena, chunks, call, left, replies) else {
            return Err(Stopped::OutOfMemory { done: done as u64 });
        };
    }
    match run.held(arena) {
        Ok(held) => Ok(held),
        Err(_) => Err(Stopped::OutOfMemory {
            done: calls.len() as u64,
        }),
    }
}

/// Runs calls over an arena, one after another, beginning with no names and no marks.
///
/// # Errors
///
/// `OutOfMemory` if memory runs out: before the first call, after the last, or at a call that places a block by an
/// allocation, returns bytes or sets a mark, or that resizes a block while there is a mark. The arena is then in the
/// state after the first `done` calls, its blocks sound and with their bytes.
pub fn run_calls<const M: usize, C: ChunkSource>(
    alloc: Global,
    arena: &mut Arena<M>,
    chunks: &mut C,
    calls: &[Call],
) -> Result<Ran, Stopped>
    ensures ok { IfOk result (λ ran. Runs
        (view arena.old (C.source chunks.old)) (view arena.new (C.source chunks.new))
        calls.now ran.replies.items ran.held.items) }
    ensures err { IfErr result (Stops
        (view arena.old (C.source chunks.old)) (view arena.new (C.source chunks.new)) calls.now) }
{
    let mut listed = Listed {
        alloc,
        replies: Vec::new(alloc),
    };
    let held = run_calls_into(alloc, arena, chunks, calls, &mut listed)?;
    Ok(Ran {
        replies: listed.replies,
        held,
    })
}
