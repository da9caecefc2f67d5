// How a run serves a call.
ghost use Rattle.std.specs.Prelude.{◌≡◌, ℕ, ◌<◌, ◌≤◌, [], ◌∷◌, false, IfOk, OnOk, OnErr, IsSome, IsTrue};
ghost use Rattle.std.specs.FinMap as map;
ghost use Rattle.call_rules.specs.declared.calls.Call.{Call};
ghost use Rattle.call_rules.specs.declared.calls.Reply.{Reply};
ghost use Rattle.arena_runs.specs.Replies.{has_bytes, StillTaken, TakesMore};
ghost use Rattle.arena_store.specs.Source.{Source, view};
ghost use Rattle.arena_runs.specs.Marks.{Noted, named, Tracks};
ghost use Rattle.arena_store.specs.Memory.{is_readable, block_at};
ghost use Rattle.arena_core.specs.Answers.{OnCounted};
ghost use Rattle.arena_runs.specs.Serving.{Serves, ServesNoting, ServesRun, Wants, Holds, resizing, is_wrong, ResizesFilling};

use crate::names::replace;
use crate::replies::Replies;
use crate::run::Run;
use arena_core::Arena;
use arena_place::Layout;
use arena_rules::{OutOfMemory, Place};
use arena_store::{ArenaErr, Block, ChunkSource};
use call_rules::{Call, Reply};
use name_map::Names;

// The requested size and alignment for the block of a name.
#[derive(Clone, Copy)]
struct Wanted {
    name: u32,
    size: u64,
    align: u64,
}

impl Wanted {
    // Returns the place of the block at this address.
    fn at(self, addr: u64) -> Place
        ensures { result ≡ record { addr = addr; size = self.size; align = self.align } }
    {
        Place {
            addr,
            size: self.size,
            align: self.align,
        }
    }

    // Returns whether the size is smaller than the block's for a grow (with a fill byte), or larger for a shrink.
    fn is_wrong(self, had: u64, fill: Option<u8>) -> bool
        ensures { result ≡ is_wrong fill had self.size }
    {
        match fill {
            Some(_) => self.size < had,
            None => self.size > had,
        }
    }
}

#[inline(always)]
fn serve_alloc<const M: usize, C: ChunkSource>(
    arena: &mut Arena<M>,
    chunks: &mut C,
    run: &mut Run,
    wanted: Wanted,
    fill: u8,
) -> Result<Reply, OutOfMemory>
    requires { Holds arena.old.state run.old.names }
    ensures serves { IfOk result (λ reply. ServesNoting (Call.Alloc wanted.name wanted.size wanted.align fill) reply
        (view arena.old (C.source chunks.old)) (view arena.new (C.source chunks.new))
        run.old.names run.new.names run.old.marks run.new.marks) }
    ensures fixed { IfOk result (λ reply. has_bytes reply ≡ false) }
    ensures wants { OnErr result (Wants (Call.Alloc wanted.name wanted.size wanted.align fill)
        (view arena.old (C.source chunks.old)) (view arena.new (C.source chunks.new)) run.old.names (named run.old.marks.marks)) }
{
    let name = wanted.name;
    if run.names.get(name).is_some() {
        return Ok(Reply::NameTaken);
    }
    let Some(layout) = Layout::new(wanted.size, wanted.align) else {
        return Ok(Reply::BadLayout);
    };
    // The name's entry is made first, since memory may run out for it.
    run.names.insert(name, wanted.at(0))?;
    run.marks.note(name)?;
    match arena.alloc_counted(chunks, layout) {
        Ok((block, refused)) => {
            let addr = block.addr;
            replace(&mut run.names, name, wanted.at(addr));
            arena.fill(block, 0, fill);
            Ok(Reply::Placed { addr, refused })
        }
        Err(ArenaErr::AllocErr { refused }) => {
            run.names.remove(name);
            run.marks.settle(true);
            Ok(Reply::AllocErr { refused })
        }
        Err(ArenaErr::OutOfMemory) => Err(OutOfMemory),
    }
}

// Resizes the block at a place: with a fill byte it grows, and the byte fills its new bytes; without one it shrinks.
#[inline(always)]
fn resize<const M: usize, C: ChunkSource>(
    arena: &mut Arena<M>,
    chunks: &mut C,
    place: Place,
    layout: Layout,
    fill: Option<u8>,
) -> Result<(Block, u32), ArenaErr>
    requires readable { IsTrue (is_readable arena.old.state (block_at arena.old.state.generation place)) }
    requires side { is_wrong fill place.size layout.size ≡ false }
    ensures { OnCounted result (ResizesFilling fill (view arena.old (C.source chunks.old)) (view arena.new (C.source chunks.new))
        place layout.size layout.align) }
{
    let block = arena.block_at(place);
    let Some(fill) = fill else {
        return arena.shrink_counted(chunks, block, layout);
    };
    let (grown, refused) = arena.grow_counted(chunks, block, layout)?;
    arena.fill(grown, place.size, fill);
    Ok((grown, refused))
}

#[inline(always)]
fn serve_resize<const M: usize, C: ChunkSource>(
    arena: &mut Arena<M>,
    chunks: &mut C,
    run: &mut Run,
    wanted: Wanted,
    fill: Option<u8>,
) -> Result<Reply, OutOfMemory>
    requires { Holds arena.old.state run.old.names }
    ensures serves { IfOk result (λ reply. ServesNoting (resizing fill wanted.name wanted.size wanted.align) reply
        (view arena.old (C.source chunks.old)) (view arena.new (C.source chunks.new))
        run.old.names run.new.names run.old.marks run.new.marks) }
    ensures fixed { IfOk result (λ reply. has_bytes reply ≡ false) }
    ensures wants { OnErr result (Wants (resizing fill wanted.name wanted.size wanted.align)
        (view arena.old (C.source chunks.old)) (view arena.new (C.source chunks.new)) run.old.names (named run.old.marks.marks)) }
{
    let Some(place) = run.names.get(wanted.name) else {
        return Ok(Reply::NoSuchName);
    };
    let Some(layout) = Layout::new(wanted.size, wanted.align) else {
        return Ok(Reply::BadLayout);
    };
    if wanted.is_wrong(place.size, fill) {
        return Ok(Reply::OutOfRange);
    }
    run.marks.note(wanted.name)?;
    match resize(arena, chunks, place, layout, fill) {
        Ok((block, refused)) => {
            let addr = block.addr;
            replace(&mut run.names, wanted.name, wanted.at(addr));
            run.marks.settle(fill.is_none() && addr == place.addr);
            Ok(Reply::Placed { addr, refused })
        }
        Err(ArenaErr::AllocErr { refused }) => {
            run.marks.settle(true);
            Ok(Reply::AllocErr { refused })
        }
        Err(ArenaErr::OutOfMemory) => Err(OutOfMemory),
    }
}

#[inline(always)]
fn serve_dealloc<const M: usize>(arena: &mut Arena<M>, names: &mut Names<Place>, name: u32) -> Reply
    requires { Holds arena.old.state names.old }
    ensures serves { (source : Source) → Serves (Call.Dealloc name) result (view arena.old source)
        (view arena.new source) names.old names.new }
    ensures names { names.new ≡ map.remove names.old name }
    ensures fixed { has_bytes result ≡ false }
{
    let Some(place) = names.remove(name) else {
        return Reply::NoSuchName;
    };
    arena.dealloc(arena.block_at(place));
    Reply::Done
}

#[inline(always)]
fn serve_write<const M: usize>(
    arena: &mut Arena<M>,
    names: &Names<Place>,
    name: u32,
    at: u64,
    bytes: &[u8],
) -> Reply
    requires { Holds arena.old.state names.now }
    ensures serves { (source : Source) → Serves (Call.Write name at bytes.now) result
        (view arena.old source) (view arena.new source) names.now names.now }
    ensures fixed { has_bytes result ≡ false }
{
    let Some(place) = names.get(name) else {
        return Reply::NoSuchName;
    };
    let len = bytes.len() as u64;
    if len > place.size || at > place.size - len {
        return Reply::OutOfRange;
    }
    arena.write(arena.block_at(place), at, bytes);
    Reply::Done
}

// Passes the bytes of a name's block to the receiver of replies.
#[inline(always)]
fn serve_read<const M: usize, R: Replies>(
    arena: &Arena<M>,
    names: &Names<Place>,
    name: u32,
    left: usize,
    replies: &mut R,
) -> Result<(), OutOfMemory>
    requires holds { Holds arena.now.state names.now }
    requires room { left < R.room replies.old }
    ensures serves { (source : Source) → OnOk result ((reply : Reply)
        × Serves (Call.Read name) reply (view arena.now source) (view arena.now source) names.now names.now
        × TakesMore R.has_taken replies.old replies.new (reply ∷ [])) }
    ensures room { OnOk result (left ≤ R.room replies.new) }
    ensures wants { OnErr result (IsSome (map.get names.now name)) }
    ensures same { OnErr result (StillTaken R.has_taken replies.old replies.new) }
{
    let Some(place) = names.get(name) else {
        replies.take(Reply::NoSuchName);
        return Ok(());
    };
    replies.take_bytes(arena.read(arena.block_at(place)), left)
}

// Sets a mark of the present state.
fn serve_mark<const M: usize>(
    arena: &Arena<M>,
    run: &mut Run,
    name: u32,
) -> Result<Reply, OutOfMemory>
    requires holds { Holds arena.now.state run.old.names }
    requires tracks { Tracks arena.now.state run.old.names run.old.marks }
    ensures serves { (source : Source) → IfOk result (λ reply. ServesRun (Call.Mark name) reply
        (view arena.now source) (view arena.now source) run.old.names run.new.names run.old.marks run.new.marks) }
    ensures fixed { IfOk result (λ reply. has_bytes reply ≡ false) }
    ensures wants { (source : Source) → OnErr result (Wants (Call.Mark name)
        (view arena.now source) (view arena.now source) run.old.names (named run.old.marks.marks)) }
{
    if run.marks.has(name) {
        return Ok(Reply::NameTaken);
    }
    run.marks.set(name, arena.checkpoint())?;
    Ok(Reply::Done)
}

// Goes back to a mark, and removes the names whose blocks this frees.
fn serve_back<const M: usize>(arena: &mut Arena<M>, run: &mut Run, name: u32) -> Reply
    requires holds { Holds arena.old.state run.old.names }
    requires tracks { Tracks arena.old.state run.old.names run.old.marks }
    ensures serves { (source : Source) → ServesRun (Call.Back name) result
        (view arena.old source) (view arena.new source) run.old.names run.new.names run.old.marks run.new.marks }
    ensures fixed { has_bytes result ≡ false }
{
    if !run.marks.has(name) {
        return Reply::NoSuchName;
    }
    let mark = run.marks.back_to(name);
    arena.rewind(mark.checkpoint);
    run.marks.forget(arena, &mut run.names);
    Reply::Done
}

fn serve_reset<const M: usize>(arena: &mut Arena<M>, run: &mut Run) -> Reply
    ensures serves { (source : Source) → ServesRun Call.Reset result (view arena.old source)
        (view arena.new source) run.old.names run.new.names run.old.marks run.new.marks }
    ensures fixed { has_bytes result ≡ false }
{
    arena.reset();
    run.names.clear(run.alloc);
    run.marks.clear(run.alloc);
    Reply::Done
}

// Serves a call, and passes its reply to the receiver.
#[inline(always)]
pub(crate) fn serve_into<const M: usize, C: ChunkSource, R: Replies>(
    arena: &mut Arena<M>,
    chunks: &mut C,
    run: &mut Run,
    call: &Call,
    left: usize,
    replies: &mut R,
) -> Result<(), OutOfMemory>
    requires holds { Holds arena.old.state run.old.names }
    requires tracks { Tracks arena.old.state run.old.names run.old.marks }
    requires room { left < R.room replies.old }
    ensures serves { OnOk result ((reply : Reply)
        × ServesRun call.now reply
        (view arena.old (C.source chunks.old)) (view arena.new (C.source chunks.new)) run.old.names run.new.names
        run.old.marks run.new.marks
        × TakesMore R.has_taken replies.old replies.new (reply ∷ [])) }
    ensures room { OnOk result (left ≤ R.room replies.new) }
    ensures wants { OnErr result (Wants call.now
        (view arena.old (C.source chunks.old)) (view arena.new (C.source chunks.new)) run.old.names (named run.old.marks.marks)) }
    ensures same { OnErr result (StillTaken R.has_taken replies.old replies.new) }
{
    let reply = match call {
        &Call::Alloc {
            name,
            size,
            align,
            fill,
        } => serve_alloc(arena, chunks, run, Wanted { name, size, align }, fill)?,
        &Call::Grow {
            name,
            size,
            align,
            fill,
        } => serve_resize(arena, chunks, run, Wanted { name, size, align }, Some(fill))?,
        &Call::Shrink { name, size, align } => {
            serve_resize(arena, chunks, run, Wanted { name, size, align }, None)?
        }
        &Call::Dealloc { name } => serve_dealloc(arena, &mut run.names, name),
        Call::Write { name, at, bytes } => {
            serve_write(arena, &run.names, *name, *at, bytes.as_slice())
        }
        &Call::Read { name } => return serve_read(arena, &run.names, name, left, replies),
        &Call::Mark { name } => serve_mark(arena, run, name)?,
        &Call::Back { name } => serve_back(arena, run, name),
        Call::Reset => serve_reset(arena, run),
        Call::Used => Reply::Number(arena.used_bytes()),
        Call::Allocated => Reply::Number(arena.allocated_bytes()),
    };
    replies.take(reply);
    Ok(())
}
