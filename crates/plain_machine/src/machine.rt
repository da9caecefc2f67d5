// The machine: calls by name, one after another.
#![tactic(auto, unfolding(call_rules::specs::Machine::step))]

ghost use Rattle.std.specs.Prelude.{◌≡◌, ◌==◌, ◌+◌, ◌<◌, ◌≤◌, IfOk, OnOk, IfNone, IsTrue, if◌then◌else◌};
ghost use Rattle.arena_rules.specs.State.{is_min_align, top_of};
ghost use Rattle.call_rules.specs.Machine as machine;
ghost use Rattle.plain_machine.specs.Answers.{first_state, gives};

use crate::bytes::{filled, grown, is_past, shrunk, splice};
use crate::marks::PlainPoint;
use crate::names::Names;
use crate::state::PlainState;
use crate::unasked::unasked;
use arena_place::Layout;
use arena_rules::{OutOfMemory, Place};
use call_rules::{Call, Reply};
use short_bytes::Bytes;
use std::alloc::Global;
use std::marker::Model;

/// The machine of the definitions.
#[derive(Drop)]
pub struct PlainMachine {
    pub(crate) state: PlainState,
    pub(crate) held: Names<Place>,
    pub(crate) bytes: Names<Bytes>,
    // newest first
    pub(crate) marks: Vec<(u32, PlainPoint)>,
}

impl Model for PlainMachine {
    ghost use Rattle.arena_rules.specs.State.{top_of};
    ghost use Rattle.call_rules.specs.Machine.{Machine};
    ghost use Rattle.plain_machine.specs.Holding.{EndBelow, AreMarks, held_code, contents_code};
    ghost use Rattle.std.specs.Coded.{codes};
    ghost use Rattle.std.specs.Prelude.{length};

    ghost Value = { Machine };

    ghost coded = { Prim.hlevel (codes, held_code, contents_code) };

    ghost view = { λ m. record { state = m.state; held = m.held; bytes = m.bytes; marks = m.marks.items } };

    ghost invariant = { λ m. EndBelow (top_of m.state.chunks) m.held
        × AreMarks m.state (length m.state.chunks) m.marks.items };
}

impl PlainMachine {
    /// Returns a machine with no chunk, no names and no marks.
    pub fn new(alloc: Global, min_align: u64) -> PlainMachine
        requires { IsTrue (is_min_align min_align) }
        ensures { result ≡ machine.fresh (first_state min_align) }
    {
        PlainMachine {
            state: PlainState::new(alloc, min_align),
            held: Names::new(alloc),
            bytes: Names::new(alloc),
            marks: Vec::new(alloc),
        }
    }

    /// Returns the reply to the call where this many of its requests are refused, or `None` where there is no such
    /// step.
    ///
    /// # Errors
    ///
    /// Out of memory. What the machine then holds is unspecified.
    pub fn step(
        &mut self,
        alloc: Global,
        call: &Call,
        refused: u32,
    ) -> Result<Option<Reply>, OutOfMemory>
        ensures step { IfOk result (λ reply. gives self.new reply ≡ machine.step call.now refused self.old) }
        ensures none { IfOk result (λ reply. IfNone reply (self.new ≡ self.old)) }
    {
        match call {
            Call::Alloc {
                name,
                size,
                align,
                fill,
            } => self.alloc(alloc, *name, *size, *align, *fill, refused),
            Call::Grow {
                name,
                size,
                align,
                fill,
            } => self.grow(alloc, *name, *size, *align, *fill, refused),
            Call::Shrink { name, size, align } => {
                self.shrink(alloc, *name, *size, *align, refused)
            }
            Call::Dealloc { name } => Ok(self.dealloc(*name, refused)),
            Call::Write { name, at, bytes } => self.write(alloc, *name, *at, bytes, refused),
            Call::Read { name } => self.read(alloc, *name, refused),
            Call::Mark { name } => self.mark(*name, refused),
            Call::Back { name } => Ok(self.back(*name, refused)),
            Call::Reset => Ok(self.reset(refused)),
            Call::Used => Ok(self.used(refused)),
            Call::Allocated => Ok(self.allocated(refused)),
        }
    }

    fn alloc(
        &mut self,
        alloc: Global,
        name: u32,
        size: u64,
        align: u64,
        fill: u8,
        refused: u32,
    ) -> Result<Option<Reply>, OutOfMemory>
        ensures step { IfOk result (λ reply. gives self.new reply
            ≡ machine.step (Call.Alloc name size align fill) refused self.old) }
        ensures none { IfOk result (λ reply. IfNone reply (self.new ≡ self.old)) }
    {
        if self.held.contains(name) {
            return Ok(unasked(refused, Reply::NameTaken));
        }
        let Some(layout) = Layout::new(size, align) else {
            return Ok(unasked(refused, Reply::BadLayout));
        };
        let Some(answer) = self.state.alloc(alloc, layout, refused)? else {
            return Ok(None);
        };
        let Some(addr) = answer else {
            return Ok(Some(Reply::AllocErr { refused }));
        };
        let bytes = filled(alloc, size, fill)?;
        let place = Place { addr, size, align };
        Ok(Some(self.holds(name, place, bytes, refused)?))
    }

    fn grow(
        &mut self,
        alloc: Global,
        name: u32,
        size: u64,
        align: u64,
        fill: u8,
        refused: u32,
    ) -> Result<Option<Reply>, OutOfMemory>
        ensures step { IfOk result (λ reply. gives self.new reply
            ≡ machine.step (Call.Grow name size align fill) refused self.old) }
        ensures none { IfOk result (λ reply. IfNone reply (self.new ≡ self.old)) }
    {
        let Some(block) = self.held.get(name).copied() else {
            return Ok(unasked(refused, Reply::NoSuchName));
        };
        let Some(old) = self.bytes.get(name) else {
            return Ok(None);
        };
        let Some(layout) = Layout::new(size, align) else {
            return Ok(unasked(refused, Reply::BadLayout));
        };
        if size < block.size {
            return Ok(unasked(refused, Reply::OutOfRange));
        }
        let Some(answer) = self.state.grow(alloc, block, layout, refused)? else {
            return Ok(None);
        };
        let Some(addr) = answer else {
            return Ok(Some(Reply::AllocErr { refused }));
        };
        let bytes = grown(alloc, old.as_slice(), size - block.size, fill)?;
        let place = Place { addr, size, align };
        Ok(Some(self.holds(name, place, bytes, refused)?))
    }

    fn shrink(
        &mut self,
        alloc: Global,
        name: u32,
        size: u64,
        align: u64,
        refused: u32,
    ) -> Result<Option<Reply>, OutOfMemory>
        ensures step { IfOk result (λ reply. gives self.new reply
            ≡ machine.step (Call.Shrink name size align) refused self.old) }
        ensures none { IfOk result (λ reply. IfNone reply (self.new ≡ self.old)) }
    {
        let Some(block) = self.held.get(name).copied() else {
            return Ok(unasked(refused, Reply::NoSuchName));
        };
        let Some(old) = self.bytes.get(name) else {
            return Ok(None);
        };
        let Some(layout) = Layout::new(size, align) else {
            return Ok(unasked(refused, Reply::BadLayout));
        };
        if size > block.size {
            return Ok(unasked(refused, Reply::OutOfRange));
        }
        let Some(answer) = self.state.shrink(alloc, block, layout, refused)? else {
            return Ok(None);
        };
        let Some(addr) = answer else {
            return Ok(Some(Reply::AllocErr { refused }));
        };
        let bytes = shrunk(alloc, old.as_slice(), size)?;
        let place = Place { addr, size, align };
        Ok(Some(self.holds(name, place, bytes, refused)?))
    }

    fn dealloc(&mut self, name: u32, refused: u32) -> Option<Reply>
        ensures step { gives self.new result ≡ machine.step (Call.Dealloc name) refused self.old }
        ensures none { IfNone result (self.new ≡ self.old) }
    {
        let Some(place) = self.held.get(name).copied() else {
            return unasked(refused, Reply::NoSuchName);
        };
        if refused > 0 || !self.bytes.contains(name) {
            return None;
        }
        self.state.dealloc(place.addr, place.size);
        self.held.remove(name);
        self.bytes.remove(name);
        Some(Reply::Done)
    }

    fn write(
        &mut self,
        alloc: Global,
        name: u32,
        at: u64,
        new: &Bytes,
        refused: u32,
    ) -> Result<Option<Reply>, OutOfMemory>
        ensures step { IfOk result (λ reply. gives self.new reply
            ≡ machine.step (Call.Write name at new.now) refused self.old) }
        ensures none { IfOk result (λ reply. IfNone reply (self.new ≡ self.old)) }
    {
        let Some(place) = self.held.get(name).copied() else {
            return Ok(unasked(refused, Reply::NoSuchName));
        };
        let Some(old) = self.bytes.get(name) else {
            return Ok(None);
        };
        if is_past(place.size, at, new.len()) {
            return Ok(unasked(refused, Reply::OutOfRange));
        }
        if refused > 0 {
            return Ok(None);
        }
        let bytes = splice(alloc, old.as_slice(), at, new.as_slice())?;
        self.bytes.insert(name, bytes)?;
        Ok(Some(Reply::Done))
    }

    fn read(&self, alloc: Global, name: u32, refused: u32) -> Result<Option<Reply>, OutOfMemory>
        ensures { IfOk result (λ reply. gives self.now reply
            ≡ machine.step (Call.Read name) refused self.now) }
    {
        if !self.held.contains(name) {
            return Ok(unasked(refused, Reply::NoSuchName));
        }
        let Some(bytes) = self.bytes.get(name) else {
            return Ok(None);
        };
        let bytes = Bytes::of(alloc, bytes.as_slice())?;
        Ok(unasked(refused, Reply::Bytes(bytes)))
    }

    fn reset(&mut self, refused: u32) -> Option<Reply>
        ensures step { gives self.new result ≡ machine.step Call.Reset refused self.old }
        ensures none { IfNone result (self.new ≡ self.old) }
    {
        if refused > 0 {
            return None;
        }
        self.state.reset();
        self.held.clear();
        self.bytes.clear();
        self.marks.clear();
        Some(Reply::Done)
    }

    fn used(&self, refused: u32) -> Option<Reply>
        ensures { gives self.now result ≡ machine.step Call.Used refused self.now }
    {
        unasked(refused, Reply::Number(self.state.used_bytes()))
    }

    fn allocated(&self, refused: u32) -> Option<Reply>
        ensures { gives self.now result ≡ machine.step Call.Allocated refused self.now }
    {
        unasked(refused, Reply::Number(self.state.allocated_bytes()))
    }

    // Gives the name this block. The reply has its address.
    fn holds(
        &mut self,
        name: u32,
        place: Place,
        bytes: Bytes,
        refused: u32,
    ) -> Result<Reply, OutOfMemory>
        requires { 0 < place.size → place.addr + place.size ≤ top_of self.old.state.chunks }
        ensures reply { IfOk result (λ reply. reply ≡ Reply.Placed place.addr refused) }
        ensures machine { OnOk result (self.new ≡ machine.holds self.old self.old.state name place bytes) }
    {
        let addr = place.addr;
        self.bytes.insert(name, bytes)?;
        self.held.insert(name, place)?;
        Ok(Reply::Placed { addr, refused })
    }
}
