// Calls on an interner and a scoped table in one arena, one by one or as a list.
ghost use Rattle.std.specs.Prelude.{◌≡◌, ◌<◌, [], ◌∷◌, ◌++◌, OnOk, IfErr, vec_len, vec_capacity};
ghost use Rattle.arena_symbols.specs.Named.{AreNames};
ghost use Rattle.arena_symbols.specs.Serving.{Serves, Ran, Stops};

use crate::names::Names;
use arena_chunks::{Allocator, ChunkSource};
use arena_items::{AllocError, Grown};
use short_bytes::Bytes;
use std::alloc::Global;

/// A call on the names of a program.
#[derive(Clone, Copy, Debug)]
pub enum Call<'a> {
    /// Gives a text a number, if it has none, and asks for its number.
    Intern(&'a str),
    /// Asks for the number of a text.
    Find(&'a str),
    /// Asks for the text with a number.
    Text(u32),
    /// Asks how many texts there are.
    Len,
    /// Begins a map inside the others.
    Enter,
    /// Ends the innermost map, unless it is the only one, and asks whether it did.
    Leave,
    /// Puts a pair into the innermost map, unless that has the id, and asks whether it did.
    Define { id: u32, value: u32 },
    /// Asks for the value of an id in the innermost map that has it.
    Lookup(u32),
    /// Asks whether the innermost map has an id.
    InLast(u32),
    /// Asks how many maps there are.
    Depth,
}

/// The reply to a call.
#[derive(Drop, PartialEq, Eq, Debug)]
pub enum Reply {
    /// The number or the value, if there is one.
    Number(Option<u32>),
    /// The text, if there is one.
    Name(Option<Bytes>),
    /// A count.
    Count(u32),
    /// Whether something is so, or was done.
    Said(bool),
    /// The call was done.
    Done,
}

impl Names {
    // The text with a number, if there is one.
    fn name<C: ChunkSource>(&self, alloc: Global, a: &Allocator<C>, id: u32) -> Grown<Reply>
        requires { AreNames a.now.memory self.now }
        ensures { Serves a.now a.now self.now self.now (Call.Text id) result }
    {
        if id >= self.symbols.len() {
            return Ok(Reply::Name(None));
        }
        let text = self.symbols.text(a, id);
        match Bytes::of(alloc, a.read(text.block)) {
            Ok(bytes) => Ok(Reply::Name(Some(bytes))),
            Err(_) => Err(AllocError::OutOfMemory),
        }
    }

    /// Serves a call, and returns its reply.
    ///
    /// # Errors
    ///
    /// As for `intern`, `enter` and `define`; `CapacityOverflow` for a text of more than 4,294,967,295 bytes;
    /// `OutOfMemory` if there is no memory for a copy of the text that `Text` asks for. Texts and maps are unchanged.
    /// No other call is refused.
    pub fn serve<C: ChunkSource>(
        &mut self,
        alloc: Global,
        a: &mut Allocator<C>,
        call: &Call<'_>,
    ) -> Grown<Reply>
        requires { AreNames a.old.memory self.old }
        ensures { Serves a.old a.new self.old self.new call.now result }
    {
        match *call {
            Call::Intern(text) => {
                if text.len() >= 1 << 32 {
                    return Err(AllocError::CapacityOverflow);
                }
                let id = self.symbols.intern(a, text)?;
                Ok(Reply::Number(Some(id)))
            }
            Call::Find(text) => Ok(Reply::Number(self.symbols.find(a, text))),
            Call::Text(id) => self.name(alloc, a, id),
            Call::Len => Ok(Reply::Count(self.symbols.len())),
            Call::Enter => {
                self.scopes.enter(a)?;
                Ok(Reply::Done)
            }
            Call::Leave => Ok(Reply::Said(self.scopes.leave(a))),
            Call::Define { id, value } => {
                let is_new = self.scopes.define(a, id, value)?;
                Ok(Reply::Said(is_new))
            }
            Call::Lookup(id) => Ok(Reply::Number(self.scopes.lookup(a, id))),
            Call::InLast(id) => Ok(Reply::Said(self.scopes.in_last(a, id))),
            Call::Depth => Ok(Reply::Count(self.scopes.depth())),
        }
    }

    /// Serves calls one after another, and appends the reply of each to `replies`. It stops at the first call that is
    /// refused: one reply is appended for each call served.
    ///
    /// # Errors
    ///
    /// As for `serve`, for the first call that it refuses; `OutOfMemory` if there is no memory for a reply. The names
    /// are as the calls before left them.
    pub fn run<C: ChunkSource>(
        &mut self,
        alloc: Global,
        a: &mut Allocator<C>,
        calls: &[Call<'_>],
        replies: &mut Vec<Reply>,
    ) -> Grown<()>
        requires { AreNames a.old.memory self.old }
        ensures held { AreNames a.new.memory self.new }
        ensures ok { OnOk result (Ran a.old a.new self.old self.new calls.now replies.old.items replies.new.items) }
        ensures err { IfErr result (Stops a.old a.new self.old self.new calls.now replies.old.items replies.new.items) }
    {
        for call in calls {
            if replies.reserve(1).is_err() {
                return Err(AllocError::OutOfMemory);
            }
            let reply = self.serve(alloc, a, call)?;
            replies.push_reserved(reply);
        }
        Ok(())
    }
}
