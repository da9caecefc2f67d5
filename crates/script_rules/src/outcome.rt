// The outcome of a script.
ghost use Rattle.std.specs.Prelude.{◌≡◌, [], ◌∷◌, ◌++◌, length, OnOk, OnErr};

use crate::commands::{Ended, ScriptReply};
use arena_rules::OutOfMemory;
use std::alloc::Global;
use std::marker::Model;

/// Replies, which contracts see as their list.
#[derive(Drop, Debug)]
pub struct Replies {
    items: Vec<ScriptReply>,
}

impl Model for Replies {
    ghost use Rattle.std.specs.Prelude.{List};
    ghost use Rattle.script_rules.specs.declared.commands.ScriptReply.{ScriptReply};

    ghost Value = { List ScriptReply };

    ghost view = { λ r. r.items.items };
}

impl Replies {
    /// Returns an empty list of replies. Takes no memory.
    pub fn new(alloc: Global) -> Replies
        ensures { result ≡ [] }
    {
        Replies {
            items: Vec::new(alloc),
        }
    }

    /// Appends a reply.
    ///
    /// # Errors
    ///
    /// Out of memory. The replies are unchanged.
    pub fn push(&mut self, reply: ScriptReply) -> Result<(), OutOfMemory>
        ensures ok { OnOk result (self.new ≡ self.old ++ reply ∷ []) }
        ensures err { OnErr result (self.new ≡ self.old) }
    {
        Ok(self.items.push(reply)?)
    }

    /// Wraps a vector. Takes no memory.
    pub fn from_vec(items: Vec<ScriptReply>) -> Replies
        ensures { result ≡ items.items }
    {
        Replies { items }
    }

    /// Returns the replies as a vector. Takes no memory.
    pub fn into_vec(self) -> Vec<ScriptReply>
        ensures { result.items ≡ self }
    {
        self.items
    }

    /// Returns the replies as a slice.
    pub fn as_slice(&self) -> &[ScriptReply]
        ensures { result.now ≡ self.now }
    {
        self.items.as_slice()
    }

    /// Returns how many replies there are.
    pub fn len(&self) -> u64
        ensures { result ≡ length self.now }
    {
        self.items.len() as u64
    }
}

/// The replies of a script on an arena, how it ended, and how many bytes the arena then used.
#[derive(Drop, Debug)]
pub struct Outcome {
    /// One reply for each command that was served, in order.
    pub replies: Replies,
    /// How the script ended.
    pub ended: Ended,
    /// The bytes of the arena in use at the end.
    pub used: u64,
}
