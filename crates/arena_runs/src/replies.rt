// The receiver of a run's replies.
ghost use Rattle.std.specs.Prelude.{◌≡◌, ℕ, ◌+◌, ◌-◌, ◌<◌, ◌≤◌, List, [], ◌∷◌, ◌++◌, false, IsOk, OnOk, OnErr, vec_len, vec_capacity};
ghost use Rattle.call_rules.specs.declared.calls.Reply.{Reply};
ghost use Rattle.arena_runs.specs.Replies.{has_bytes, StillTaken, TakesMore};

use arena_rules::OutOfMemory;
use call_rules::Reply;
use short_bytes::Bytes;
use std::alloc::Global;

/// A receiver of replies, one after another.
pub trait Replies {
    // Whether it has taken exactly these replies, in this order.
    ghost has_taken: { Self → List Reply → Type 0 };

    // How many replies without bytes there is room for.
    ghost room: { Self → ℕ };

    /// Makes room for `count` replies without bytes. Succeeds if there is room already.
    fn reserve(&mut self, count: usize) -> Result<(), OutOfMemory>
        ensures room { OnOk result (count ≤ room self.new) }
        ensures succeeds { count ≤ room self.old → IsOk result }
        ensures same { StillTaken has_taken self.old self.new };

    /// Takes a reply without bytes. There must be room for it.
    fn take(&mut self, reply: Reply)
        requires fixed { has_bytes reply ≡ false }
        requires room { 0 < room self.old }
        ensures taken { TakesMore has_taken self.old self.new (reply ∷ []) }
        ensures room { room self.old ≤ room self.new + 1 };

    /// Takes the reply that has these bytes, and keeps room for `left` more without bytes.
    fn take_bytes(&mut self, bytes: &[u8], left: usize) -> Result<(), OutOfMemory>
        requires { left < room self.old }
        ensures taken { OnOk result (TakesMore has_taken self.old self.new (Reply.Bytes bytes.now ∷ [])) }
        ensures room { OnOk result (left ≤ room self.new) }
        ensures same { OnErr result (StillTaken has_taken self.old self.new) };
}

// A list of replies.
#[derive(Drop)]
pub(crate) struct Listed {
    pub(crate) alloc: Global,
    pub(crate) replies: Vec<Reply>,
}

impl Replies for Listed {
    ghost has_taken = { λ a list. a.replies.items ≡ list };

    ghost room = { λ a. vec_capacity a.replies - vec_len a.replies };

    fn reserve(&mut self, count: usize) -> Result<(), OutOfMemory> {
        Ok(self.replies.reserve(count)?)
    }

    fn take(&mut self, reply: Reply) {
        self.replies.push_reserved(reply);
    }

    fn take_bytes(&mut self, bytes: &[u8], _left: usize) -> Result<(), OutOfMemory> {
        let bytes = Bytes::of(self.alloc, bytes)?;
        self.replies.push_reserved(Reply::Bytes(bytes));
        Ok(())
    }
}
