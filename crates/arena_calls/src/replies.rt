// Replies as the text of their lines.
ghost use Rattle.std.specs.Prelude.{◌≡◌, ℕ, ◌+◌, ◌*◌, ◌-◌, ◌/◌, ◌++◌, ◌∷◌, [], ◌≤◌, false, IsOk, OnOk, length, codes, vec_len, vec_capacity};
ghost use Rattle.line_parts.specs.Numbers.{fields};
ghost use Rattle.call_rules.specs.Replies.{reply_line, text_of};
ghost use Rattle.arena_runs.specs.Replies.{has_bytes};

use arena_rules::OutOfMemory;
use arena_runs::Replies;
use call_rules::Reply;
use itoa::Buffer;
pub use line_parts::put;
use line_parts::{make_room, put_field, put_hex};
use std::alloc::Global;

// The most bytes of a line with its line feed, where the reply holds no bytes: `placed`, a number of 64 bits, `refused`
// and a number of 32 bits.
const LONGEST: usize = 47;

// Appends how many requests were refused.
fn put_refused(out: &mut Vec<u8>, refused: u32)
    requires { vec_len out.old + 19 ≤ vec_capacity out.old }
    ensures items { out.new.items ≡ out.old.items ++ codes " refused" ++ fields (refused ∷ []) }
    ensures len { vec_len out.new ≤ vec_len out.old + 19 }
    ensures capacity { vec_capacity out.old ≤ vec_capacity out.new }
{
    put(out, b" refused ");
    let mut buffer = Buffer::new();
    put(out, buffer.format(refused).as_bytes());
}

// Appends the line of a reply that holds no bytes, without its line feed.
fn put_reply(out: &mut Vec<u8>, reply: &Reply)
    requires fixed { has_bytes reply.now ≡ false }
    requires room { vec_len out.old + 46 ≤ vec_capacity out.old }
    ensures items { out.new.items ≡ out.old.items ++ reply_line reply.now }
    ensures len { vec_len out.new ≤ vec_len out.old + 46 }
    ensures capacity { vec_capacity out.old ≤ vec_capacity out.new }
{
    match reply {
        Reply::Placed { addr, refused } => {
            put(out, b"placed");
            put_field(out, *addr);
            put_refused(out, *refused);
        }
        Reply::Done => put(out, b"done"),
        Reply::Bytes(_) => unreachable!(),
        Reply::Number(n) => {
            put(out, b"number");
            put_field(out, *n);
        }
        Reply::AllocErr { refused } => {
            put(out, b"allocerr");
            put_refused(out, *refused);
        }
        Reply::NoSuchName => put(out, b"no such name"),
        Reply::NameTaken => put(out, b"name taken"),
        Reply::BadLayout => put(out, b"bad layout"),
        Reply::OutOfRange => put(out, b"out of range"),
    }
}

/// The text of the replies so far, a line for each.
#[derive(Drop)]
pub struct Text {
    pub bytes: Vec<u8>,
}

impl Text {
    /// Returns an empty text.
    pub fn new(alloc: Global) -> Text
        ensures { result.bytes.items ≡ [] }
    {
        Text {
            bytes: Vec::new(alloc),
        }
    }

    // Reserves room for `lines` lines of replies that hold no bytes, and for `more` bytes.
    fn make_room(&mut self, lines: usize, more: usize) -> Result<(), OutOfMemory>
        ensures same { self.new.bytes.items ≡ self.old.bytes.items }
        ensures room { OnOk result
            (vec_len self.new.bytes + more + 47 * lines ≤ vec_capacity self.new.bytes) }
        ensures succeeds { vec_len self.old.bytes + more + 47 * lines ≤ vec_capacity self.old.bytes
            → IsOk result }
    {
        let fixed = LONGEST.checked_mul(lines).ok_or(OutOfMemory)?;
        make_room(&mut self.bytes, fixed.checked_add(more).ok_or(OutOfMemory)?)
    }
}

impl Replies for Text {
    ghost has_taken = { λ a list. a.bytes.items ≡ text_of list };

    ghost room = { λ a. (vec_capacity a.bytes - vec_len a.bytes) / 47 };

    fn reserve(&mut self, count: usize) -> Result<(), OutOfMemory> {
        self.make_room(count, 0)
    }

    fn take(&mut self, reply: Reply) {
        put_reply(&mut self.bytes, &reply);
        put(&mut self.bytes, b"\n");
    }

    fn take_bytes(&mut self, bytes: &[u8], left: usize) -> Result<(), OutOfMemory> {
        // The room of one more line is for what the line has besides the digits.
        self.make_room(left + 1, 2 * bytes.len())?;
        put(&mut self.bytes, b"bytes ");
        put_hex(&mut self.bytes, bytes);
        put(&mut self.bytes, b"\n");
        Ok(())
    }
}
