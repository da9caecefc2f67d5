// The text of a summary.
ghost use Rattle.std.specs.Prelude.{◌≡◌, ◌+◌, ◌*◌, ◌++◌, ◌≤◌, List, [], IfOk, length, vec_len, vec_capacity};
ghost use Rattle.call_rules.specs.Summary.{number_line, summary_text};
ghost use Rattle.call_rules.specs.declared.calls.Reply.{Reply};
ghost use Rattle.arena_calls.specs.Ends.{summary_lines};
ghost use Rattle.arena_calls.specs.Tallies.{IsTally};

use super::tally::Tally;
use crate::replies::put;
use arena_chunks::Arena;
use itoa::Buffer;
use std::alloc::{AllocError, Global};

// The most bytes that a line has: a word, a space, a number of 128 bits and a line feed.
const LONGEST: usize = 50;

// The eight numbers of a summary.
#[derive(Clone, Copy)]
pub(crate) struct Summary {
    pub calls: u32,
    pub placed: u32,
    pub failed: u32,
    pub other: u32,
    pub bytes: u128,
    pub byte_sum: u128,
    pub used: u64,
    pub allocated: u64,
}

// Appends a line, for which there is room.
fn put_line(out: &mut Vec<u8>, word: &[u8], n: u128)
    requires word { length word.now ≤ 9 }
    requires room { vec_len out.old + 50 ≤ vec_capacity out.old }
    ensures items { out.new.items ≡ out.old.items ++ number_line (word.now, n) }
    ensures len { vec_len out.new ≤ vec_len out.old + 50 }
    ensures capacity { vec_capacity out.old ≤ vec_capacity out.new }
{
    put(out, word);
    put(out, b" ");
    let mut buffer = Buffer::new();
    put(out, buffer.format(n).as_bytes());
    put(out, b"\n");
}

/// Returns an empty text with room for that of a summary.
///
/// # Errors
///
/// Out of memory.
pub fn room_for_text(alloc: Global) -> Result<Vec<u8>, AllocError>
    ensures items { IfOk result (λ out. out.items ≡ []) }
    ensures room { IfOk result (λ out. vec_len out + 400 ≤ vec_capacity out) }
{
    Vec::with_capacity(alloc, 8 * LONGEST)
}

impl Summary {
    ghost use Rattle.arena_calls.specs.Tallies.{numbers};

    // Appends the eight lines, for which there must be room.
    fn put_text(&self, out: &mut Vec<u8>)
        requires { vec_len out.old + 400 ≤ vec_capacity out.old }
        ensures { out.new.items ≡ out.old.items ++ summary_text (numbers self.now) }
    {
        put_line(out, b"calls", u128::from(self.calls));
        put_line(out, b"placed", u128::from(self.placed));
        put_line(out, b"failed", u128::from(self.failed));
        put_line(out, b"other", u128::from(self.other));
        put_line(out, b"bytes", self.bytes);
        put_line(out, b"sum", self.byte_sum);
        put_line(out, b"used", u128::from(self.used));
        put_line(out, b"allocated", u128::from(self.allocated));
    }
}

/// Appends the summary of the replies in the tally and of the arena after them. There must be room for its text.
pub fn put_summary(tally: &Tally, arena: &Arena<1>, out: &mut Vec<u8>)
    requires { vec_len out.old + 400 ≤ vec_capacity out.old }
    ensures { (replies : List Reply) → IsTally tally.now replies
        → out.new.items ≡ out.old.items ++ summary_lines replies arena.now.state }
{
    let summary = Summary {
        calls: tally.calls,
        placed: tally.placed,
        failed: tally.failed,
        other: tally.other,
        bytes: tally.bytes,
        byte_sum: tally.byte_sum,
        used: arena.used_bytes(),
        allocated: arena.allocated_bytes(),
    };
    summary.put_text(out);
}
