// Returns a text to the caller, in a buffer.
ghost use Rattle.std.specs.Prelude.{◌≡◌, ◌++◌, ◌≤◌, length, drop};
ghost use Rattle.arena_oracle.specs.Answers.{IsReturned, line_of};

use crate::report::Report;
use arena_calls::Status;

// The text has no room.
const NO_ROOM: u32 = 7;

// Returns the line that a status names, or 0.
fn line_of(status: &Status) -> u64
    ensures { result ≡ line_of status.now }
{
    match status {
        Status::BadLine(n) => *n,
        _ => 0,
    }
}

// Copies into the front of the buffer.
fn put_front(buffer: &mut [u8], piece: &[u8])
    requires { length piece.now ≤ length buffer.old }
    ensures { buffer.new ≡ piece.now ++ drop (length piece.now) buffer.old }
{
    let count = piece.len();
    let (front, _) = buffer.split_at_mut(count);
    front.copy_from_slice(piece);
}

/// Returns how a run ended: the status's code, with the text at the front of the buffer, or 7 if that has no room.
/// Reports the text and how many requests were refused.
pub fn return_text(
    status: &Status,
    text: &[u8],
    refused: u64,
    out: &mut [u8],
    report: &mut Report,
) -> u32
    ensures { IsReturned status.now text.now refused out.old out.new report.new result }
{
    *report = Report {
        length: text.len() as u64,
        line: line_of(status),
        refused,
    };
    if text.len() > out.len() {
        return NO_ROOM;
    }
    put_front(out, text);
    u32::from(status.code())
}
