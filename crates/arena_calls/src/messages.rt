// What a program over calls writes to standard error.
ghost use Rattle.std.specs.Prelude.{◌≡◌, OnOk, OnErr};
ghost use Rattle.std.specs.Process.{exit_status};
ghost use Rattle.arena_rules.specs.Causes.{counted};
ghost use Rattle.arena_calls.specs.Streams.{Writes, WritesPart};
ghost use Rattle.arena_calls.specs.Ends.{code_of};
ghost use Rattle.arena_calls.specs.Messages.{line_message, message_of, Explains};

use crate::status::Status;
use crate::streams::{Failed, Output, write_all};
use itoa::Buffer;
use std::process::ExitCode;

/// Writes a line to `messages` that says why a program with this status ends, and returns the exit status, which is the
/// same if `messages` can't be written. `Done` has no line, and the line of `Usage` is a parameter.
pub fn exit_with<E: Output>(messages: &mut E, status: &Status, usage: &[u8]) -> ExitCode
    ensures code { exit_status result ≡ code_of status.now }
    ensures said { Explains usage.now status.now
        (E.written messages.old) (E.faults messages.old) (E.written messages.new) (E.faults messages.new) }
{
    let _ = explain(messages, status, usage);
    ExitCode::from(status.code())
}

// Writes the line that explains the status, or a first part of it before a fault.
fn explain<E: Output>(messages: &mut E, status: &Status, usage: &[u8]) -> Result<(), Failed>
    ensures ok { OnOk result (Writes (E.written messages.old) (E.written messages.new) (message_of usage.now status.now)) }
    ensures part { OnErr result (WritesPart (E.written messages.old) (E.written messages.new) (message_of usage.now status.now)) }
    ensures no_fault { OnOk result (E.faults messages.new ≡ E.faults messages.old) }
    ensures one_fault { OnErr result (E.faults messages.new ≡ counted (E.faults messages.old) 1) }
{
    match status {
        Status::Done => Ok(()),
        Status::Usage => write_all(messages, usage),
        Status::BadLine(n) => explain_line(messages, *n),
        Status::OutOfMemory => write_all(messages, b"out of memory\n"),
        Status::ReadFault => write_all(messages, b"read fault\n"),
        Status::WriteFault => write_all(messages, b"write fault\n"),
        Status::InputTooLong => write_all(messages, b"input too long\n"),
    }
}

fn explain_line<E: Output>(messages: &mut E, n: u64) -> Result<(), Failed>
    ensures ok { OnOk result (Writes (E.written messages.old) (E.written messages.new) (line_message n)) }
    ensures part { OnErr result (WritesPart (E.written messages.old) (E.written messages.new) (line_message n)) }
    ensures no_fault { OnOk result (E.faults messages.new ≡ E.faults messages.old) }
    ensures one_fault { OnErr result (E.faults messages.new ≡ counted (E.faults messages.old) 1) }
{
    let mut digits = Buffer::new();
    write_all(messages, b"line ")?;
    write_all(messages, digits.format(n).as_bytes())?;
    write_all(messages, b" is not understood\n")
}
