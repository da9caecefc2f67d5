// Writes the text of a run.
ghost use Rattle.arena_calls.specs.Ends.{Prints};

use crate::status::Status;
use crate::streams::{Output, write_all};

/// Writes a text. Returns `Done`, or `WriteFault` where only a first part of it was written.
pub fn print<O: Output>(output: &mut O, text: &[u8]) -> Status
    ensures { Prints text.now result (O.written output.old) (O.faults output.old) (O.written output.new) (O.faults output.new) }
{
    match write_all(output, text) {
        Ok(()) => Status::Done,
        Err(_) => Status::WriteFault,
    }
}
