// Reads the lines of calls.
ghost use Rattle.std.specs.Prelude.{◌≡◌, IfOk, IfErr, Ok, Err};
ghost use Rattle.call_rules.specs.Grammar.{CallsOf, AreCalls, IsFirstRefused};
ghost use Rattle.line_parts.specs.Lines.{IsCause};

use super::call::read_call;
use arena_rules::OutOfMemory;
use call_rules::Call;
use line_parts::{LineReader, LinesErr, at_line_end, read_lines};
use std::alloc::Global;

struct CallLines;

impl LineReader<Call> for CallLines {
    ghost are = { AreCalls };

    ghost refused = { IsFirstRefused };

    fn take_line<'a>(
        &self,
        alloc: Global,
        bytes: &'a [u8],
        read: &mut Vec<Call>,
    ) -> Result<Option<&'a [u8]>, OutOfMemory> {
        if at_line_end(bytes) {
            return Ok(Some(bytes));
        }
        let Some((call, behind)) = read_call(alloc, bytes)? else {
            return Ok(None);
        };
        if !at_line_end(behind) {
            return Ok(None);
        }
        read.push(call)?;
        Ok(Some(behind))
    }
}

/// Reads the calls that the bytes are the lines of.
pub fn parse_calls(alloc: Global, bytes: &[u8]) -> Result<Vec<Call>, LinesErr>
    // Each line is empty or a call, and these are all of the calls.
    ensures calls { IfOk result (λ calls. CallsOf bytes.now (Ok calls.items)) }
    // The first line that is refused, or memory runs out.
    ensures refused { IfErr result (IsCause (λ n. CallsOf bytes.now (Err n))) }
{
    read_lines(&CallLines, alloc, bytes)
}
