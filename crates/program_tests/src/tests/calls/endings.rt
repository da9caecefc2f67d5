// Tests of how runs end if reads or writes fail, and of the streams in memory.
ghost use Rattle.std.specs.Prelude.{◌<◌, length};

use crate::tests::{Asked, CALLS, ends_so, holds, serve};
use arena_calls::{MemoryOutput, Output, StdInput, StdOutput};
use arena_chunks::MemoryChunks;
use arena_pool::MemoryMaker;
use arena_script::Engine;
use std::process::Abort;
use std::test::Fail;

// The reads and the writes that fail, the status, and the output. Reads give 2 bytes of 4, so the third one reaches
// the end. Writes take 4 bytes of 9.
const FAULTS: &[(&[u64], &[u64], u8, &str)] = &[(&[3], &[], 4, ""), (&[], &[2], 5, "numb")];

#[test]
fn a_read_and_a_write_fail(rt: HostRuntime) -> Result<(), Fail> {
    for (reads, writes, code, written) in FAULTS {
        let asked = Asked {
            text: b"used",
            given: 2,
            reads,
            taken: 4,
            writes,
            ..CALLS
        };
        ends_so(&rt, &asked, (*code, 0, written.as_bytes()), written)?;
    }
    Ok(())
}

// Calls, and the replies that follow from the rules.
pub(super) const LINES: &str = "alloc 7 5 1 46\nwrite 7 0 68656c6c6f\nread 7\nused\nallocated\n";

pub(super) const REPLIES: &str =
    "placed 20411 refused 0\ndone\nbytes 68656c6c6f\nnumber 5\nnumber 16320\n";

// Reads and writes transfer one byte, and those with these numbers fail.
fn by_bytes<'a>(reads: &'a [u64], writes: &'a [u64]) -> Asked<'a> {
    Asked {
        text: LINES.as_bytes(),
        given: 1,
        reads,
        taken: 1,
        writes,
        ..CALLS
    }
}

// There is one read for each byte and one at the end, and one write for each byte.
#[test]
fn each_byte_fails_in_turn(rt: HostRuntime) -> Result<(), Fail> {
    let (reads, replies) = (LINES.len() as u64 + 1, REPLIES.as_bytes());
    for n in 1..=reads {
        ends_so(&rt, &by_bytes(&[n], &[]), (4, 0, b""), "")?;
    }
    for n in 0..replies.len() {
        let fail = [n as u64 + 1];
        ends_so(&rt, &by_bytes(&[], &fail), (5, 0, &replies[..n]), "")?;
    }
    let behind = ([reads + 1], [replies.len() as u64 + 1]);
    let asked = by_bytes(&behind.0, &behind.1);
    ends_so(&rt, &asked, (0, 0, replies), REPLIES)
}

#[test]
fn the_longest_input_and_one_byte_more(rt: HostRuntime) -> Result<(), Fail> {
    for (size, code) in [(16_777_216, 0), (16_777_217, 6)] {
        let feeds = vec![in rt.alloc(); b'\n'; size]?;
        let asked = Asked {
            text: feeds.as_slice(),
            given: 1 << 20,
            ..CALLS
        };
        ends_so(&rt, &asked, (code, 0, b""), "")?;
    }
    Ok(())
}

// Checks the number of bytes that a write takes, or that it fails.
fn takes(rt: &impl Abort, output: &mut MemoryOutput, piece: &[u8], wanted: Option<usize>)
    requires { 0 < length piece.now }
{
    holds(rt, output.write(piece).ok() == wanted, "write");
}

// With ample memory only the listed write fails, which no contract can state.
#[test]
fn only_the_listed_write_fails(rt: HostRuntime) -> Result<(), Fail> {
    let alloc = rt.alloc();
    let mut output = MemoryOutput::new(alloc, 2, vec![in alloc; 2]?);
    takes(&rt, &mut output, b"abc", Some(2));
    takes(&rt, &mut output, b"abc", None);
    takes(&rt, &mut output, b"c", Some(1));
    holds(&rt, output.bytes() == b"abc".as_slice(), "written");
    Ok(())
}

#[test]
fn over_a_reader_and_a_writer_of_std(rt: HostRuntime) -> Result<(), Fail> {
    let alloc = rt.alloc();
    let mut written = Vec::new(alloc);
    let mut input = StdInput::new(b"used\nallocated\n".as_slice());
    let mut output = StdOutput::new(&mut written);
    let mut chunks = MemoryChunks::new(alloc, 1 << 30);
    let maker = MemoryMaker::new(alloc, 1 << 26);
    let words = &["calls"];
    let status = serve(
        &rt,
        words,
        &mut chunks,
        &mut input,
        &mut output,
        maker,
        &Engine,
    )?;
    let is_so = status.code() == 0 && written.as_slice() == b"number 0\nnumber 0\n".as_slice();
    holds(&rt, is_so, "status, written");
    Ok(())
}
