// Tests of the whole program through its words.
use super::{Rt, holds};
use arena_calls::{MemoryInput, MemoryOutput, program_chunks};
use arena_chunks::Arena;
use arena_program::{program_maker, run_program};
use arena_script::Engine;
use std::alloc::Global;
use std::env::Args;
use std::io;
use std::process::ExitCode;
use std::test::Fail;

// The exit status, the output, and the messages.
#[derive(Drop)]
struct Ended {
    status: ExitCode,
    text: Vec<u8>,
    messages: Vec<u8>,
}

impl Ended {
    fn is(&self, (status, text, messages): (u8, &str, &str)) -> bool {
        self.status == ExitCode::from(status)
            && self.text.as_slice() == text.as_bytes()
            && self.messages.as_slice() == messages.as_bytes()
    }
}

// Runs the words over a new arena with the program's budget.
fn run_words(
    rt: &impl Rt,
    args: io::Result<Args>,
    text: &str,
    fail: &[u64],
) -> Result<Ended, Fail> {
    let alloc = rt.alloc();
    let text = text.as_bytes().to_vec(alloc)?;
    let mut output = MemoryOutput::new(alloc, 4096, fail.to_vec(alloc)?);
    let mut messages = MemoryOutput::new(alloc, 7, fail.to_vec(alloc)?);
    let status = run_program(
        rt,
        alloc,
        args,
        &mut Arena::<1>::new(alloc),
        &mut program_chunks(alloc),
        &mut MemoryInput::new(alloc, text, 4096, Vec::new(alloc)),
        &mut output,
        &mut messages,
        program_maker(alloc),
        &Engine,
        &mut Vec::new(alloc),
    );
    Ok(Ended {
        status,
        text: output.bytes().to_vec(alloc)?,
        messages: messages.bytes().to_vec(alloc)?,
    })
}

fn args(alloc: Global, words: &[&str]) -> Result<Args, Fail> {
    let mut args = Vec::new(alloc);
    for word in words {
        args.push(word.to_string(alloc)?)?;
    }
    Ok(args.into_iter())
}

const USAGE: &str =
    "usage: arena_run calls | gen START COUNT | scripts WORKERS [fixed BYTES ARENAS | keep BYTES] | lint WORKERS\n";

// The words, the input, the write that fails, of the output and of the messages, where each write takes 7 bytes, the
// exit status, the output, and the messages.
type Row = (
    &'static [&'static str],
    &'static str,
    &'static [u64],
    u8,
    &'static str,
    &'static str,
);

const ROWS: &[Row] = &[
    (&["arena_run", "calls"], "used\n", &[], 0, "number 0\n", ""),
    (&["", "--version"], "", &[], 0, "arena_run 0.1.0\n", ""),
    (&[], "used\n", &[], 1, "", USAGE),
    (&["calls"], "used\n", &[], 1, "", USAGE),
    (&["", "calls", "--help"], "used\n", &[], 1, "", USAGE),
    (
        &["arena_run", "calls"],
        "used\n\nread\nread\n",
        &[],
        2,
        "",
        "line 3 is not understood\n",
    ),
    (&["arena_run", "calls"], "used\n", &[1], 5, "", ""),
    // The chunk has 2,000,003,008 bytes, which exceed the budget.
    (
        &["arena_run", "calls"],
        "alloc 0 2000000000 1 0\n",
        &[],
        0,
        "allocerr refused 1\n",
        "",
    ),
    (&["arena_run", "call"], "used\n", &[2], 1, "", "usage: "),
    (&["arena_run", "scripts", "1"], "script\n", &[1], 5, "", ""),
];

// Words that are no valid request.
const NOTHING: &[&[&str]] = &[
    &["", "scripts"],
    &["", "scripts", "0"],
    &["", "scripts", "01"],
    &["", "scripts", "65"],
    &["", "scripts", "1", "1"],
    &["", "scripts", "1", "fixed", "32", "1"],
    &["", "scripts", "1", "fixed", "56", "1"],
    &["", "scripts", "1", "fixed", "16777232", "1"],
    &["", "scripts", "1", "fixed", "48", "0"],
    &["", "scripts", "1", "fixed", "48", "65"],
    &["", "scripts", "1", "keep"],
    &["", "scripts", "1", "keep", "18446744073709551616"],
];

fn ends_so(
    rt: &impl Rt,
    args: io::Result<Args>,
    input: &str,
    fail: &[u64],
    wanted: (u8, &str, &str),
) -> Result<(), Fail> {
    holds(rt, run_words(rt, args, input, fail)?.is(wanted), input);
    Ok(())
}

#[test]
fn programs_by_their_words(rt: HostRuntime) -> Result<(), Fail> {
    for (words, input, fail, status, text, messages) in ROWS {
        let args = args(rt.alloc(), words)?;
        ends_so(&rt, Ok(args), input, fail, (*status, *text, *messages))?;
    }
    Ok(())
}

#[test]
fn words_that_ask_for_nothing(rt: HostRuntime) -> Result<(), Fail> {
    for words in NOTHING {
        let args = args(rt.alloc(), words)?;
        ends_so(&rt, Ok(args), "script\n", &[], (1, "", USAGE))?;
    }
    Ok(())
}

#[test]
fn words_that_are_not_told(rt: HostRuntime) -> Result<(), Fail> {
    let error = io::Error::from(io::ErrorKind::OutOfMemory);
    ends_so(&rt, Err(error), "used\n", &[], (3, "", "out of memory\n"))?;
    let error = io::Error::from(io::ErrorKind::InvalidData);
    ends_so(&rt, Err(error), "used\n", &[], (1, "", USAGE))
}
