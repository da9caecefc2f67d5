//! Reads calls on a bump arena from standard input, and prints a picture of the arena after them, as SVG.
#![tactic(auto)]

use arena_calls::{StdInput, StdOutput, program_chunks};
use arena_chunks::Arena;
use arena_drawing::run_picture;
use std::io::{self, Lock};
use std::process::ExitCode;

fn main(rt: HostRuntime) -> ExitCode {
    let mut arena = Arena::<1>::new(rt.alloc());
    let mut chunks = program_chunks(rt.alloc());
    let mut input = StdInput::new(rt.reader());
    let mut output = StdOutput::new(io::writer(&rt));
    let mut messages = StdOutput::new(rt.stderr().lock());
    run_picture(
        rt.alloc(),
        &mut arena,
        &mut chunks,
        &mut input,
        &mut output,
        &mut messages,
    )
}
