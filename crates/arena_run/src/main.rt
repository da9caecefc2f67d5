//! Runs calls or scripts on bump arenas, or lints sources, and prints the results.
#![tactic(auto)]

use arena_calls::{StdInput, StdOutput, program_chunks};
use arena_chunks::Arena;
use arena_program::{program_maker, run_program};
use arena_script::Engine;
use std::io::Lock;
use std::process::ExitCode;
use std::{env, io};

fn main(rt: HostRuntime) -> ExitCode {
    let mut arena = Arena::<1>::new(rt.alloc());
    let mut chunks = program_chunks(rt.alloc());
    let mut input = StdInput::new(rt.reader());
    let mut output = StdOutput::new(io::writer(&rt));
    let mut messages = StdOutput::new(rt.stderr().lock());
    let mut starved = Vec::new(rt.alloc());
    run_program(
        &rt,
        rt.alloc(),
        env::args(&rt),
        &mut arena,
        &mut chunks,
        &mut input,
        &mut output,
        &mut messages,
        program_maker(rt.alloc()),
        &Engine,
        &mut starved,
    )
}
