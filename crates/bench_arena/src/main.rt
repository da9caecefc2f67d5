//! Times small loops of calls on an arena, in nanoseconds per call: the loops with the given name, or all. A second
//! word is the number of calls, a third the number of chunks for loops over older chunks. With the word `check` it
//! prints only the number of each loop, for few calls.
#![tactic(auto)]

mod bench;
mod loops;

use bench::Bench;
use loops::Failed;
use std::process::ExitCode;
use std::sync::Wait;
use std::thread::Threads;

fn run<R: Threads + Wait + Sync>(rt: &HostRuntime, threads: &R) -> Result<(), Failed> {
    let bench = Bench::read(rt)?;
    loops::time(&bench, threads)
}

fn main(rt: HostRuntime) -> ExitCode {
    match run(&rt, &rt) {
        Ok(()) => ExitCode::SUCCESS,
        Err(_) => ExitCode::FAILURE,
    }
}
