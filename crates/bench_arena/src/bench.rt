// The program's arguments, which are called words, and the runs of the loops that they ask for.
ghost use Rattle.std.specs.Prelude.{◌<◌, IfSome};

use crate::loops::{Failed, Heap, Timed, in_batches, new_allocator};
use std::{env, io};

// The number of times that a loop is timed. The best run counts.
const RUNS: u32 = 5;

// The number of calls that each loop makes with `check`.
const CHECKED: u64 = 2048;

// The default number of chunks for a loop over older chunks.
const CHUNKS: u64 = 9;

/// What the words ask for: the loops with a name, `check`, or all loops; the number of calls; and the number of
/// chunks for loops over older chunks.
#[derive(Drop)]
pub struct Bench<'a> {
    rt: &'a HostRuntime,
    word: Option<String>,
    calls: Option<u64>,
    pub chunks: u64,
}

// The number of runs of a loop, and the number of calls in each.
#[derive(Clone, Copy)]
struct Runs {
    count: u32,
    calls: u64,
}

impl Bench<'_> {
    /// Reads the words.
    pub fn read(rt: &HostRuntime) -> io::Result<Bench<'_>> {
        let mut words = env::args(rt)?.skip(1);
        let word = words.next();
        let calls = number(words.next());
        let chunks = number(words.next()).unwrap_or(CHUNKS);
        Ok(Bench {
            rt,
            word,
            calls,
            chunks,
        })
    }

    // Returns how the loop with this name is run, if it is requested. It makes `calls` calls by default.
    fn runs_of(&self, name: &str, calls: u64) -> Option<Runs>
        ensures { IfSome result (λ r. 0 < r.calls) }
    {
        let timed = Runs {
            count: RUNS,
            calls: self.calls.unwrap_or(calls).max(1),
        };
        let Some(word) = &self.word else {
            return Some(timed);
        };
        if word.as_str() == "check" {
            Some(Runs {
                count: 1,
                calls: CHECKED,
            })
        } else if word.as_str() == name {
            Some(timed)
        } else {
            None
        }
    }

    /// Times a loop if it is requested, and prints the result. It makes `calls` calls by default.
    pub fn time<F: Fn(&HostRuntime, &mut Heap, u64) -> Result<Timed, Failed> + Drop>(
        &self,
        name: &str,
        calls: u64,
        run: F,
    ) -> Result<(), Failed>
        requires { F.IsAlwaysCallable run }
    {
        let Some(runs) = self.runs_of(name, calls) else {
            return Ok(());
        };
        let mut best = run_once(self.rt, &run, runs.calls)?;
        for _ in 1..runs.count {
            let next = run_once(self.rt, &run, runs.calls)?;
            if next.time < best.time {
                best = next;
            }
        }
        tell(self.rt, name, runs, best)
    }

    /// Times a loop in a chunk that is reset before it is full. Its closure places a given number of values, and adds
    /// up what it reads.
    pub fn time_batches<F: Fn(&mut Heap, u64) -> Result<u64, Failed> + Drop>(
        &self,
        name: &str,
        calls: u64,
        place: F,
    ) -> Result<(), Failed>
        requires { F.IsAlwaysCallable place }
    {
        self.time(name, calls, |rt, a, calls| in_batches(rt, a, calls, &place))
    }
}

fn number(word: Option<String>) -> Option<u64> {
    let word = word?;
    word.as_str().parse::<u64>().ok()
}

// Runs a loop once in a new arena without a chunk. It is compiled for each loop separately, with an arena of its own.
#[inline(never)]
fn run_once<F: Fn(&HostRuntime, &mut Heap, u64) -> Result<Timed, Failed>>(
    rt: &HostRuntime,
    run: &F,
    calls: u64,
) -> Result<Timed, Failed>
    requires { F.IsAlwaysCallable run.now }
{
    let mut a = new_allocator(rt);
    run(rt, &mut a, calls)
}

// Prints the result of a loop. If it was run only once, this is its number alone.
fn tell(rt: &HostRuntime, name: &str, runs: Runs, best: Timed) -> Result<(), Failed>
    requires { 0 < runs.calls }
{
    if runs.count == 1 {
        tell_number(rt, name, best.number)
    } else {
        tell_time(rt, name, runs.calls, best)
    }
}

fn tell_number(rt: &HostRuntime, name: &str, number: u64) -> Result<(), Failed> {
    println!(rt; "{name} {number}")?;
    Ok(())
}

fn tell_time(rt: &HostRuntime, name: &str, calls: u64, best: Timed) -> Result<(), Failed>
    requires { 0 < calls }
{
    // A call may take less than a picosecond.
    let femtoseconds = best.time.as_nanos() * 1_000_000 / calls as u128;
    let whole = femtoseconds / 1_000_000;
    let part = femtoseconds % 1_000_000;
    let number = best.number;
    println!(rt; "{name:<21} {whole:>4}.{part:06} ns/op  ops {calls}  number {number}")?;
    Ok(())
}
