// Tests of inputs that are long enough to be parsed on several workers.
use super::{asks, ends_so};
use arena_program::parse_on_workers;
use arena_workers::Gate;
use std::alloc::Global;
use std::sync::atomic::{AtomicU64, Ordering};
use std::test::Fail;
use std::thread;

// A script of three lines, and how often the input has it.
const SCRIPT: &str = "script\nvalue 0 1\nload 0\n";

const COUNT: usize = 3000;

// The input, with lines that are added, each before the script of this number.
fn input(alloc: Global, added: &[(usize, &str)]) -> Result<Vec<u8>, Fail> {
    let mut text = Vec::new(alloc);
    for i in 0..COUNT {
        for (place, line) in added {
            if *place == i {
                text.extend_from_slice(line.as_bytes())?;
            }
        }
        text.extend_from_slice(SCRIPT.as_bytes())?;
    }
    Ok(text)
}

// What comes of the input with no lines added.
fn told(alloc: Global) -> Result<Vec<u8>, Fail> {
    let mut text = Vec::new(alloc);
    for i in 0..COUNT {
        let outcome = format!(in alloc; "script {i}\ndone\nnumber 1\nended done\n")?;
        text.extend_from_slice(outcome.as_bytes())?;
    }
    Ok(text)
}

#[test]
fn long_inputs_on_workers(rt: HostRuntime) -> Result<(), Fail> {
    let (text, told) = (input(rt.alloc(), &[])?, told(rt.alloc())?);
    for workers in ["1", "3", "4"] {
        let words = ["scripts", workers];
        let asked = asks(&words, text.as_slice());
        ends_so(&rt, &asked, (0, 0, told.as_slice()), workers)?;
    }
    Ok(())
}

// How many workers, the lines that are added, and the number of the first that is refused.
type Row = (&'static str, &'static [(usize, &'static str)], u64);

// A line in each quarter, and in two of them.
const REFUSED: &[Row] = &[
    ("4", &[(0, "load 0\n")], 1),
    ("4", &[(700, "loads 0\n")], 2101),
    ("4", &[(1400, "loads 0\n")], 4201),
    ("4", &[(2200, "\nload\n")], 6602),
    ("4", &[(2999, "load 0 \n")], 8998),
    ("4", &[(700, "scripts\n"), (2200, "loads 0\n")], 2101),
    (
        "4",
        &[(1400, "\n"), (2200, "loads 0\n"), (2999, "0\n")],
        6602,
    ),
    ("64", &[(2200, "script 1\n")], 6601),
    ("3", &[(1400, "loads 0\n")], 4201),
    ("1", &[(2200, "loads 0\n")], 6601),
];

#[test]
fn refused_lines_of_long_inputs(rt: HostRuntime) -> Result<(), Fail> {
    for (workers, added, number) in REFUSED {
        let text = input(rt.alloc(), added)?;
        let words = ["scripts", workers];
        let asked = asks(&words, text.as_slice());
        ends_so(&rt, &asked, (2, *number, b""), workers)?;
    }
    Ok(())
}

/// How often a part checks whether all others have begun.
const TURNS: u32 = 1_000_000;

/// Holds each part until as many as there are workers have begun, and counts those that saw it.
#[derive(Drop, Default)]
struct AllBegun {
    workers: u64,
    begun: AtomicU64,
    seen: AtomicU64,
}

impl Gate for AllBegun {
    fn started(&self, _piece: u32) {
        self.begun.fetch_add(1, Ordering::SeqCst);
        for _ in 0..TURNS {
            if self.begun.load(Ordering::SeqCst) == self.workers {
                self.seen.fetch_add(1, Ordering::SeqCst);
                return;
            }
            thread::yield_now();
        }
    }

    fn finished(&self, _piece: u32) {}
}

// A ninth of three inputs is long enough for a worker.
#[test]
fn workers_parse_at_once(rt: HostRuntime) -> Result<(), Fail> {
    let mut text = Vec::new(rt.alloc());
    for _ in 0..3 {
        text.extend_from_slice(input(rt.alloc(), &[])?.as_slice())?;
    }
    for workers in [2, 3, 9] {
        let gate = AllBegun {
            workers: u64::from(workers),
            ..Default::default()
        };
        let scripts = parse_on_workers(&rt, rt.alloc(), &gate, 0, workers, text.as_slice());
        assert!(rt; scripts.is_ok_and(|all| all.len() == 3 * COUNT));
        assert!(rt; gate.seen.load(Ordering::SeqCst) == u64::from(workers));
    }
    Ok(())
}
