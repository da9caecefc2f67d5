// A test of the order of calls for each script: the gate is told that it begins, then the job runs it, then the gate
// is told that it is finished.
use arena_chunks::{Allocator, ChunkSource};
use arena_script::{Job, run_script};
use script_rules::{Command, Outcome, Script};
use script_workers::Gate;
use std::alloc::Global;
use std::sync::atomic::{AtomicU64, Ordering};
use std::test::*;

/// The stages of a script: not begun, begun, run, and finished.
const NEW: u64 = 0;

const BEGUN: u64 = 1;

const RUN: u64 = 2;

const FINISHED: u64 = 3;

/// A call for the script came out of order.
const MIXED_UP: u64 = 4;

/// The stage of each script.
#[derive(Drop)]
pub(super) struct Stages {
    all: Vec<AtomicU64>,
}

impl Stages {
    /// Returns `count` scripts that haven't begun.
    pub(super) fn of(alloc: Global, count: usize) -> Result<Stages, Fail> {
        let mut all = Vec::new(alloc);
        for _ in 0..count {
            all.push(AtomicU64::new(NEW))?;
        }
        Ok(Stages { all })
    }

    // Moves a script from one stage to another.
    fn comes(&self, number: u64, from: u64, to: u64) {
        let Some(stage) = self.all.get(number as usize) else {
            return;
        };
        if stage.swap(to, Ordering::SeqCst) != from {
            stage.store(MIXED_UP, Ordering::SeqCst);
        }
    }

    /// Whether each script went through each stage once.
    pub(super) fn are_over(&self) -> bool {
        self.all
            .iter()
            .all(|stage| stage.load(Ordering::SeqCst) == FINISHED)
    }
}

impl Gate for Stages {
    fn started(&self, piece: u32) {
        self.comes(u64::from(piece), NEW, BEGUN);
    }

    fn finished(&self, piece: u32) {
        self.comes(u64::from(piece), RUN, FINISHED);
    }
}

impl<C: ChunkSource> Job<C> for Stages {
    ghost worked = { λ script outcome. Unit {0} };

    // A script's first command contains its number.
    fn run(&self, alloc: Global, a: &mut Allocator<C>, script: &Script) -> Outcome {
        if let Some(Command::MakeValue { value, .. }) = script.as_slice().first() {
            self.comes(*value, BEGUN, RUN);
        }
        run_script(alloc, a, script)
    }
}
