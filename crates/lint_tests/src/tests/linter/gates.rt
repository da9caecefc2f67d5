// A test of gates: workers lint at the same time, since the gate holds all sources but the last until that is finished.
use super::over::linted_over;
use super::pools::{PAIR, PAIR_LINES};
use arena_lint::Gate;
use arena_pool::{MemoryMaker, PoolKind};
use std::sync::atomic::{AtomicU64, Ordering};
use std::test::*;
use std::thread;

/// How often a source checks whether the last is finished.
const TURNS: u32 = 1_000_000;

/// Holds each source until the last is finished, and counts those that saw it.
#[derive(Drop, Default)]
struct AfterTheLast {
    last: u32,
    finished: AtomicU64,
    seen: AtomicU64,
}

impl Gate for AfterTheLast {
    fn started(&self, piece: u32) {
        if piece == self.last {
            return;
        }
        for _ in 0..TURNS {
            if self.finished.load(Ordering::SeqCst) == 1 {
                self.seen.fetch_add(1, Ordering::SeqCst);
                return;
            }
            thread::yield_now();
        }
    }

    fn finished(&self, piece: u32) {
        if piece == self.last {
            self.finished.store(1, Ordering::SeqCst);
        }
    }
}

/// Nine empty sources, and their lines.
const NINE: &str = "%%\n%%\n%%\n%%\n%%\n%%\n%%\n%%\n";

const NINE_LINES: &str =
    "source 0\nsource 1\nsource 2\nsource 3\nsource 4\nsource 5\nsource 6\nsource 7\nsource 8\n";

#[test]
fn workers_lint_at_once(rt: HostRuntime) -> Result<(), Fail> {
    for (workers, input, lines) in [(2, PAIR, PAIR_LINES), (9, NINE, NINE_LINES)] {
        let gate = AfterTheLast {
            last: workers - 1,
            ..Default::default()
        };
        let maker = MemoryMaker::new(rt.alloc(), 1 << 20);
        let over = (PoolKind::Standard, workers, workers);
        let told = linted_over(&rt, over, maker, &gate, input.as_bytes())?;
        assert!(rt; told.as_slice() == lines.as_bytes());
        assert!(rt; gate.seen.load(Ordering::SeqCst) == u64::from(gate.last));
    }
    Ok(())
}
