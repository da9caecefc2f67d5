// How much memory the program's arena may take.
ghost use Rattle.std.specs.Prelude.{◌≡◌, ℕ, None};
ghost use Rattle.arena_calls.specs.Budget.{budget};

use arena_chunks::{ChunkSource, MemoryChunks};
use std::alloc::Global;

const BUDGET: u64 = 1_073_741_824;

/// A source of chunks with a budget of bytes.
pub trait Budgeted: ChunkSource {
    // How many bytes are left of the budget.
    ghost left: { Self → ℕ };

    /// Returns how many bytes are left of the budget.
    fn bytes_left(&self) -> u64
        ensures { result ≡ left self.now };
}

impl Budgeted for MemoryChunks {
    ghost left = { λ c. c.left };

    fn bytes_left(&self) -> u64 {
        self.left
    }
}

/// Returns the source of the program's chunks: memory, up to 1 GiB. It has refused nothing yet.
pub fn program_chunks(alloc: Global) -> MemoryChunks
    ensures left { result.left ≡ budget }
    ensures source { ⟦<MemoryChunks as ChunkSource>⟧.source result ≡ record { refusals = 0; asked = None } }
{
    MemoryChunks::new(alloc, BUDGET)
}
