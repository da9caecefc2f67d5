// How much memory the arenas of a pool may take.
ghost use Rattle.std.specs.Prelude.{◌≡◌, ℕ};
ghost use Rattle.arena_program.specs.Program.{maker_budget};

use arena_pool::{ChunkMaker, MemoryMaker};
use std::alloc::Global;

const MAKER_BUDGET: u64 = 67_108_864;

/// A maker of sources of chunks, each of which has a budget of bytes.
pub trait BudgetedMaker: ChunkMaker {
    // How many bytes each source may give.
    ghost each: { Self → ℕ };

    /// Returns how many bytes each source may give.
    fn bytes_each(&self) -> u64
        ensures { result ≡ each self.now };
}

impl BudgetedMaker for MemoryMaker {
    ghost each = { λ m. m.budget };

    fn bytes_each(&self) -> u64 {
        self.budget
    }
}

/// Returns the maker of the sources of the arenas that scripts run on: memory, up to 64 MiB for each arena.
pub fn program_maker(alloc: Global) -> MemoryMaker
    ensures { result.budget ≡ maker_budget }
{
    MemoryMaker::new(alloc, MAKER_BUDGET)
}
