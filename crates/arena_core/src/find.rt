// Which chunk has an address.
ghost use Rattle.std.specs.Prelude.{◌≡◌, ◌+◌, ◌-◌, ◌*◌, ◌^◌, ◌≤◌, length};

use crate::arena::Arena;
use arena_bases::Steps;
use arena_store::chunk::NOWHERE;
use std::sync::ledger::Ledger;

impl<const MIN_ALIGN: usize> Arena<MIN_ALIGN> {
    ghost use Rattle.arena_core.specs.Finding.{chunk_number};

    /// Returns the number of the chunk that has an address, from its base to its data end: from 0, oldest first. Each
    /// read of an older chunk's base counts one step.
    pub fn find_chunk<L: Ledger>(&self, addr: u64, steps: &mut Steps<L>) -> Option<u64>
        ensures number { result ≡ chunk_number addr self.now.state.chunks }
        ensures rises { steps.old ≤ steps.new }
        ensures cost { 2 ^ (steps.new - steps.old) ≤ 2 * length self.now.state.chunks + 1 }
    {
        if addr < self.newest.base {
            return self.older.number_of(addr, steps);
        }
        if self.newest.base == NOWHERE {
            return None;
        }
        if addr - self.newest.base > self.newest.size() {
            return None;
        }
        Some(self.older.len() as u64)
    }
}
