// Which of a table's bases is the last at or below an address.
ghost use Rattle.std.specs.Prelude.{◌≡◌, ◌+◌, ◌-◌, ◌*◌, ◌^◌, ◌<◌, ◌≤◌, length, slice_index};
ghost use Rattle.arena_bases.specs.Bases.{IsBlankOf};
ghost use Rattle.arena_store.specs.Table.{IsSplit, HasBelow, IsLastBelow};

use arena_bases::{Bases, Steps};
use std::marker::Brand;
use std::sync::ledger::{Blank, Ledger};

// Up to this many bases are counted one by one.
const FEW: u64 = 64;

// Returns how many of the bases are at most an address, by binary search, and the last of them.
pub(crate) fn search<L: Ledger>(bases: &Bases, addr: u64, steps: &mut Steps<L>) -> (u64, u64)
    ensures split { IsSplit bases.now.items addr result.0 }
    ensures last { 0 < result.0 → result.1 ≡ slice_index bases.now.items (result.0 - 1) }
    ensures rises { steps.old ≤ steps.new }
    ensures cost { 2 ^ (steps.new - steps.old) ≤ 2 * length bases.now.items + 1 }
{
    let mut low = 0;
    let mut last = 0;
    let mut high = bases.len();
    while low < high {
        let middle = low + (high - low) / 2;
        let base = bases.base_at(middle, steps);
        if base <= addr {
            low = middle + 1;
            last = base;
        } else {
            high = middle;
        }
    }
    (low, last)
}

// Returns how many of the bases are at most an address, by reading each one but the first and the last: the first is at
// most the address, and the last isn't. No branch depends on the address.
fn count<L: Ledger>(bases: &Bases, addr: u64, steps: &mut Steps<L>) -> u64
    requires some { 0 < length bases.now.items }
    requires first { slice_index bases.now.items 0 ≤ addr }
    requires last { addr < slice_index bases.now.items (length bases.now.items - 1) }
    ensures { IsSplit bases.now.items addr result }
{
    let mut n = 1;
    for i in 1..bases.len() - 1 {
        n += (bases.base_at(i, steps) <= addr) as u64;
    }
    n
}

// Returns how many of the bases are at most an address, of which there are some. The last base is that of the largest
// chunk, so it is read first: the chunk's bytes are then fetched before the address is known. For few bases a count is
// faster than a search, each branch of which may be mispredicted.
fn split_of<L: Ledger>(bases: &Bases, addr: u64, blank: Blank) -> u64
    requires blank { IsBlankOf L.name L.parts blank }
    requires some { HasBelow bases.now.items addr }
    ensures { IsSplit bases.now.items addr result }
{
    let mut steps = Steps::<L>::new(blank);
    let n = bases.len();
    if bases.base_at(n - 1, &mut steps) <= addr {
        n
    } else if n <= FEW {
        count(bases, addr, &mut steps)
    } else {
        search(bases, addr, &mut steps).0
    }
}

fn base_of<L: Ledger>(bases: &Bases, i: u64, blank: Blank) -> u64
    requires blank { IsBlankOf L.name L.parts blank }
    requires index { i < length bases.now.items }
    ensures { result ≡ slice_index bases.now.items i }
{
    let mut steps = Steps::<L>::new(blank);
    bases.base_at(i, &mut steps)
}

// Returns a base, with its own step counter.
#[inline(always)]
pub(crate) fn base(bases: &Bases, i: u64) -> u64
    requires { i < length bases.now.items }
    ensures { result ≡ slice_index bases.now.items i }
{
    base_of::<Brand>(bases, i, Blank::new(1))
}

// Returns the index of the last base that is at most an address, with its own step counter, and how far the address is
// above that base.
#[inline(always)]
pub(crate) fn last_below(bases: &Bases, addr: u64) -> (usize, usize)
    requires { HasBelow bases.now.items addr }
    ensures last { IsLastBelow bases.now.items addr result.0 }
    ensures offset { result.1 ≡ addr - slice_index bases.now.items result.0 }
{
    let i = split_of::<Brand>(bases, addr, Blank::new(1)) - 1;
    (i as usize, (addr - base(bases, i)) as usize)
}
