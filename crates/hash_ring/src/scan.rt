// Walks over the marks of a table.
ghost use Rattle.std.specs.Prelude.{◌+◌, ◌*◌, ◌<◌, ◌≤◌};
ghost use Rattle.std.specs.Prelude.{Some, length, take};
ghost use Rattle.std.specs.Option.{MatchOption};
ghost use Rattle.hash_ring.specs.Walks.{front_of, AreFree, AreTaken, IsByGroups, GoesOn, IsScan};

use std::simd::prelude::*;

/// A position in a walk over marks.
#[derive(Clone, Copy)]
pub struct Scan {
    /// The first slot of the current group of 64.
    pub base: u64,
    /// A bit for each taken slot of the group that the walk hasn't returned yet.
    pub rest: u64,
}

// The taken slots among the 64 from `base` on.
#[inline(always)]
fn taken_of_many(bytes: &[u8], base: u64) -> u64
    requires { base + 64 ≤ length bytes.now }
    ensures { AreTaken bytes.now base result }
{
    u8x64::from_slice(&bytes[base as usize..])
        .simd_ne(u8x64::splat(0))
        .to_bitmask()
}

// The taken slots of a table with fewer than 64.
fn taken_of_few(bytes: &[u8], slots: u64) -> u64
    requires few { slots < 64 }
    requires long { slots ≤ length bytes.now }
    ensures { AreTaken (take slots bytes.now) 0 result }
{
    let few = slots as usize;
    let mut marks = [0u8; 64];
    marks[..few].copy_from_slice(&bytes[..few]);
    taken_of_many(&marks, 0)
}

/// Returns the position at the start of a walk.
#[inline(always)]
pub fn start(bytes: &[u8], slots: u64) -> Scan
    requires long { slots ≤ length bytes.now }
    ensures scan { IsScan slots (take slots bytes.now) result }
    ensures free { AreFree (take slots bytes.now) 0 (front_of result) }
{
    Scan {
        base: 0,
        rest: if slots < 64 {
            taken_of_few(bytes, slots)
        } else {
            taken_of_many(bytes, 0)
        },
    }
}

/// Returns the next taken slot, if there is one, and the position after it.
#[inline(always)]
pub fn step(bytes: &[u8], slots: u64, scan: Scan) -> (Option<u64>, Scan)
    requires groups { IsByGroups slots }
    requires long { slots ≤ length bytes.now }
    requires scan { IsScan slots (take slots bytes.now) scan }
    ensures scan { IsScan slots (take slots bytes.now) result.1 }
    ensures goes { let marks = take slots bytes.now in
        MatchOption result.0 (AreFree marks (front_of scan) slots × (slots ≤ front_of result.1))
        (λ at. GoesOn slots marks scan at result.1) }
{
    let mut base = scan.base;
    let mut rest = scan.rest;
    'groups: while rest == 0 {
        if base + 64 >= slots {
            return (None, Scan { base, rest });
        }
        base += 64;
        rest = taken_of_many(bytes, base);
    }
    let slot = base + rest.trailing_zeros() as u64;
    (
        Some(slot),
        Scan {
            base,
            rest: rest & (rest - 1),
        },
    )
}
