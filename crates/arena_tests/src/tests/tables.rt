// Takes the steps of all tables.
use super::growth::{CHUNKS, FIRST_CHUNKS, RESETS};
use super::marks::MARKS;
use super::reallocation::SIZES;
use super::resizes::{BLOCKS, BY_16};
use super::steps::all_hold;

#[test]
fn chunks(rt: HostRuntime) {
    for steps in [CHUNKS, FIRST_CHUNKS, RESETS] {
        all_hold::<1>(&rt, rt.alloc(), steps);
    }
}

#[test]
fn blocks_and_marks(rt: HostRuntime) {
    for steps in [BLOCKS, SIZES, MARKS] {
        all_hold::<1>(&rt, rt.alloc(), steps);
    }
    all_hold::<16>(&rt, rt.alloc(), BY_16);
}
