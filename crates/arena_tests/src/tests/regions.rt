// Tests of regions with ample memory: of zeros, of a copy, and of a vector with spare capacity.
use super::{must, same};
use arena_region::Region;
use example_blocks::put_last;
use std::process::Abort;
use std::test::Fail;

// Checks that a region of two bytes is ready from `low` on, and that its last byte can be written.
fn ends(rt: &impl Abort, region: Region, low: usize) {
    let mut region = region;
    must(rt, low, region.len() == 2);
    same(rt, region.low(), low);
    put_last(&mut region, &[7]);
    must(rt, low, region.len() == 2);
    let low = region.low();
    must(rt, low, region.part(low, 2 - low).ends_with(&[7]));
}

#[test]
fn beginnings(rt: HostRuntime) -> Result<(), Fail> {
    let alloc = rt.alloc();
    must(&rt, "too large", Region::zeros(alloc, usize::MAX).is_err());
    ends(&rt, Region::zeros(alloc, 2)?, 2);
    ends(&rt, Region::from_slice(alloc, &[5, 6])?, 0);
    let mut vec = Vec::new(alloc);
    vec.reserve(100)?;
    vec.push(5)?;
    vec.push(6)?;
    ends(&rt, Region::from_vec(vec), 0);
    Ok(())
}
