// Tests of blocks that are reallocated to another size at their alignment.
use super::steps::Step;
use super::{ample, held, layout, same};
use arena_chunks::bumpalo_alloc::Alloc;

pub(super) const SIZES: &[Step] = &[
    Step::Case("51 of 100 bytes", &[]),
    Step::Alloc(100, 1, Ok(20316)),
    Step::Realloc(0, 51, Ok(20316)),
    Step::Case("50 of 100 bytes", &[]),
    Step::Alloc(100, 1, Ok(20316)),
    Step::Realloc(0, 50, Ok(20366)),
    Step::Case("11 bytes for 10", &[]),
    Step::Alloc(10, 1, Ok(20406)),
    Step::Realloc(0, 11, Ok(20405)),
    Step::Case("more than the chunk has", &[]),
    Step::Alloc(1, 1, Ok(20415)),
    Step::Realloc(0, 16321, Ok(36847)),
    Step::Case("2 bytes for 1, above another", &[]),
    Step::Alloc(1, 1, Ok(20415)),
    Step::Alloc(1, 1, Ok(20414)),
    Step::Realloc(0, 2, Ok(20412)),
    Step::Case("8 bytes for none, placed anew", &[]),
    Step::Alloc(0, 1, Ok(16)),
    Step::Realloc(0, 8, Ok(20408)),
    Step::Statistics(2, 0),
    Step::Case("a size that is no layout", &[]),
    Step::Alloc(16, 16, Ok(20400)),
    Step::Realloc(0, (1 << 63) - 15, Err(0)),
];

// Places a block, and another after it, and grows the first one twice.
#[test]
fn through_three_chunks(rt: HostRuntime) {
    let mut a = ample(rt.alloc());
    let mut block = Alloc::alloc(&mut a, layout(&rt, 12000, 4)).expect(&rt, "a block");
    same(&rt, block.addr, 8416);
    Alloc::alloc(&mut a, layout(&rt, 1000, 4)).expect(&rt, "a block");
    for (size, addr) in [(24000, 29168), (48000, 70688)] {
        block = held(&rt, &a, block);
        block = a.realloc(block, size).expect(&rt, "a block");
        same(&rt, (block.addr, block.size), (addr, size));
    }
}
