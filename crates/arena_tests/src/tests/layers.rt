// Tests of the callers of the examples over an arena in memory, and of the bytes that calls take.
use super::{ample, layout, same};
use example_blocks::{Buffer, place_two};
use short_bytes::Bytes;
use std::test::Fail;

#[test]
fn blocks_hold_their_bytes(rt: HostRuntime) -> Result<(), Fail> {
    let mut a = ample(rt.alloc());
    let three = layout(&rt, 3, 1);
    let (one, other) = place_two(&mut a, three, &[1, 2, 3], &[4, 5, 6])?;
    same(&rt, a.read(one), [1, 2, 3].as_slice());
    same(&rt, a.read(other), [4, 5, 6].as_slice());
    Ok(())
}

#[test]
fn buffers_and_bytes_grow(rt: HostRuntime) -> Result<(), Fail> {
    let mut a = ample(rt.alloc());
    let mut buffer = Buffer::with_capacity(&mut a, 1)?;
    buffer.push(&mut a, 7)?;
    buffer.push(&mut a, 8)?;
    same(&rt, buffer.bytes(&a), [7, 8].as_slice());
    let mut bytes = Bytes::of(rt.alloc(), &[1, 2])?;
    bytes.push(3)?;
    same(&rt, bytes.as_slice(), [1, 2, 3].as_slice());
    let again = Bytes::from_vec(rt.alloc(), vec![in rt.alloc(); 1, 2, 3]?)?;
    same(&rt, again.as_slice(), [1, 2, 3].as_slice());
    Ok(())
}
