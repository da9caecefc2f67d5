// A loop in a chunk that is reset before it is full.
use super::{Clock, Failed, Heap, Timed, with_capacity};

// The number of values that are placed between two resets, in a chunk with room for all of them.
const BATCH: u64 = 65_536;

/// Places values through a closure that places a given number of them and adds up what it reads, and resets after
/// each batch.
pub fn in_batches<F: Fn(&mut Heap, u64) -> Result<u64, Failed>>(
    rt: &HostRuntime,
    a: &mut Heap,
    values: u64,
    place: &F,
) -> Result<Timed, Failed>
    requires { F.IsAlwaysCallable place.now }
{
    *a = with_capacity(rt, 1 << 22)?;
    let clock = Clock::start(rt);
    let mut number: u64 = 0;
    for _ in 0..values / BATCH {
        number = number.wrapping_add(place(a, BATCH)?);
        a.reset();
    }
    number = number.wrapping_add(place(a, values % BATCH)?);
    clock.stop(rt, number)
}
