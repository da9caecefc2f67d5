// Loops over bit sets.
ghost use Rattle.std.specs.Prelude.{◌≡◌, ◌<◌, IfOk, IsTrue};
ghost use Rattle.arena_chunks.specs.Frame.{AreBlocksApart};
ghost use Rattle.arena_bits.specs.Sets.{IsSetIn};

use super::{Bench, Clock, Failed, Heap, Timed, new_allocator};
use arena_bits::BitSet;
use arena_items::laws::frame_law;

// The capacity of sets that are joined.
const JOINED: u64 = 4096;

pub(super) fn time(bench: &Bench) -> Result<(), Failed> {
    // In an arena of the closure's own the compiler sees the values of its fields.
    bench.time("bitset_set", 10_000_000, |rt, _, calls| {
        let mut a = new_allocator(rt);
        bitset_set(rt, &mut a, calls)
    })?;
    bench.time("bitset_set_ascending", 10_000_000, |rt, _, calls| {
        let mut a = new_allocator(rt);
        bitset_set_ascending(rt, &mut a, calls)
    })?;
    bench.time("bitset_contains", 10_000_000, bitset_contains)?;
    bench.time("bitset_ones", 10_000_000, bitset_ones)?;
    bench.time("bitset_union", 400_000_000, bitset_union)
}

// The numbers below a limit, in a scattered order.
#[derive(Clone, Copy)]
struct Scattered {
    x: u64,
    limit: u64,
}

impl Scattered {
    fn below(limit: u64) -> Scattered
        ensures { result.limit ≡ limit }
    {
        Scattered { x: 1, limit }
    }

    #[inline]
    fn next(&mut self) -> u64
        requires { 0 < self.old.limit }
        ensures number { result < self.old.limit }
        ensures limit { self.new.limit ≡ self.old.limit }
    {
        let x = self
            .x
            .wrapping_mul(6_364_136_223_846_793_005)
            .wrapping_add(1_442_695_040_888_963_407);
        self.x = x;
        ((x as u128 * self.limit as u128) >> 64) as u64
    }
}

// Returns a set with every third number.
fn thirds(a: &mut Heap, capacity: u64) -> Result<BitSet, Failed>
    ensures { IfOk result (λ set. IsSetIn a.new.memory set × (set.capacity ≡ capacity)) }
{
    let mut set = BitSet::new_in(capacity, a)?;
    for bit in (0..capacity).step_by(3) {
        set.set_bit(a, bit);
    }
    Ok(set)
}

// Returns the number of elements of a set.
fn count(a: &Heap, set: &BitSet) -> u64
    requires { IsSetIn a.now.memory set.now }
{
    set.ones(a).count() as u64
}

// Numbers that are added to a set in a scattered order.
fn bitset_set(rt: &HostRuntime, a: &mut Heap, calls: u64) -> Result<Timed, Failed> {
    let mut set = BitSet::new_in(calls, a)?;
    let mut scattered = Scattered::below(calls);
    let clock = Clock::start(rt);
    for _ in 0..calls {
        set.set_bit(a, scattered.next());
    }
    let timed = clock.stop(rt, 0)?;
    Ok(Timed {
        number: count(a, &set),
        ..timed
    })
}

// Numbers that are added to a set in ascending order.
fn bitset_set_ascending(rt: &HostRuntime, a: &mut Heap, calls: u64) -> Result<Timed, Failed> {
    let mut set = BitSet::new_in(calls, a)?;
    let clock = Clock::start(rt);
    for bit in 0..calls {
        set.set_bit(a, bit);
    }
    let timed = clock.stop(rt, 0)?;
    Ok(Timed {
        number: count(a, &set),
        ..timed
    })
}

// Numbers that are looked up in a scattered order. A third are in the set.
fn bitset_contains(rt: &HostRuntime, a: &mut Heap, calls: u64) -> Result<Timed, Failed> {
    let set = thirds(a, calls)?;
    let mut scattered = Scattered::below(calls);
    let clock = Clock::start(rt);
    let mut number: u64 = 0;
    for _ in 0..calls {
        number = number.wrapping_add(set.contains(a, scattered.next()) as u64);
    }
    clock.stop(rt, number)
}

// The numbers of a set, which are added up. A third are in the set.
fn bitset_ones(rt: &HostRuntime, a: &mut Heap, calls: u64) -> Result<Timed, Failed> {
    let set = thirds(a, calls)?;
    let clock = Clock::start(rt);
    let mut number: u64 = 0;
    for bit in set.ones(a) {
        number = number.wrapping_add(bit);
    }
    clock.stop(rt, number)
}

// Joins a set with another, `times` times.
fn joined(a: &mut Heap, set: BitSet, other: BitSet, times: u64)
    requires set { IsSetIn a.old.memory set }
    requires other { IsSetIn a.old.memory other }
    requires apart { AreBlocksApart other.words.block set.words.block }
    ensures { IsSetIn a.new.memory set }
{
    frame_law::<BitSet>();
    let mut set = set;
    for _ in 0..times {
        set.union(a, &other);
    }
}

// Sets of 4,096 bits that are joined. A call is one bit.
fn bitset_union(rt: &HostRuntime, a: &mut Heap, calls: u64) -> Result<Timed, Failed> {
    frame_law::<BitSet>();
    let other = thirds(a, JOINED)?;
    let set = BitSet::new_in(JOINED, a)?;
    let clock = Clock::start(rt);
    joined(a, set, other, calls.div_ceil(JOINED));
    let timed = clock.stop(rt, 0)?;
    Ok(Timed {
        number: count(a, &set),
        ..timed
    })
}
