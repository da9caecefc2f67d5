// Tests of bit sets by their numbers and texts after each call. The values are worked examples of the rules, and the
// Rust crate's tests.
ghost use Rattle.arena_bits.specs.Sets.{AreOneOrApart};

use super::{Memory, NO_CHUNK, NO_PLACE, ample, fixed, limited, same};
use arena_bits::BitSet;
use std::alloc::Global;
use std::process::Abort;

// A call on a set.
#[derive(Drop)]
pub(super) enum Step {
    // Begins with a new set of this capacity.
    New(u64),
    Set(u64),
    Unset(u64),
    Clear,
}

// Fails the test if the two sets overlap in memory but aren't the same.
fn apart(rt: &impl Abort, one: BitSet, other: BitSet)
    ensures { AreOneOrApart one.words.block other.words.block }
{
    let (one, other) = (one.words.block, other.words.block);
    if one == other {
        return;
    }
    assert!(rt; one.addr <= u64::MAX - one.size && other.addr <= u64::MAX - other.size);
    assert!(rt; one.addr + one.size <= other.addr || other.addr + other.size <= one.addr);
}

pub(super) fn take(rt: &impl Abort, a: &mut Memory, set: &mut BitSet, step: &Step) {
    assert!(rt; set.is_held(a));
    match step {
        Step::New(capacity) => *set = BitSet::new_in(*capacity, a).expect(rt, "a set"),
        Step::Set(bit) => {
            assert!(rt; *bit / 64 < set.words.len());
            set.set_bit(a, *bit);
            assert!(rt; set.has_bit(a, *bit));
        }
        Step::Unset(bit) => {
            assert!(rt; *bit / 64 < set.words.len());
            set.unset_bit(a, *bit);
            assert!(rt; !set.has_bit(a, *bit));
        }
        Step::Clear => set.clear(a),
    }
}

// Returns a set of this capacity with these numbers.
pub(super) fn set_of(rt: &impl Abort, a: &mut Memory, capacity: u64, bits: &[u64]) -> BitSet {
    let mut set = BitSet::new_in(capacity, a).expect(rt, "a set");
    for bit in bits {
        take(rt, a, &mut set, &Step::Set(*bit));
    }
    set
}

// Checks that an iterator yields these numbers.
pub(super) fn walks(rt: &impl Abort, a: &Memory, set: &BitSet, numbers: &[u64]) {
    assert!(rt; set.is_held(a));
    let mut ones = set.ones(a);
    for number in numbers {
        same(rt, ones.next(), Some(*number));
    }
    same(rt, ones.next(), None);
}

// Checks the text of a set, plain and in the debug form, and that the set is empty if the text has no 1.
fn shows(rt: &impl Abort, alloc: Global, a: &Memory, set: &BitSet, text: &str) {
    assert!(rt; set.is_held(a));
    let plain = set.display(alloc, a).expect(rt, "memory");
    same(rt, plain.as_slice(), text.as_bytes());
    let whole = set.debug(alloc, a).expect(rt, "memory");
    let expected = format!(in alloc; "BitSet(\"{text}\")").expect(rt, "memory");
    same(rt, whole.as_slice(), expected.as_bytes());
    same(rt, set.is_empty(a), !text.as_bytes().contains(&b'1'));
}

// Steps, and the text of the set after each.
const CHANGES: &[(Step, &str)] = &[
    (Step::New(64), "00000000"),
    (Step::Set(0), "00000001"),
    (Step::Set(1), "00000011"),
    (Step::Set(7), "10000011"),
    (Step::Set(9), "00000010_10000011"),
    (
        Step::Set(63),
        "10000000_00000000_00000000_00000000_00000000_00000000_00000010_10000011",
    ),
    (Step::New(65), "00000000"),
    (Step::Set(0), "00000001"),
    (Step::Set(1), "00000011"),
    (Step::Set(7), "10000011"),
    (Step::Set(8), "00000001_10000011"),
    (Step::Set(15), "10000001_10000011"),
    (
        Step::Set(63),
        "10000000_00000000_00000000_00000000_00000000_00000000_10000001_10000011",
    ),
    (
        Step::Set(64),
        "00000001_10000000_00000000_00000000_00000000_00000000_00000000_10000001_10000011",
    ),
    (Step::New(16), "00000000"),
    (Step::Set(0), "00000001"),
    (Step::Set(1), "00000011"),
    (Step::Set(7), "10000011"),
    (Step::Set(8), "00000001_10000011"),
    (Step::Unset(1), "00000001_10000001"),
    (Step::Unset(1), "00000001_10000001"),
    (Step::Unset(8), "10000001"),
    (Step::Unset(0), "10000000"),
    (Step::Unset(7), "00000000"),
    (Step::New(128), "00000000"),
    (Step::Set(0), "00000001"),
    (Step::Set(7), "10000001"),
    (
        Step::Set(64),
        "00000001_00000000_00000000_00000000_00000000_00000000_00000000_00000000_10000001",
    ),
    (
        Step::Set(127),
        "10000000_00000000_00000000_00000000_00000000_00000000_00000000_\
         00000001_00000000_00000000_00000000_00000000_00000000_00000000_00000000_10000001",
    ),
    (Step::Clear, "00000000"),
    (
        Step::Set(42),
        "00000100_00000000_00000000_00000000_00000000_00000000",
    ),
    (Step::New(128), "00000000"),
    (
        Step::Set(100),
        "00010000_00000000_00000000_00000000_00000000_00000000_00000000_\
         00000000_00000000_00000000_00000000_00000000_00000000",
    ),
    (Step::Unset(100), "00000000"),
    (Step::New(3), "00000000"),
    (Step::Set(0), "00000001"),
    (Step::Set(2), "00000101"),
];

#[test]
fn texts_of_sets(rt: HostRuntime) {
    let mut a = ample(rt.alloc());
    let mut set = set_of(&rt, &mut a, 0, &[]);
    for (step, text) in CHANGES {
        take(&rt, &mut a, &mut set, step);
        shows(&rt, rt.alloc(), &a, &set, text);
    }
}

// Two sets by their capacities and numbers; and the numbers of the first below its capacity, and its text, after the
// second is joined to it.
const JOINED: &[(u64, &[u64], u64, &[u64], &[u64], &str)] = &[
    (
        16,
        &[0, 3, 8],
        16,
        &[1, 3, 9],
        &[0, 1, 3, 8, 9],
        "00000011_00001011",
    ),
    (1, &[], 16, &[5], &[], "00100000"),
    (0, &[], 128, &[1], &[], ""),
];

#[test]
fn sets_joined(rt: HostRuntime) {
    for &(capacity, mine, other_capacity, theirs, both, text) in JOINED {
        let mut a = ample(rt.alloc());
        let mut set = set_of(&rt, &mut a, capacity, mine);
        let other = set_of(&rt, &mut a, other_capacity, theirs);
        assert!(rt; set.is_held(&a) && other.is_held(&a));
        apart(&rt, other, set);
        set.union(&mut a, &other);
        walks(&rt, &a, &set, both);
        shows(&rt, rt.alloc(), &a, &set, text);
    }
}

// A capacity, numbers, and those below the capacity.
const CAPACITIES: &[(u64, &[u64], &[u64])] = &[
    (0, &[], &[]),
    (3, &[0, 2], &[0, 2]),
    (128, &[100], &[100]),
    (1_000_000, &[0, 63, 64, 999_999], &[0, 63, 64, 999_999]),
];

// Which numbers below 200 a set has below its capacity, and that it has none from there on, is checked too.
#[test]
fn sets_of_some_capacities(rt: HostRuntime) {
    for &(capacity, bits, below) in CAPACITIES {
        let mut a = ample(rt.alloc());
        let set = set_of(&rt, &mut a, capacity, bits);
        same(&rt, set.capacity(), capacity);
        walks(&rt, &a, &set, below);
        assert!(rt; set.is_held(&a));
        for bit in 0..200 {
            assert!(rt; set.contains(&a, bit) == below.contains(&bit));
        }
        assert!(rt; !set.contains(&a, set.capacity) && !set.contains(&a, u64::MAX));
    }
}

#[test]
fn sets_refused(rt: HostRuntime) {
    let made = BitSet::new_in(1, &mut fixed(&rt, rt.alloc(), 0));
    same(&rt, made.err(), Some(NO_PLACE));
    let made = BitSet::new_in(u64::MAX, &mut limited(rt.alloc(), 20_000));
    same(&rt, made.err(), Some(NO_CHUNK));
}
