// Values whose handles are checked, at every depth, before they are used.
ghost use Rattle.std.specs.Prelude.{◌≤◌, ◌^◌, IsTrue};
ghost use Rattle.arena_vec.specs.Held.{IsRawIn};

use crate::tests::Memory;
use arena_chunks::Str;
use arena_clone::{CloneIn, CloneInSemanticIds, Grown};
use arena_items::{Box, Item};
use arena_vec::{RawVec, Vec};
use example_blocks::get_checked;
use std::process::Abort;

pub trait Checked: CloneIn {
    // Whether the types at every depth are small.
    fn is_small() -> bool
        ensures { IsTrue result → Self.kind.is_small };

    // Whether the handles are well formed and readable.
    fn is_held(&self, a: &Memory) -> bool
        ensures { IsTrue result → Self.kind.is_held a.now.memory self.now };
}

impl Checked for u32 {
    fn is_small() -> bool {
        true
    }

    fn is_held(&self, _a: &Memory) -> bool {
        true
    }
}

impl Checked for Str {
    fn is_small() -> bool {
        true
    }

    fn is_held(&self, a: &Memory) -> bool {
        a.is_held_place(self.block)
    }
}

impl<T: Checked> Checked for Option<T> {
    fn is_small() -> bool {
        T::is_small()
    }

    fn is_held(&self, a: &Memory) -> bool {
        match self {
            Some(value) => value.is_held(a),
            None => true,
        }
    }
}

impl<T: Checked + Item> Checked for Box<T> {
    fn is_small() -> bool {
        T::SIZE <= 1 << 24 && T::is_small()
    }

    fn is_held(&self, a: &Memory) -> bool {
        if T::SIZE > 1 << 24 {
            return false;
        }
        match get_checked(a, *self) {
            Some(value) => value.is_held(a),
            None => false,
        }
    }
}

impl<T: Checked + Item> Checked for Vec<T> {
    fn is_small() -> bool {
        T::SIZE <= 1 << 24 && T::is_small()
    }

    fn is_held(&self, a: &Memory) -> bool {
        if T::SIZE > 1 << 24 || !is_raw_held(a, self.raw) {
            return false;
        }
        for i in 0..self.raw.len {
            if !self.get(a, i).is_held(a) {
                return false;
            }
        }
        true
    }
}

// Whether a vector's storage is readable.
pub fn is_raw_held<T: Item>(a: &Memory, raw: RawVec<T>) -> bool
    requires { T.SIZE ≤ 2 ^ 24 }
    ensures { IsTrue result → IsRawIn T.Item a.now.memory raw }
{
    a.is_held_place(raw.block)
        && raw.block.align == T::ALIGN
        && raw.block.size == raw.cap as u64 * T::SIZE
        && raw.len <= raw.cap
        && (T::SIZE > 0 || raw.cap == u32::MAX)
}

pub fn read<T: Item>(rt: &impl Abort, a: &Memory, b: Box<T>) -> T {
    assert!(rt; T::SIZE <= 1 << 24);
    get_checked(a, b).expect(rt, "a box that is held")
}

pub fn is_list(rt: &impl Abort, a: &Memory, list: Vec<u32>, values: &[u32]) -> bool {
    assert!(rt; is_raw_held(a, list.raw));
    list.eq_slice(a, values)
}

// Inserts a value in a list, before the one at the index.
pub fn insert<T: Item>(rt: &impl Abort, a: &mut Memory, list: &mut Vec<T>, i: u32, value: T) {
    assert!(rt; T::SIZE <= 1 << 24);
    assert!(rt; is_raw_held(a, list.raw));
    assert!(rt; i <= list.raw.len);
    list.insert(a, i, value).expect(rt, "room");
}

// A call that makes a copy in another arena.
#[derive(Drop)]
pub enum By {
    CloneIn,
    CloneInWithSemanticIds,
    CloneInImpl(CloneInSemanticIds),
}

// Copies a value into another arena.
pub fn copy<T: Checked>(
    rt: &impl Abort,
    value: &T,
    by: &By,
    from: &Memory,
    to: &mut Memory,
) -> Grown<T> {
    assert!(rt; T::is_small() && value.is_held(from));
    match by {
        By::CloneIn => value.clone_in(from, to),
        By::CloneInWithSemanticIds => value.clone_in_with_semantic_ids(from, to),
        By::CloneInImpl(ids) => value.clone_in_impl(*ids, from, to),
    }
}
