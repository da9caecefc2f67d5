// The Rust crate's own test cases of copies and of `replace_with`.
use super::checked::{By, Checked, copy, insert, is_list, is_raw_held};
use super::kept::Kept;
use crate::tests::{Memory, ample, same};
use arena_chunks::Str;
use arena_clone::CloneInSemanticIds::{With, Without};
use arena_clone::{CloneIn, ReplaceWith};
use arena_items::BoxSlice;
use arena_vec::Vec;
use std::process::Abort;
use std::rt::HostRuntime;

fn is_slice(rt: &impl Abort, a: &Memory, slice: BoxSlice<u32>, numbers: &[u32]) -> bool {
    assert!(rt; a.is_held_place(slice.block) && slice.block.align == 4);
    assert!(rt; slice.length == numbers.len() as u64);
    assert!(rt; slice.length < 1 << 32);
    assert!(rt; slice.block.size == slice.length * 4);
    for (i, number) in numbers.iter().enumerate() {
        if slice.get(a, i as u64) != *number {
            return false;
        }
    }
    true
}

#[test]
fn copies_of_a_boxed_slice(rt: HostRuntime) {
    let alloc = rt.alloc();
    let mut from = ample(alloc);
    let mut to = ample(alloc);
    let list = Vec::from_array_in([1u32, 2, 3], &mut from).expect(&rt, "a list");
    let original = list.into_boxed_slice();
    let copied = original.clone_in(&from, &mut to).expect(&rt, "a copy");
    let second = original
        .clone_in_with_semantic_ids(&from, &mut to)
        .expect(&rt, "a copy");
    original.set(&mut from, 1, 4);
    assert!(rt; is_slice(&rt, &from, original, &[1, 4, 3]));
    assert!(rt; is_slice(&rt, &to, copied, &[1, 2, 3]) && is_slice(&rt, &to, second, &[1, 2, 3]));
}

#[test]
fn copies_of_an_empty_boxed_slice(rt: HostRuntime) {
    let alloc = rt.alloc();
    let mut a = ample(alloc);
    let list: Vec<u32> = Vec::new_in();
    let original = list.into_boxed_slice();
    let mut to = ample(alloc);
    let copied = original.clone_in(&a, &mut to).expect(&rt, "a copy");
    let second = original
        .clone_in_with_semantic_ids(&a, &mut to)
        .expect(&rt, "a copy");
    a.reset();
    assert!(rt; is_slice(&rt, &to, copied, &[]) && is_slice(&rt, &to, second, &[]));
}

// The calls that copy into another arena.
const BY: &[By] = &[
    By::CloneIn,
    By::CloneInWithSemanticIds,
    By::CloneInImpl(With),
];

// Copies a list by a call and within its arena, and then changes it.
#[test]
fn copies_of_a_list(rt: HostRuntime) {
    for by in BY {
        let (mut from, mut to) = (ample(rt.alloc()), ample(rt.alloc()));
        let mut original = Vec::with_capacity_in(8, &mut from).expect(&rt, "a list");
        assert!(rt; original.extend_from_slice(&mut from, &[1u32, 2, 3]).is_ok());
        let copied = copy(&rt, &original, by, &from, &mut to).expect(&rt, "a copy");
        assert!(rt; <Vec<u32>>::is_small() && Checked::is_held(&original, &from));
        let within = original.clone_within(With, &mut from).expect(&rt, "a copy");
        assert!(rt; is_raw_held(&from, original.raw) && 1 < original.raw.len);
        original.set(&mut from, 1, 4);
        assert!(rt; is_list(&rt, &from, original, &[1, 4, 3]));
        assert!(rt; is_list(&rt, &from, within, &[1, 2, 3]));
        assert!(rt; is_list(&rt, &to, copied, &[1, 2, 3]));
        same(&rt, (copied.capacity(), within.capacity()), (3, 3));
    }
}

#[test]
fn copies_of_an_empty_list(rt: HostRuntime) {
    let from = ample(rt.alloc());
    let mut to = ample(rt.alloc());
    let original: Vec<u32> = Vec::new_in();
    for by in BY {
        let list = copy(&rt, &original, by, &from, &mut to).expect(&rt, "a copy");
        assert!(rt; list.is_empty() && list.capacity() == 0);
    }
}

const PAIRS: &[(&str, &str)] = &[("x", "xx"), ("y", "yy"), ("z", "zz")];

// Checks that a copy has the pairs, in the smallest table for three, and changes it.
fn is_copy(rt: &impl Abort, map: Kept<Str, Str>) {
    let mut map = map;
    same(rt, (map.handle().len(), map.handle().table.slots), (3, 8));
    for (key, value) in PAIRS {
        assert!(rt; map.has_text(rt, key, value));
    }
    map.put_text(rt, "x", "other");
    assert!(rt; map.has_text(rt, "x", "other"));
}

#[test]
fn copies_of_a_map(rt: HostRuntime) {
    let mut original: Kept<Str, Str> = Kept::with_capacity(&rt, rt.alloc(), 8);
    for (key, value) in PAIRS {
        original.put_text(&rt, key, value);
    }
    let copied = original.copied(&rt, Without, rt.alloc());
    let second = original.copied(&rt, With, rt.alloc());
    original.put_text(&rt, "y", "changed");
    is_copy(&rt, copied);
    is_copy(&rt, second);
    assert!(rt; original.handle().len() == 3);
    for (key, value) in &[("x", "xx"), ("y", "changed"), ("z", "zz")] {
        assert!(rt; original.has_text(&rt, key, value));
    }
}

#[test]
fn replacing_a_list(rt: HostRuntime) {
    let mut a = ample(rt.alloc());
    let mut list = Vec::from_array_in([1u32, 2, 3], &mut a).expect(&rt, "a list");
    list.replace_with(|old| old);
    assert!(rt; is_list(&rt, &a, list, &[1, 2, 3]));
    list.replace_with(|old| {
        let mut longer = old;
        insert(&rt, &mut a, &mut longer, 0, 0);
        longer
    });
    assert!(rt; is_list(&rt, &a, list, &[0, 1, 2, 3]));
    list.replace_with(|old| {
        let mut first = old;
        first.truncate(1);
        first
    });
    assert!(rt; is_list(&rt, &a, list, &[0]));
}
