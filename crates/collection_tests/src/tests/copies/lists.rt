// Tests of copies of an id, a text and a set, and of a list for which there may be no room; of conversions, dummies
// and exchange.
use super::checked::{By, copy, insert, is_list, read};
use crate::tests::texts::{Make, has, text_of};
use crate::tests::{NO_CHUNK, NO_PLACE, ample, bits, fixed, limited, same, same_at};
use arena_chunks::Str;
use arena_clone::CloneInSemanticIds::{With, Without};
use arena_clone::{CloneIn, Dummy, FromIn, IntoIn, SemanticId, TakeIn};
use arena_items::Box;
use arena_vec::Vec;
use std::rt::HostRuntime;

#[test]
fn an_id(rt: HostRuntime) {
    let from = ample(rt.alloc());
    let mut to = ample(rt.alloc());
    let id = SemanticId(9);
    assert!(rt; id.clone_in(&from, &mut to) == Ok(SemanticId(0)));
    assert!(rt; id.clone_in_with_semantic_ids(&from, &mut to) == Ok(id));
    // The discriminants of the two variants in the Rust crate.
    same(&rt, (With as u32, Without as u32), (0, u32::MAX));
}

#[test]
fn a_text(rt: HostRuntime) {
    let mut from = ample(rt.alloc());
    let mut to = ample(rt.alloc());
    let text = text_of(&mut from, &Make::Text("ab")).expect(&rt, "a text");
    assert!(rt; text.is_held(&from));
    let copied = text.clone_in(&from, &mut to).expect(&rt, "a copy");
    has(&rt, &to, copied, b"ab", 2);
}

#[test]
fn a_set(rt: HostRuntime) {
    let mut from = ample(rt.alloc());
    let mut to = ample(rt.alloc());
    let mut set = bits::set_of(&rt, &mut from, 65, &[64]);
    assert!(rt; set.is_held(&from));
    let copied = set.clone_in(&from, &mut to).expect(&rt, "a copy");
    bits::take(&rt, &mut from, &mut set, &bits::Step::Unset(64));
    bits::walks(&rt, &from, &set, &[]);
    bits::walks(&rt, &to, &copied, &[64]);
    same(&rt, copied.capacity(), 65);
}

type Boxes = Vec<Option<Box<u32>>>;

// The bytes of an arena, and the error of a copy into it. The copy takes 84 bytes: 40 for each of the two values, and
// 4 for the box. So there is no place for the first block, or for the second one.
#[test]
fn a_list_of_boxes(rt: HostRuntime) {
    let alloc = rt.alloc();
    let mut from = ample(alloc);
    let boxed: Option<Box<u32>> = Some(5u32).into_in(&mut from).expect(&rt, "a box");
    let mut list: Boxes = Vec::new_in();
    insert(&rt, &mut from, &mut list, 0, boxed);
    insert(&rt, &mut from, &mut list, 1, None);
    for (bytes, wanted) in [(0, Some(NO_PLACE)), (80, Some(NO_PLACE)), (96, None)] {
        let mut to = fixed(&rt, alloc, bytes);
        let copied = copy(&rt, &list, &By::CloneIn, &from, &mut to);
        same_at(&rt, bytes, copied.err(), wanted);
    }
    let copied = copy(&rt, &list, &By::CloneIn, &from, &mut limited(alloc, 0));
    same(&rt, copied.err(), Some(NO_CHUNK));
}

#[test]
fn a_value_in_a_box(rt: HostRuntime) {
    let mut a = ample(rt.alloc());
    let boxed = <Option<Box<u32>>>::from_in(Some(5u32), &mut a).expect(&rt, "a box");
    same(&rt, read(&rt, &a, boxed.expect(&rt, "some")), 5);
    let boxed: Box<u32> = Box::from_in(3u32, &mut a).expect(&rt, "a box");
    same(&rt, read(&rt, &a, boxed), 3);
}

#[test]
fn conversions(rt: HostRuntime) {
    let alloc = rt.alloc();
    let mut a = ample(alloc);
    let list: Vec<u32> = [1u32, 2, 3].into_in(&mut a).expect(&rt, "a list");
    assert!(rt; is_list(&rt, &a, list, &[1, 2, 3]) && list.capacity() == 3);
    same(&rt, u32::from_in(3, &mut a), Ok(3));
    let text = String::from_str(alloc, "ab").expect(&rt, "a text");
    let text = Str::from_in(text, &mut a).expect(&rt, "a text");
    assert!(rt; text.get(&a) == Some("ab"));
}

#[test]
fn a_dummy(rt: HostRuntime) {
    let mut a = ample(rt.alloc());
    let dummy: Box<u8> = Box::dummy(&mut a).expect(&rt, "a dummy");
    same(&rt, read(&rt, &a, dummy), 0);
}

#[test]
fn exchange(rt: HostRuntime) {
    let mut a = ample(rt.alloc());
    let mut seven = Vec::from_value_in(7u32, &mut a).expect(&rt, "a list");
    let taken = seven.take_in(&mut a).expect(&rt, "the list");
    assert!(rt; is_list(&rt, &a, taken, &[7]) && seven.is_empty());
    let mut list = Vec::from_array_in([1u32, 2, 3], &mut a).expect(&rt, "a list");
    let in_box = list.take_in_box(&mut a).expect(&rt, "the list");
    assert!(rt; is_list(&rt, &a, read(&rt, &a, in_box), &[1, 2, 3]) && list.is_empty());
}
