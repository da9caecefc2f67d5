// Tests of texts in an arena.
use super::{Memory, ample, has, held, layout, same, same_at};
use arena_chunks::{ArenaErr, Block, Str};
use std::convert::AsStr;
use std::process::Abort;
use std::test::Fail;

// Returns the address at which a text was placed. The test fails if the text isn't held or isn't the expected one.
fn address_of(rt: &impl Abort, a: &Memory, text: Result<Str, ArenaErr>, wanted: &str) -> u64 {
    let block = held(rt, a, text.expect(rt, "a text").block);
    same(rt, Str { block }.get(a), Some(wanted));
    block.addr
}

#[test]
fn a_text_lies_below_the_cursor(rt: HostRuntime) {
    let mut a = ample(rt.alloc());
    for (text, addr) in [("hello", 20411), ("", 20411), ("é", 20409)] {
        let placed = a.alloc_str(text);
        same(&rt, address_of(&rt, &a, placed, text), addr);
    }
    let block = a.alloc_layout(layout(&rt, 2, 1)).expect(&rt, "a block");
    a.write(block, 0, &[0xc3, 0x28]);
    let block = held(&rt, &a, block);
    same(&rt, Str { block }.get(&a), None);
    has(&rt, "afterwards", &a, 9, (4, 0));
}

// Joins texts, and checks the result and its address.
fn joins<T: AsStr + Drop, const N: usize>(
    rt: &impl Abort,
    a: &mut Memory,
    texts: [T; N],
    wanted: &str,
    addr: u64,
) {
    let joined = a.alloc_concat_strs_array(texts);
    same_at(rt, wanted, address_of(rt, a, joined, wanted), addr);
}

#[test]
fn texts_that_are_joined(rt: HostRuntime) -> Result<(), Fail> {
    let mut a = ample(rt.alloc());
    let texts: [&str; 0] = [];
    joins(&rt, &mut a, texts, "", 1);
    let empty = a
        .alloc_concat_strs_array(["", "", ""])
        .expect(&rt, "a text");
    same(&rt, empty.block, Block::empty(1));
    same(&rt, a.capacity(), 0);
    joins(&rt, &mut a, ["hello"], "hello", 20411);
    joins(&rt, &mut a, ["hello", "world!"], "helloworld!", 20400);
    let world = "world".to_string(rt.alloc())?;
    joins(&rt, &mut a, ["hello", &world, "!"], "helloworld!", 20389);
    Ok(())
}

#[test]
fn a_text_between_empty_ones(rt: HostRuntime) {
    let mut a = ample(rt.alloc());
    joins(&rt, &mut a, ["", "hello", ""], "hello", 20411);
}
