// Tests of the engine: on the tables of the rules in an arena that grows, and in small arenas that don't grow, where a
// script is served as far as there is room for its blocks, even if it costs more.
ghost use Rattle.std.specs.Prelude.{◌≡◌, IfOk};
ghost use Rattle.arena_rules.specs.State.{used_bytes};

use super::tables::{A_LIST_AND_A_TEXT, TABLES};
use super::{script_of, told};
use crate::tests::holds;
use arena_chunks::{Allocator, MemoryChunks};
use arena_rules::OutOfMemory;
use arena_script::run_script;
use script_rules::Ended;
use std::alloc::Global;
use std::test::Fail;

#[test]
fn each_table_is_served_in_an_arena_that_grows(rt: HostRuntime) -> Result<(), Fail> {
    let alloc = rt.alloc();
    for table in TABLES {
        let script = script_of(alloc, table.script)?;
        let mut a = Allocator::new(alloc, MemoryChunks::new(alloc, 1 << 20));
        let outcome = run_script(alloc, &mut a, &script);
        holds(&rt, outcome.ended == Ended::Done, table.script);
        told(&rt, alloc, table, outcome.replies)?;
    }
    Ok(())
}

// The bytes that a script uses of an arena that grows: at least the 9 that its objects need, and at most the 84 that
// it costs (`worked`).
#[test]
fn a_list_and_a_text_use_16_bytes(rt: HostRuntime) -> Result<(), Fail> {
    let alloc = rt.alloc();
    let script = script_of(alloc, A_LIST_AND_A_TEXT.script)?;
    let mut a = Allocator::new(alloc, MemoryChunks::new(alloc, 1 << 20));
    let outcome = run_script(alloc, &mut a, &script);
    holds(&rt, outcome.used == 16, "16 bytes");
    Ok(())
}

// An arena of `step` times 16 bytes that doesn't grow.
fn fixed(alloc: Global, step: u16) -> Result<Allocator<MemoryChunks>, OutOfMemory>
    ensures { IfOk result (λ a. used_bytes a.memory.state ≡ 0) }
{
    let region = vec![in alloc; 0u8; 16 * (step as usize + 3)]?;
    let made = Allocator::from_raw_parts(alloc, region, MemoryChunks::new(alloc, 0));
    let a = made.map_err(|_| OutOfMemory)?;
    if a.used_bytes() != 0 {
        return Err(OutOfMemory);
    }
    Ok(a)
}

// A script, the least number of steps of 16 bytes in which it ends `done`, and the number of its commands that are
// served with one step less. A first push takes 4 bytes, a first pair 144, and a copy of one pair 72.
type Row = (&'static str, u16, usize);

const ROWS: &[Row] = &[
    ("script\nbits 0 256\ncopy 0 1\n", 4, 1),
    ("script\nvalue 0 1\nvalue 1 2\n", 1, 0),
    (
        "script\nlist 0\npush 0 1\ncopy 0 1\ncopy 0 2\ncopy 0 3\ncopy 0 4\n",
        2,
        5,
    ),
    (
        "script\ntext 0\nappend 0 4142434445464748494a4b4c4d4e4f5051\n",
        2,
        1,
    ),
    ("script\nmap 0\nbind 0 1 1\ncopy 0 1\n", 14, 2),
    // A list grows where it is while it is the last block: 4, 8 and 16 bytes. Behind a value it gets a new block.
    (
        "script\nlist 0\npush 0 1\npush 0 2\npush 0 3\npush 0 4\n",
        1,
        1,
    ),
    ("script\nlist 0\npush 0 1\nvalue 1 5\npush 0 2\n", 2, 3),
    // So does a text: 8 bytes, and 16 with one more.
    (
        "script\ntext 0\nappend 0 4142434445464748\nbyte 0 73\n",
        1,
        1,
    ),
    // The ninth pair of a map needs a second table, of 288 bytes, beside the first of 144.
    (
        "script\nmap 0\nbind 0 1 1\nbind 0 2 1\nbind 0 3 1\nbind 0 4 1\nbind 0 5 1\nbind 0 6 1\nbind 0 7 1\nbind 0 8 1\nbind 0 9 1\n",
        27,
        9,
    ),
];

#[test]
fn a_script_is_served_where_its_blocks_have_place(rt: HostRuntime) -> Result<(), Fail> {
    let alloc = rt.alloc();
    for (text, steps, served) in ROWS {
        let script = script_of(alloc, text)?;
        let (all, fewer) = (script.as_slice().len(), steps.saturating_sub(1));
        for (steps, ended, served) in [(*steps, Ended::Done, all), (fewer, Ended::Full, *served)] {
            let outcome = run_script(alloc, &mut fixed(alloc, steps)?, &script);
            holds(&rt, outcome.ended == ended, text);
            holds(&rt, outcome.replies.as_slice().len() == served, text);
        }
    }
    Ok(())
}
