// Tests of sources on arenas that don't get their chunks, among others.
use super::super::{Parts, text_of};
use super::over::tells;
use arena_pool::PoolKind;
use std::test::*;

// A source of 2,000 statements, for which a first chunk isn't enough; one that isn't a program; an empty one, which
// takes no block; and one of two statements.
const INPUT: Parts<'static> = &[
    (b"1;\n{}\n", 1000),
    (b"b;\n%%\na + ;\n%%\n%%\nlet a = a; let a = 2;\n", 1),
];

const REPORTS: &str = "\
source 0\nundefined b\nsource 1\nsyntax error at 4\nsource 2\nsource 3\nundefined a\nredefined a\n";

const FIRST_REFUSED: &str = "\
source 0\nrefused\nsource 1\nsyntax error at 4\nsource 2\nsource 3\nundefined a\nredefined a\n";

const BOTH_REFUSED: &str =
    "source 0\nrefused\nsource 1\nsyntax error at 4\nsource 2\nsource 3\nrefused\n";

// Source 0 requests six chunks: the list of its statements, of 88 bytes each, doubles, and for that of 128, 256, 512,
// 1,024 and 2,048 there is no room in the newest chunk. For a first chunk one size is tried, 16,320. For each other
// there are two: twice the newest chunk's size, rounded to whole pages, and half of that, which is enough for the
// list too. So if all requests are granted, the six chunks have 16,320 bytes, 32,704, 65,472, 131,008, 262,080 and
// 524,224. Source 3 requests one chunk.

// The budget of each arena's source, the workers, and the lines. A budget of 769,664 bytes is enough for six chunks, of
// which the last has 262,080 bytes then.
const BUDGETS: &[(u64, u32, &str)] = &[
    (0, 64, BOTH_REFUSED),
    (769_663, 1, FIRST_REFUSED),
    (769_664, 1, REPORTS),
];

#[test]
fn budgets(rt: HostRuntime) -> Result<(), Fail> {
    let input = text_of(&rt, INPUT);
    for (budget, workers, lines) in BUDGETS {
        let over = (PoolKind::Standard, 1, *workers);
        tells(&rt, over, *budget, &input, lines.as_bytes())?;
    }
    Ok(())
}
