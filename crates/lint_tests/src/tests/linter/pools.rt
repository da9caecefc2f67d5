// Tests of the lines of reports over pools of both kinds, with few workers and many.
use super::over::tells;
use arena_lint::LintErr;
use arena_pool::PoolKind;
use std::test::*;

/// A source with two findings, and one that isn't a program.
pub const PAIR: &str = "let a = 1;\n{\nlet a = b;\n}\n%%\na + ;\n";

pub const PAIR_LINES: &str = "source 0\nundefined b\nshadowed a\nsource 1\nsyntax error at 4\n";

/// The lines over arenas without room for a block: the program's report is `full`, and the other has its syntax error.
const PAIR_FULL: &str = "source 0\nfull\nsource 1\nsyntax error at 4\n";

const STANDARD: PoolKind = PoolKind::Standard;

const SMALLEST: PoolKind = PoolKind::FixedSize { bytes: 48 };

// The pool's kind, its arenas, the workers, the input, and the lines.
const ROWS: &[(PoolKind, u32, u32, &str, &str)] = &[
    (STANDARD, 1, 1, PAIR, PAIR_LINES),
    (STANDARD, 2, 2, PAIR, PAIR_LINES),
    (STANDARD, 64, 64, PAIR, PAIR_LINES),
    (SMALLEST, 1, 1, PAIR, PAIR_FULL),
    // A statement and its number are in two lists of one node, of 88 bytes each, and the ends take 48.
    (
        PoolKind::FixedSize { bytes: 208 },
        1,
        1,
        "1;",
        "source 0\nfull\n",
    ),
    (PoolKind::FixedSize { bytes: 224 }, 1, 1, "1;", "source 0\n"),
];

#[test]
fn reports_by_few_workers_and_many(rt: HostRuntime) -> Result<(), Fail> {
    for (kind, arenas, workers, input, lines) in ROWS {
        let over = (*kind, *arenas, *workers);
        let (input, lines) = (input.as_bytes(), lines.as_bytes());
        tells(&rt, over, 1 << 20, input, lines)?;
    }
    Ok(())
}

#[test]
fn want_of_memory_says_so(rt: HostRuntime) -> Result<(), Fail> {
    let said = format!(in rt.alloc(); "{}", LintErr::OutOfMemory)?;
    assert_eq!(rt; said.as_str(), "out of memory");
    Ok(())
}
