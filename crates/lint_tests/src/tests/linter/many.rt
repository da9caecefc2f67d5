// Tests of many sources with many workers, and of a source of a megabyte.
use super::super::text_of;
use super::over::{ALONE, Over, tells};
use arena_pool::PoolKind;
use std::alloc::Global;
use std::test::*;

// Appends a source to the input, and the lines of its report to the expected lines.
fn put_source(alloc: Global, i: u32, input: &mut Vec<u8>, lines: &mut Vec<u8>) -> Result<(), Fail> {
    lines.extend_from_slice(format!(in alloc; "source {i}\n")?.as_bytes())?;
    if i % 3 == 2 {
        input.extend_from_slice(b"a + ;\n")?;
        lines.extend_from_slice(b"syntax error at 4\n")?;
    } else {
        input.extend_from_slice(format!(in alloc; "let a{i} = b{i};\na{i};\n")?.as_bytes())?;
        lines.extend_from_slice(format!(in alloc; "undefined b{i}\n")?.as_bytes())?;
    }
    Ok(())
}

// Ten thousand sources, every third of which isn't a program, and the lines of their reports.
fn ten_thousand(alloc: Global) -> Result<(Vec<u8>, Vec<u8>), Fail> {
    let mut input = Vec::new(alloc);
    let mut lines = Vec::new(alloc);
    put_source(alloc, 0, &mut input, &mut lines)?;
    for i in 1..10_000 {
        input.extend_from_slice(b"%%\n")?;
        put_source(alloc, i, &mut input, &mut lines)?;
    }
    Ok((input, lines))
}

const POOLS: &[Over] = &[
    (PoolKind::Standard, 64, 64),
    (PoolKind::FixedSize { bytes: 126_976 }, 1, 64),
];

#[test]
fn ten_thousand_sources_by_64_workers(rt: HostRuntime) -> Result<(), Fail> {
    let (input, lines) = ten_thousand(rt.alloc())?;
    for over in POOLS {
        tells(&rt, *over, 1 << 20, &input, &lines)?;
    }
    Ok(())
}

/// A line of 64 bytes.
const LINE: &[u8] = b"{ let name = (b + 1234567890) * 123456789012 - -12345678901;  }\n";

#[test]
fn a_source_of_a_megabyte(rt: HostRuntime) -> Result<(), Fail> {
    let input = text_of(&rt, &[(LINE, 16384)]);
    let lines = text_of(&rt, &[(b"source 0\n", 1), (b"undefined b\n", 16384)]);
    assert!(rt; input.len() == 1 << 20);
    tells(&rt, ALONE, 1 << 30, &input, &lines)
}
