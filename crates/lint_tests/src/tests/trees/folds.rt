// Tests of folded trees: the number of folded nodes, and the text after that.
use super::super::{Parts, Rt, text_of};
use super::{SAMPLE, shown_folded};

/// A text, the number of its nodes that are folded, and the text of its tree after that.
type Row = (&'static [u8], u64, &'static [u8]);

const FOLDED: &[Row] = &[
    (SAMPLE, 2, b"let x = 1 + 6 + y;\n"),
    (b"18446744073709551614+1;", 1, b"18446744073709551615;\n"),
    (
        b"18446744073709551615+1;",
        0,
        b"18446744073709551615 + 1;\n",
    ),
    (b"3*6148914691236517205;", 1, b"18446744073709551615;\n"),
    (b"2*9223372036854775808;", 0, b"2 * 9223372036854775808;\n"),
    (b"18446744073709551615*2*0;", 1, b"0;\n"),
    (b"---y;", 1, b"-y;\n"),
    (b"1-1;", 0, b"1 - 1;\n"),
    (b"2*(1+2)*3;", 2, b"18;\n"),
    (b"a-(-(1+2));", 2, b"a + 3;\n"),
    (
        b"{ 1+2; {let a = -(-(3));} }",
        2,
        b"{\n3;\n{\nlet a = 3;\n}\n}\n",
    ),
];

fn folded(rt: &impl Rt, src: &[u8], count: u64, wanted: &[u8]) {
    let (out, folds) = shown_folded(rt, src);
    assert!(rt; folds == count && out.as_slice() == wanted);
}

#[test]
fn rows(rt: HostRuntime) {
    for (src, count, wanted) in FOLDED {
        folded(&rt, src, *count, wanted);
    }
}

/// A long text in parts, the number of its nodes that are folded, and the text of its tree after that.
type Long = (Parts<'static>, u64, Parts<'static>);

// A million ones, of which one node is folded; and 64 nested openings of each kind. Parentheses have no node, and two
// signs are folded into none.
const LONG: &[Long] = &[
    (&[(b"1+", 999_999), (b"1;", 1)], 1, &[(b"1000000;\n", 1)]),
    (&[(b"-", 64), (b"1;", 1)], 32, &[(b"1;\n", 1)]),
    (&[(b"{", 64), (b"}", 64)], 0, &[(b"{\n", 64), (b"}\n", 64)]),
    (
        &[(b"1-(", 64), (b"1-1", 1), (b")", 64), (b";", 1)],
        0,
        &[(b"1 - (", 64), (b"1 - 1", 1), (b")", 64), (b";\n", 1)],
    ),
];

#[test]
fn long_texts(rt: HostRuntime) {
    for (parts, count, parts_then) in LONG {
        let src = text_of(&rt, parts);
        let wanted = text_of(&rt, parts_then);
        folded(&rt, src.as_slice(), *count, wanted.as_slice());
    }
}
