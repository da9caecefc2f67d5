// Tests of trees in arenas: their texts, the refusals of texts that are no programs, and the errors of arenas without
// room.
use super::super::{Parts, ample, fixed, refusing, same_at, text_of};
use super::{SAMPLE, refused_in, shown, stopped_in};
use arena_chunks::Allocator;
use arena_tree::TreeErr::{self, NumberTooBig, Syntax, TooDeep};

/// A text, and the text of its tree.
type Row = (&'static [u8], &'static [u8]);

const PRINTED: &[Row] = &[
    (b"", b""),
    (b"{}", b"{\n}\n"),
    (SAMPLE, b"let x = 1 + 2 * 3 - -y;\n"),
    (b"(a-b)-(c-d);", b"(a - b) - (c - d);\n"),
    (b"a+-b;", b"a - b;\n"),
    (b"-(2*3)*--4*(5*6);", b"-(2 * 3) * --4 * (5 * 6);\n"),
    (
        b"{ {a;} 18446744073709551615; }",
        b"{\n{\na;\n}\n18446744073709551615;\n}\n",
    ),
];

#[test]
fn printed(rt: HostRuntime) {
    for (src, wanted) in PRINTED {
        let out = shown(&rt, src);
        same_at(&rt, *src, out.as_slice(), *wanted);
    }
}

#[test]
fn a_name_of_200_bytes_printed(rt: HostRuntime) {
    let src = text_of(&rt, &[(b"abcdefghij", 20), (b";\n", 1)]);
    let out = shown(&rt, src.as_slice());
    same_at(&rt, src.as_slice(), out.as_slice(), src.as_slice());
}

/// A text in parts, and why it has no tree.
type Refusal = (Parts<'static>, TreeErr);

const REFUSED: &[Refusal] = &[
    (&[(b"(1+2", 1)], Syntax { at: 4 }),
    (&[(b"let let = 1;", 1)], Syntax { at: 4 }),
    (&[(b"(", 65)], TooDeep { at: 64 }),
    (&[(b"-", 65)], TooDeep { at: 64 }),
    (&[(b"{", 64)], Syntax { at: 64 }),
    (&[(b"{", 64), (b"a;(", 1)], TooDeep { at: 66 }),
    (&[(b"18446744073709551616;", 1)], NumberTooBig { at: 0 }),
    (&[(b"a 18446744073709551616;", 1)], Syntax { at: 2 }),
    (&[(b"007;", 1)], Syntax { at: 0 }),
    (&[(b"1a;", 1)], Syntax { at: 1 }),
    (&[(b"a\t;", 1)], Syntax { at: 1 }),
];

#[test]
fn refused_texts(rt: HostRuntime) {
    for (parts, wanted) in REFUSED {
        let src = text_of(&rt, parts);
        let mut a = ample(&rt);
        let found = refused_in(&rt, &mut a, src.as_slice());
        same_at(&rt, *parts, found, Some(*wanted));
        let found = stopped_in(&rt, &mut a, src.as_slice());
        same_at(&rt, *parts, found, Some(*wanted));
    }
}

/// A text, the bytes of an arena, and whether they are enough for its tree. Nodes have 88 bytes, and lists begin at
/// multiples of 8. A list of up to four nodes has just the room for them, and one of five has room for eight. The last
/// two lists of each text have one node each. For the text with names: four names of one byte, the list of a negation
/// up to 96, and those of the sum and of the product up to 360 and 536. The list of nine numbers grows at the cursor.
const SIZES: &[(&[u8], usize, bool)] = &[
    (b"1;", 0, false),
    (b"1;", 160, false),
    (b"1;", 176, true),
    (b"let x = a*(b+1-c);", 704, false),
    (b"let x = a*(b+1-c);", 720, true),
    (b"1+2+3+4;", 512, false),
    (b"1+2+3+4;", 528, true),
    (b"1+2+3+4+5;", 864, false),
    (b"1+2+3+4+5;", 880, true),
    (b"1*1*1*1*1*1*1*1*1;", 1568, false),
    (b"1*1*1*1*1*1*1*1*1;", 1584, true),
];

#[test]
fn small_arenas(rt: HostRuntime) {
    for (src, bytes, enough) in SIZES {
        let mut a = fixed(&rt, *bytes);
        let wanted = (!*enough).then_some(TreeErr::AllocErr { refused: 0 });
        same_at(&rt, *bytes, refused_in(&rt, &mut a, src), wanted);
        let mut a = fixed(&rt, *bytes);
        same_at(&rt, *bytes, stopped_in(&rt, &mut a, src), wanted);
    }
}

// The sum's list of 128 nodes grows in the first chunk, to 11,264 bytes. That of 256 has 22,528 and needs another
// chunk. For each chunk one size is tried: 16,320, and 32,640, whose half is too small.
#[test]
fn refusing_sources(rt: HostRuntime) {
    let src = text_of(&rt, &[(b"1+", 199), (b"1;", 1)]);
    for refused in 1..3 {
        let mut a = Allocator::new(rt.alloc(), refusing(&rt, refused));
        let wanted = Some(TreeErr::AllocErr { refused: 1 });
        same_at(
            &rt,
            refused,
            refused_in(&rt, &mut a, src.as_slice()),
            wanted,
        );
        same_at(&rt, refused, refused_in(&rt, &mut a, src.as_slice()), None);
    }
}
