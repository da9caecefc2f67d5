// Tests of texts, each of which is linted alone in an arena.
use super::super::reports::reported;
use super::super::{Rt, ample, fixed, same_at, text_of};
use arena_chunks::{Allocator, MemoryChunks};
use arena_lint::{lint_one, lint_text};
use std::str;

// Texts, and the lines of their reports as those of source 0.
const TEXTS: &[(&str, &str)] = &[
    (
        "let a = 1;\n{\nlet a = b;\n}\n",
        "source 0\nundefined b\nshadowed a\n",
    ),
    (
        "let a = a; let a = 2;",
        "source 0\nundefined a\nredefined a\n",
    ),
    ("a + ;", "source 0\nsyntax error at 4\n"),
    ("", "source 0\n"),
    (
        "let a = 1; { let a = 2; let a = 3; }",
        "source 0\nshadowed a\nredefined a\n",
    ),
    ("{ let a = 1; } a;", "source 0\nundefined a\n"),
    ("a; let a = 1; a;", "source 0\nundefined a\n"),
    (
        "(a + b) * -c;",
        "source 0\nundefined a\nundefined b\nundefined c\n",
    ),
    (
        "let a = 18446744073709551616;",
        "source 0\nnumber too big at 8\n",
    ),
    (
        "(((((((((((((((((((((((((((((((((((((((((((((((((((((((((((((((((1",
        "source 0\ntoo deep at 64\n",
    ),
];

// Checks the lines of a text's report in an empty arena.
fn linted(rt: &impl Rt, a: &mut Allocator<MemoryChunks>, text: &str, lines: &str) {
    let text = text.as_bytes();
    assert!(rt; a.used_bytes() == 0 && text.len() <= 1 << 24);
    reported(rt, &lint_one(rt.alloc(), a, text), lines);
    a.reset();
    assert!(rt; a.used_bytes() == 0);
    let (told, refused) = lint_text(rt.alloc(), a, text, 0).ok().expect(rt, "memory");
    same_at(rt, lines, told.as_slice(), lines.as_bytes());
    assert!(rt; !refused);
}

#[test]
fn each_text_on_one_arena(rt: HostRuntime) {
    let mut a = ample(&rt);
    for (text, lines) in TEXTS {
        linted(&rt, &mut a, text, lines);
        a.reset();
    }
}

// In an arena of any size: the text is refused at its end, after most of its tree has a place or the first block has
// none.
#[test]
fn refused_at_its_end_in_any_arena(rt: HostRuntime) {
    for bytes in 0..64 {
        let mut a = fixed(&rt, bytes * 16);
        let wanted = "source 0\nsyntax error at 17\n";
        linted(&rt, &mut a, "let x = a*(b+1-c)", wanted);
    }
}

// The tree has a place in 992 bytes (`trees::placed`), and its names in some more.
#[test]
fn full_below_992_bytes(rt: HostRuntime) {
    let full = "source 0\nfull\n";
    let found = "source 0\nundefined a\nundefined b\nundefined c\n";
    for (bytes, wanted) in [(976, full), (4096, found)] {
        let mut a = fixed(&rt, bytes);
        linted(&rt, &mut a, "let x = a*(b+1-c);", wanted);
    }
}

// Names of 200 bytes, of which two differ in the last one.
#[test]
fn long_names(rt: HostRuntime) {
    let text = text_of(
        &rt,
        &[
            (b"let ", 1),
            (b"abcdefghij", 20),
            (b" = ", 1),
            (b"abcdefghij", 19),
            (b"abcdefghik; { let ", 1),
            (b"abcdefghij", 20),
            (b" = 1; }", 1),
        ],
    );
    let lines = text_of(
        &rt,
        &[
            (b"source 0\nundefined ", 1),
            (b"abcdefghij", 19),
            (b"abcdefghik\nshadowed ", 1),
            (b"abcdefghij", 20),
            (b"\n", 1),
        ],
    );
    let text = str::from_utf8(text.as_slice()).ok().expect(&rt, "a text");
    let lines = str::from_utf8(lines.as_slice()).ok().expect(&rt, "a text");
    linted(&rt, &mut ample(&rt), text, lines);
}
