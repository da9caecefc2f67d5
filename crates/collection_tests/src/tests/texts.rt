// Tests of texts by their bytes and capacity after each call. The values are worked examples of the rules, and the
// Rust crate's examples; a row's bytes are those of the text that the compiler makes.
use self::Make::*;
use super::{Memory, NO_CHUNK, NO_PLACE, ample, fixed, limited, same, same_at};
use arena_items::{AllocError, Grown};
use arena_text::StringBuilder;
use std::process::Abort;

// A call that makes a text.
#[derive(Drop)]
pub(super) enum Make {
    Empty,
    Room(u64),
    Text(&'static str),
    Two(&'static str, &'static str),
    Five(&'static str, &'static str, &'static str, &'static str, &'static str),
}

// One call on a text.
#[derive(Drop)]
enum Step {
    // Begins with an empty text.
    New,
    Bytes(&'static [u8]),
    Text(&'static str),
    End(u8),
    Ascii(u8),
    Start(u8),
    AsciiStart(u8),
    Times(u8, u64),
    Char(char),
    Room(u64),
    // An index, and the byte there.
    Set(u64, u8),
}

fn take(rt: &impl Abort, a: &mut Memory, text: &mut StringBuilder, step: &Step) -> Grown<()> {
    assert!(rt; text.is_held(a));
    match step {
        Step::New => {
            *text = StringBuilder::new_in();
            Ok(())
        }
        Step::Bytes(bytes) => text.push_bytes_unchecked(a, bytes),
        Step::Text(s) => text.push_str(a, s),
        Step::End(byte) => text.push_byte_unchecked(a, *byte),
        Step::Start(byte) => text.push_byte_start_unchecked(a, *byte),
        Step::Char(c) => text.push(a, *c),
        Step::Room(n) => text.reserve(a, *n),
        Step::Set(i, byte) => {
            assert!(rt; *i < text.len());
            text.set_byte(a, *i, *byte);
            Ok(())
        }
        Step::Ascii(byte) => {
            assert!(rt; *byte < 128);
            text.push_ascii_byte(a, *byte)
        }
        Step::AsciiStart(byte) => {
            assert!(rt; *byte < 128);
            text.push_ascii_byte_start(a, *byte)
        }
        Step::Times(byte, n) => {
            assert!(rt; *byte < 128);
            text.push_ascii_byte_repeat(a, *byte, *n)
        }
    }
}

// Checks the bytes and the capacity of a text.
pub(super) fn has(rt: &impl Abort, a: &Memory, text: StringBuilder, bytes: &[u8], cap: u64) {
    assert!(rt; text.is_held(a));
    same(rt, text.as_bytes(a), bytes);
    same(rt, (text.len(), text.capacity()), (bytes.len() as u64, cap));
    same(rt, text.is_empty(), bytes.is_empty());
}

pub(super) fn text_of(a: &mut Memory, how: &Make) -> Grown<StringBuilder> {
    match how {
        Empty => Ok(StringBuilder::new_in()),
        Room(n) => StringBuilder::with_capacity_in(*n, a),
        Text(s) => StringBuilder::from_str_in(s, a),
        Two(one, two) => StringBuilder::from_strs_array_in([*one, *two], a),
        Five(one, two, three, four, five) => {
            StringBuilder::from_strs_array_in([*one, *two, *three, *four, *five], a)
        }
    }
}

// A step, and the bytes and the capacity after it.
type Row = (Step, &'static str, u64);

// Takes a step, and checks its result, and the bytes and the capacity after it.
fn takes(rt: &impl Abort, a: &mut Memory, text: &mut StringBuilder, row: &Row, wanted: Grown<()>) {
    let (step, bytes, cap) = row;
    same_at(rt, *bytes, take(rt, a, text, step), wanted);
    has(rt, a, *text, bytes.as_bytes(), *cap);
}

// How a text is made, its bytes and its capacity.
const MADE: &[(Make, &str, u64)] = &[
    (Empty, "", 0),
    (Room(3), "", 3),
    (Room(10), "", 10),
    (Text("ab"), "ab", 2),
    (Text("foo"), "foo", 3),
    (Two("a", "b"), "ab", 2),
    (Two("", ""), "", 0),
    (Five("hello", " ", "world", "!", ""), "hello world!", 12),
];

#[test]
fn made(rt: HostRuntime) {
    let mut a = ample(rt.alloc());
    for (how, bytes, cap) in MADE {
        let text = text_of(&mut a, how).expect(&rt, "a text");
        has(&rt, &a, text, bytes.as_bytes(), *cap);
        assert!(rt; text.is_held(&a));
        assert!(rt; text.eq_str(&a, bytes) && !text.eq_str(&a, "other"));
    }
}

const BUILT: &[Row] = &[
    (Step::New, "", 0),
    (Step::Text("hé"), "hé", 8),
    (Step::Times(46, 6), "hé......", 16),
    (Step::AsciiStart(33), "!hé......", 16),
    (Step::New, "", 0),
    (Step::Text("foo"), "foo", 8),
    (Step::Char('b'), "foob", 8),
    (Step::Text("ar"), "foobar", 8),
    (Step::Ascii(b'!'), "foobar!", 8),
    (Step::New, "", 0),
    (Step::Text("hello"), "hello", 8),
    (Step::Times(b'!', 3), "hello!!!", 8),
    (Step::Set(0, b'j'), "jello!!!", 8),
    (Step::New, "", 0),
    (Step::Room(3), "", 8),
    (Step::Start(b'b'), "b", 8),
    (Step::AsciiStart(b'a'), "ab", 8),
    (Step::Bytes(b"ab"), "abab", 8),
    (Step::End(b'a'), "ababa", 8),
    (Step::Ascii(b'b'), "ababab", 8),
    (Step::Room(2), "ababab", 8),
    (Step::Room(3), "ababab", 16),
    (Step::Room(20), "ababab", 36),
    // The first and last characters of two, three and four bytes.
    (Step::New, "", 0),
    (Step::Char('\u{80}'), "\u{80}", 8),
    (Step::Char('\u{7ff}'), "\u{80}\u{7ff}", 8),
    (Step::Char('\u{800}'), "\u{80}\u{7ff}\u{800}", 8),
    (Step::New, "", 0),
    (Step::Char('\u{ffff}'), "\u{ffff}", 8),
    (Step::Char('\u{10000}'), "\u{ffff}\u{10000}", 8),
    (Step::Char('\u{10ffff}'), "\u{ffff}\u{10000}\u{10ffff}", 16),
];

#[test]
fn built(rt: HostRuntime) {
    let mut a = ample(rt.alloc());
    let mut text = StringBuilder::new_in();
    for row in BUILT {
        takes(&rt, &mut a, &mut text, row, Ok(()));
    }
}

// A capacity, and a number of bytes after three, for which there is no room, and the error.
const NO_ROOM: &[(u64, u64, AllocError)] = &[
    (1 << 63, (1 << 63) - 3, AllocError::CapacityOverflow),
    ((1 << 63) - 1, (1 << 63) - 4, NO_PLACE),
    (1 << 21, 1 << 21, NO_CHUNK),
];

// Checks that no text with this capacity is made, and that one of three bytes doesn't get room for `more`.
fn stays(rt: &impl Abort, a: &mut Memory, room: u64, more: u64, why: AllocError) {
    same(rt, text_of(a, &Room(room)).err(), Some(why));
    let mut text = text_of(a, &Text("abc")).expect(rt, "room");
    takes(rt, a, &mut text, &(Step::Room(more), "abc", 3), Err(why));
}

// A capacity of 17 bytes has no place in 16.
#[test]
fn not_made_and_not_grown(rt: HostRuntime) {
    for (room, more, why) in NO_ROOM {
        stays(&rt, &mut limited(rt.alloc(), 1 << 20), *room, *more, *why);
    }
    stays(&rt, &mut fixed(&rt, rt.alloc(), 16), 17, 14, NO_PLACE);
}
