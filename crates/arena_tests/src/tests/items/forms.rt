// Tests of the byte forms of values: the least and the greatest of some types, options, pairs and handles, and bytes that
// aren't the form of a value.
use crate::tests::{must, same};
use arena_chunks::{Block, Str};
use arena_items::Item;
use std::num::{NonZeroI128, NonZeroU32};
use std::process::Abort;

// Checks that the value is written as these bytes and is read from them.
fn has_form<T: Item + PartialEq>(rt: &impl Abort, value: T, form: &[u8]) {
    assert!(rt; form.len() as u64 == T::SIZE);
    assert!(rt; T::SIZE <= 48);
    let mut out = [9; 48];
    value.encode(&mut out[..form.len()]);
    same(rt, &out[..form.len()], form);
    must(rt, form, T::decode(form) == value);
}

// Checks the size and the alignment of a type, and the byte form of each value.
fn forms<T: Item + PartialEq>(rt: &impl Abort, layout: (u64, u64), rows: &[(T, &[u8])]) {
    same(rt, (T::SIZE, T::ALIGN), layout);
    for (value, form) in rows {
        has_form(rt, *value, form);
    }
}

// Checks which values are read from bytes that aren't the form of a value.
fn reads<T: Item + PartialEq>(rt: &impl Abort, rows: &[(&[u8], T)]) {
    assert!(rt; T::SIZE <= 48);
    for (n, row) in rows.iter().enumerate() {
        let (form, value) = *row;
        assert!(rt; form.len() as u64 == T::SIZE);
        must(rt, n, T::decode(form) == value);
    }
}

// The numbers 1 to 16.
const UP: &[u8] = &[1, 2, 3, 4, 5, 6, 7, 8, 9, 10, 11, 12, 13, 14, 15, 16];

// The least and the greatest signed number of 128 bits.
const LEAST: &[u8] = &[0, 0, 0, 0, 0, 0, 0, 0, 0, 0, 0, 0, 0, 0, 0, 128];

const GREATEST: &[u8] = &[
    255, 255, 255, 255, 255, 255, 255, 255, 255, 255, 255, 255, 255, 255, 255, 127,
];

const U32S: &[(u32, &[u8])] = &[(123, &[0x7b, 0, 0, 0]), (u32::MAX, &[255; 4])];

const U128S: &[(u128, &[u8])] = &[
    (0x100f_0e0d_0c0b_0a09_0807_0605_0403_0201, UP),
    (u128::MAX, &[255; 16]),
];

#[test]
fn numbers(rt: HostRuntime) {
    forms(&rt, (4, 4), U32S);
    forms(&rt, (16, 16), U128S);
    has_form(&rt, i8::MIN, &[128]);
    has_form::<i8>(&rt, -2, &[254]);
    has_form(&rt, i8::MAX, &[127]);
    has_form(&rt, i128::MIN, LEAST);
    has_form(&rt, i128::MAX, GREATEST);
}

// As the least number, 0 is read too.
#[test]
fn non_zero(rt: HostRuntime) {
    has_form(&rt, NonZeroU32::MIN, &[1, 0, 0, 0]);
    has_form(&rt, NonZeroU32::MAX, &[255; 4]);
    reads(&rt, &[(&[0; 4], NonZeroU32::MIN)]);
    has_form(&rt, NonZeroI128::MIN, LEAST);
    has_form(&rt, NonZeroI128::MAX, GREATEST);
    reads(&rt, &[(&[0; 16], NonZeroI128::MIN)]);
}

const CHARS: &[(char, &[u8])] = &[
    ('\0', &[0; 4]),
    ('\u{e9}', &[0xe9, 0, 0, 0]),
    ('\u{D7FF}', &[255, 0xd7, 0, 0]),
    ('\u{E000}', &[0, 0xe0, 0, 0]),
    ('\u{10FFFF}', &[255, 255, 16, 0]),
];

const NO_CHARS: &[(&[u8], char)] = &[
    (&[0, 0xd8, 0, 0], '\0'),
    (&[255, 0xdf, 0, 0], '\0'),
    (&[0, 0, 17, 0], '\0'),
];

// Any byte other than 0 is read as true.
#[test]
fn plain(rt: HostRuntime) {
    forms(&rt, (1, 1), &[(false, &[0]), (true, &[1])]);
    reads(&rt, &[(&[2], true), (&[255], true)]);
    forms::<()>(&rt, (0, 1), &[((), &[])]);
    forms(&rt, (4, 4), CHARS);
    reads(&rt, NO_CHARS);
}

const OPTIONS_OF_U32: &[(Option<u32>, &[u8])] = &[
    (None, &[0; 8]),
    (Some(5), &[1, 0, 0, 0, 5, 0, 0, 0]),
];

const OPTIONS_OF_OPTIONS: &[(Option<Option<u16>>, &[u8])] = &[
    (None, &[0; 6]),
    (Some(None), &[1, 0, 0, 0, 0, 0]),
    (Some(Some(0x0201)), &[1, 0, 1, 0, 1, 2]),
];

// Any tag other than 0 is read as `Some`, and padding isn't read.
const PADDED_OPTIONS: &[(&[u8], Option<u32>)] = &[
    (&[7, 9, 9, 9, 1, 2, 3, 4], Some(0x0403_0201)),
    (&[0, 1, 1, 1, 1, 1, 1, 1], None),
];

#[test]
fn options(rt: HostRuntime) {
    forms(&rt, (8, 4), OPTIONS_OF_U32);
    forms(&rt, (6, 2), OPTIONS_OF_OPTIONS);
    forms(&rt, (1, 1), &[(None, &[0]), (Some(()), &[1])]);
    reads(&rt, PADDED_OPTIONS);
}

const BYTE_FIRST: &[((u8, u32), &[u8])] = &[
    ((1, 2), &[1, 0, 0, 0, 2, 0, 0, 0]),
    ((255, u32::MAX), &[255, 0, 0, 0, 255, 255, 255, 255]),
];

const BYTE_LAST: &[((u32, u8), &[u8])] = &[((0x0403_0201, 5), &[1, 2, 3, 4, 5, 0, 0, 0])];

// The padding is written as zeros, and isn't read.
const WIDE: &[((u64, (u8, u128)), &[u8])] = &[(
    (
        0x0807_0605_0403_0201,
        (5, 0x100f_0e0d_0c0b_0a09_0807_0605_0403_0201),
    ),
    &[
        1, 2, 3, 4, 5, 6, 7, 8, 0, 0, 0, 0, 0, 0, 0, 0, 5, 0, 0, 0, 0, 0, 0, 0, 0, 0, 0, 0, 0, 0,
        0, 0, 1, 2, 3, 4, 5, 6, 7, 8, 9, 10, 11, 12, 13, 14, 15, 16,
    ],
)];

#[test]
fn pairs(rt: HostRuntime) {
    forms(&rt, (8, 4), BYTE_FIRST);
    forms(&rt, (8, 4), BYTE_LAST);
    forms::<((), ())>(&rt, (0, 1), &[(((), ()), &[])]);
    forms(&rt, (48, 16), WIDE);
    reads(&rt, &[(&[1, 9, 9, 9, 2, 0, 0, 0], (1u8, 2u32))]);
}

// The numbers 1 to 32, and the block whose form they are.
const FORM: &[u8] = &[
    1, 2, 3, 4, 5, 6, 7, 8, 9, 10, 11, 12, 13, 14, 15, 16, 17, 18, 19, 20, 21, 22, 23, 24, 25, 26,
    27, 28, 29, 30, 31, 32,
];

const BLOCK: Block = Block {
    generation: 0x0807_0605_0403_0201,
    addr: 0x100f_0e0d_0c0b_0a09,
    size: 0x1817_1615_1413_1211,
    align: 0x201f_1e1d_1c1b_1a19,
};

#[test]
fn blocks_and_texts(rt: HostRuntime) {
    has_form(&rt, BLOCK, FORM);
    has_form(&rt, Str { block: BLOCK }, FORM);
}
