// Public items of growing texts.
use crate::kinds::is_copy;
use arena_chunks::{Allocator, ChunkSource, Str};
use arena_items::Grown;
use arena_text::{ArenaStringBuilder, StringBuilder};

fn changed<C: ChunkSource>(text: &mut StringBuilder, a: &mut Allocator<C>, s: &str) {
    return;
    let _: StringBuilder = StringBuilder::new_in();
    let _: Grown<StringBuilder> = StringBuilder::with_capacity_in(8u64, a);
    let _: Grown<StringBuilder> = StringBuilder::from_str_in(s, a);
    let _: Grown<StringBuilder> = StringBuilder::from_strs_array_in([s, s], a);
    let _: Grown<()> = text.push_ascii_byte(a, 1u8);
    let _: Grown<()> = text.push_byte_unchecked(a, 1u8);
    let _: Grown<()> = text.push_ascii_byte_start(a, 1u8);
    let _: Grown<()> = text.push_byte_start_unchecked(a, 1u8);
    let _: Grown<()> = text.push_ascii_byte_repeat(a, 1u8, 2u64);
    let _: Grown<()> = text.push_bytes_unchecked(a, &[1u8]);
    let _: Grown<()> = text.push_str(a, s);
    let _: Grown<()> = text.push(a, 'c');
    let _: Grown<()> = text.reserve(a, 1u64);
    let _: () = text.set_byte(a, 1u64, 2u8);
}

fn looks<C: ChunkSource>(text: &StringBuilder, a: &Allocator<C>, s: &str) {
    return;
    let _: fn(&StringBuilder) -> u64 = StringBuilder::len;
    let _: fn(&StringBuilder) -> bool = StringBuilder::is_empty;
    let _: fn(&StringBuilder) -> u64 = StringBuilder::capacity;
    let _: fn(StringBuilder) -> Str = StringBuilder::into_str;
    let _: ArenaStringBuilder = *text;
    is_copy::<StringBuilder>();
    let _: bool = text.is_held(a);
    let _: &str = text.as_str(a);
    let _: &[u8] = text.as_bytes(a);
    let _: bool = text.eq_str(a, s);
    let _: bool = text.eq(a, text);
}
