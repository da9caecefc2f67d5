// Loops over texts.
use super::{Bench, Clock, Failed, Heap, Timed};
use arena_text::StringBuilder;

// The text that is appended as a whole.
const PIECE: &str = "hello, ";

// The number of bytes that are inserted at the front of a text.
const FEW: u64 = 64;

pub(super) fn time(bench: &Bench) -> Result<(), Failed> {
    bench.time("string_push_str", 10_000_000, string_push_str)?;
    bench.time("string_push_byte", 10_000_000, string_push_byte)?;
    bench.time_batches("string_push_start", 10_000_000, in_front)
}

fn sizes(text: StringBuilder) -> u64 {
    text.len().wrapping_add(text.capacity())
}

// Texts of seven bytes that are appended.
fn string_push_str(rt: &HostRuntime, a: &mut Heap, calls: u64) -> Result<Timed, Failed> {
    let clock = Clock::start(rt);
    let mut text = StringBuilder::new_in();
    for _ in 0..calls {
        text.push_str(a, PIECE)?;
    }
    clock.stop(rt, sizes(text))
}

// Bytes that are appended.
fn string_push_byte(rt: &HostRuntime, a: &mut Heap, calls: u64) -> Result<Timed, Failed> {
    let clock = Clock::start(rt);
    let mut text = StringBuilder::new_in();
    for i in 0..calls {
        text.push_ascii_byte(a, (i % 128) as u8)?;
    }
    clock.stop(rt, sizes(text))
}

// Inserts bytes at the front of texts, 64 in each, and adds up the lengths.
fn in_front(a: &mut Heap, bytes: u64) -> Result<u64, Failed> {
    let mut number: u64 = 0;
    for _ in 0..bytes / FEW {
        let mut text = StringBuilder::with_capacity_in(FEW, a)?;
        for k in 0..FEW as u8 {
            text.push_ascii_byte_start(a, k)?;
        }
        number = number.wrapping_add(text.len());
    }
    Ok(number)
}
