// The printed form of bits.
ghost use Rattle.std.specs.Prelude.{◌≡◌, ◌+◌, ◌*◌, ◌^◌, ◌≤◌, ◌++◌, if◌then◌else◌, OnOk, IfOk};
ghost use Rattle.arena_rules.specs.PrintedBits.{has_byte, highest, digits, lower, printed};
ghost use Rattle.script_rules.specs.Objects.{has};

use crate::names::Names;
use arena_rules::OutOfMemory;
use short_bytes::Bytes;
use std::alloc::Global;

// Whether a byte isn't zero.
#[tactic(auto, using(crate::proofs::LoopLemmas::some_here, crate::proofs::LoopLemmas::some_later, crate::proofs::LoopLemmas::some_none))]
fn has_byte(bits: &Names<()>, k: u64) -> bool
    requires { 8 * k + 8 ≤ 2 ^ 32 }
    ensures { result ≡ has_byte (has bits.now) k }
{
    for j in 0..8 {
        if bits.has((8 * k + j) as u32) {
            return true;
        }
    }
    false
}

// The highest of the first `bytes` bytes that isn't zero, or 0 where all are.
#[tactic(auto, using(crate::proofs::LoopLemmas::highest_below, crate::proofs::LoopLemmas::highest_none))]
fn highest(bits: &Names<()>, bytes: u64) -> u64
    requires { 8 * bytes ≤ 2 ^ 32 }
    ensures value { result ≡ highest (has bits.now) bytes }
    ensures within { 8 * result + 8 ≤ 2 ^ 32 }
{
    for k in (0..bytes).rev() {
        if has_byte(bits, k) {
            return k;
        }
    }
    0
}

// The binary digit of a bit.
fn digit(is_set: bool) -> u8
    ensures { result ≡ (if is_set then 49 else 48) }
{
    if is_set { b'1' } else { b'0' }
}

// Appends the binary digits of the `n` bits from this one on, the highest first.
#[tactic(auto, using(crate::proofs::LoopLemmas::digits_none))]
fn push_digits(text: &mut Bytes, bits: &Names<()>, from: u64, n: u64) -> Result<(), OutOfMemory>
    requires { from + n ≤ 2 ^ 32 }
    ensures { OnOk result (text.new ≡ text.old ++ digits (has bits.now) from n) }
{
    for place in (0..n).rev() {
        text.push(digit(bits.has((from + place) as u32)))?;
    }
    Ok(())
}

// Appends each of the `k` lowest bytes, after a `_`, the highest of them first.
#[tactic(auto, using(crate::proofs::LoopLemmas::lower_more, crate::proofs::LoopLemmas::lower_none))]
fn push_lower(text: &mut Bytes, bits: &Names<()>, k: u64) -> Result<(), OutOfMemory>
    requires { 8 * k ≤ 2 ^ 32 }
    ensures { OnOk result (text.new ≡ text.old ++ lower (has bits.now) k) }
{
    for i in (0..k).rev() {
        text.push(b'_')?;
        push_digits(text, bits, 8 * i, 8)?;
    }
    Ok(())
}

// The printed form of a set of this many words.
#[tactic(auto, using(crate::proofs::LoopLemmas::printed_none, crate::proofs::LoopLemmas::printed_some))]
pub(crate) fn printed(alloc: Global, words: u64, bits: &Names<()>) -> Result<Bytes, OutOfMemory>
    requires { 64 * words ≤ 2 ^ 32 }
    ensures { IfOk result (λ text. text ≡ printed words (has bits.now)) }
{
    let mut text = Bytes::new(alloc);
    if words == 0 {
        return Ok(text);
    }
    let top = highest(bits, 8 * words);
    push_digits(&mut text, bits, 8 * top, 8)?;
    push_lower(&mut text, bits, top)?;
    Ok(text)
}
