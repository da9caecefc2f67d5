// Moves bytes within a slice, by whole vectors.
ghost use Rattle.std.specs.Prelude.{◌≡◌, ◌+◌, ◌-◌, ◌≤◌, ◌<◌, length, take, drop};
ghost use Rattle.arena_rules.specs.Lists.{splice};

use std::simd::Simd;

// Moves bytes to another place of the slice. The two ranges may overlap.
//
// std's `copy_within` is a loop over the bytes. It is compiled to steps of 32, of 8 or 4, and of 1, with tests before
// each kind, and to single bytes alone if both ranges are the same. That is most of the time of a short move, as when a
// block grows a little. Here up to 64 bytes are two reads and then two writes. In a longer move each part is read whole
// before it is written, and no part is overwritten before it is read.
#[inline(always)]
pub(crate) fn shift(bytes: &mut [u8], from: usize, to: usize, n: usize)
    requires source { from + n ≤ length bytes.old }
    requires target { to + n ≤ length bytes.old }
    ensures { bytes.new ≡ splice bytes.old to (take n (drop from bytes.old)) }
{
    if n <= 64 {
        shift_short(bytes, from, to, n);
    } else if to <= from {
        shift_down::<32>(bytes, from, to, n);
    } else {
        shift_up::<32>(bytes, from, to, n);
    }
}

// Moves two parts that cover all the bytes and may overlap.
#[inline(always)]
fn shift_short(bytes: &mut [u8], from: usize, to: usize, n: usize)
    requires short { n ≤ 64 }
    requires source { from + n ≤ length bytes.old }
    requires target { to + n ≤ length bytes.old }
    ensures { bytes.new ≡ splice bytes.old to (take n (drop from bytes.old)) }
{
    if n >= 32 {
        move_ends::<32>(bytes, from, to, n);
    } else if n >= 16 {
        move_ends::<16>(bytes, from, to, n);
    } else if n >= 8 {
        move_ends::<8>(bytes, from, to, n);
    } else if n >= 4 {
        move_ends::<4>(bytes, from, to, n);
    } else if n >= 2 {
        move_ends::<2>(bytes, from, to, n);
    } else if n == 1 {
        move_ends::<1>(bytes, from, to, n);
    }
}

// Moves parts from the first byte on, and the rest as two.
#[inline(never)]
#[tactic(auto, using(crate::proofs::ShiftLemmas::moved_on))]
fn shift_down<const W: usize>(bytes: &mut [u8], from: usize, to: usize, n: usize)
    requires part { (0 < W) × (W ≤ 64) }
    requires long { W ≤ n }
    requires source { from + n ≤ length bytes.old }
    requires down { to ≤ from }
    ensures { bytes.new ≡ splice bytes.old to (take n (drop from bytes.old)) }
{
    let mut done = 0;
    while n - done > W + W {
        move_part::<W>(bytes, from + done, to + done);
        done += W;
    }
    move_ends::<W>(bytes, from + done, to + done, n - done);
}

// Moves parts from the last byte back, and the rest as two.
#[inline(never)]
#[tactic(auto, using(crate::proofs::ShiftLemmas::moved_back, crate::proofs::ShiftLemmas::moved_first))]
fn shift_up<const W: usize>(bytes: &mut [u8], from: usize, to: usize, n: usize)
    requires part { (0 < W) × (W ≤ 64) }
    requires long { W ≤ n }
    requires target { to + n ≤ length bytes.old }
    requires up { from ≤ to }
    ensures { bytes.new ≡ splice bytes.old to (take n (drop from bytes.old)) }
{
    let mut left = n;
    while left > W + W {
        left -= W;
        move_part::<W>(bytes, from + left, to + left);
    }
    move_ends::<W>(bytes, from, to, left);
}

#[inline(always)]
#[tactic(auto, using(crate::proofs::ShiftLemmas::moved_part))]
fn move_part<const W: usize>(bytes: &mut [u8], from: usize, to: usize)
    requires source { from + W ≤ length bytes.old }
    requires target { to + W ≤ length bytes.old }
    ensures { bytes.new ≡ splice bytes.old to (take W (drop from bytes.old)) }
{
    Simd::<u8, W>::from_slice(&bytes[from..]).copy_to_slice(&mut bytes[to..]);
}

// Moves the first and the last W bytes. Both are read before either is written.
#[inline(always)]
#[tactic(auto, using(crate::proofs::ShiftLemmas::moved_ends))]
fn move_ends<const W: usize>(bytes: &mut [u8], from: usize, to: usize, n: usize)
    requires covered { (W ≤ n) × (n ≤ W + W) }
    requires source { from + n ≤ length bytes.old }
    requires target { to + n ≤ length bytes.old }
    ensures { bytes.new ≡ splice bytes.old to (take n (drop from bytes.old)) }
{
    let last = n - W;
    let front = Simd::<u8, W>::from_slice(&bytes[from..]);
    let back = Simd::<u8, W>::from_slice(&bytes[from + last..]);
    front.copy_to_slice(&mut bytes[to..]);
    back.copy_to_slice(&mut bytes[to + last..]);
}
