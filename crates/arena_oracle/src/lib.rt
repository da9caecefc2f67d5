//! The proved arena for programs that aren't Rattle: a static library with functions that C calls. Bytes go in, bytes
//! and numbers come out, and no pointer is kept.
#![tactic(auto)]

ghost use Rattle.std.specs.Prelude.{◌≡◌, ◌<◌, ◌≤◌, ◌^◌, ℕ, List, [], length};
ghost use Rattle.arena_store.specs.Source.{Source};
ghost use Rattle.arena_calls.specs.ReadAll.{limit};
ghost use Rattle.arena_calls.specs.declared.status.Status.{Status};
ghost use Rattle.arena_oracle.specs.Limits.{limited};
ghost use Rattle.arena_oracle.specs.Answers.{CallsWithin, DrawsWithin, GenWithin, Yields, IsReturned};

pub mod laws;
mod report;
mod returning;
mod runs;
mod source;
#[cfg(test)]
mod tests;
mod within;

use crate::returning::return_text;
use crate::runs::{draw_text, gen_text, run_text};
use crate::source::ListedChunks;
use arena_calls::Status;
pub use report::Report;
use std::alloc::Global;

/// Runs lines of calls over a new arena, and puts the text of their replies at the front of `out`, if it has room for
/// all of it. Requests for chunks beyond `budget` bytes in all are refused, and those whose numbers, from 1, are listed.
/// Returns the exit status of the program for the word `calls`, or 7 where the text has no room. Code 3 is returned if
/// memory runs out, also for a chunk within the limits; with each other code no other request was refused.
#[unsafe(no_mangle)]
#[tactic(auto, using(crate::proofs::ReturnLemmas::long_code))]
pub extern "C" fn arena_oracle_calls(
    alloc: Global,
    lines: &[u8],
    budget: u64,
    refuse: &[u64],
    out: &mut [u8],
    report: &mut Report,
) -> u32
    ensures ends { (status : Status) × (text : List ℕ) × (after : Source)
        × Yields (CallsWithin budget refuse.now) lines.now (limited budget refuse.now) after status text
        × IsReturned status text after.refusals out.old out.new report.new result }
    ensures long { limit < length lines.now → result ≡ 6 }
{
    let mut chunks = ListedChunks::new(alloc, budget, refuse);
    match run_text(alloc, lines, &mut chunks) {
        Ok(text) => return_text(&Status::Done, text.as_slice(), chunks.refused, out, report),
        Err(status) => return_text(&status, b"", chunks.refused, out, report),
    }
}

/// Runs `count` calls that are made from `start`, and returns their summary in the same way: the program for the words
/// `gen START COUNT`, but for up to 2^32 - 1 calls. A larger count has code 3.
#[unsafe(no_mangle)]
#[tactic(auto, using(crate::proofs::ReturnLemmas::short_code))]
pub extern "C" fn arena_oracle_gen(
    alloc: Global,
    start: u64,
    count: u64,
    budget: u64,
    refuse: &[u64],
    out: &mut [u8],
    report: &mut Report,
) -> u32
    ensures ends { (status : Status) × (text : List ℕ) × (after : Source)
        × Yields (GenWithin start count budget refuse.now) [] (limited budget refuse.now) after status text
        × IsReturned status text after.refusals out.old out.new report.new result }
    ensures many { 2 ^ 32 ≤ count → result ≡ 3 }
{
    let mut chunks = ListedChunks::new(alloc, budget, refuse);
    match gen_text(alloc, start, count as usize, &mut chunks) {
        Ok(text) => return_text(&Status::Done, text.as_slice(), chunks.refused, out, report),
        Err(status) => return_text(&status, b"", chunks.refused, out, report),
    }
}

/// Runs lines of calls, and returns a picture of the arena after them in the same way, as SVG.
#[unsafe(no_mangle)]
#[tactic(auto, using(crate::proofs::ReturnLemmas::long_code))]
pub extern "C" fn arena_oracle_draw(
    alloc: Global,
    lines: &[u8],
    budget: u64,
    refuse: &[u64],
    out: &mut [u8],
    report: &mut Report,
) -> u32
    ensures ends { (status : Status) × (text : List ℕ) × (after : Source)
        × Yields (DrawsWithin budget refuse.now) lines.now (limited budget refuse.now) after status text
        × IsReturned status text after.refusals out.old out.new report.new result }
    ensures long { limit < length lines.now → result ≡ 6 }
{
    let mut chunks = ListedChunks::new(alloc, budget, refuse);
    match draw_text(alloc, lines, &mut chunks) {
        Ok(text) => return_text(&Status::Done, text.as_slice(), chunks.refused, out, report),
        Err(status) => return_text(&status, b"", chunks.refused, out, report),
    }
}
