// Cuts an input into sources.
ghost use Rattle.std.specs.Prelude.{◌≡◌, ◌≢◌, ℕ, suc, ◌<◌, ◌≤◌, ◌++◌, ◌∷◌, [], All, take, drop, length, IfOk, OnOk};
ghost use Rattle.std.specs.List.{slice_index};
ghost use Rattle.lint_reports.specs.Sources.{is_mark, sources, IsFirstLine, IsPassed};

use crate::source::Source;
use arena_rules::OutOfMemory;
use memchr::{memchr, memrchr};
use std::alloc::Global;

// How many bytes come before the first that is `b`, or all of them.
fn len_before(b: u8, bytes: &[u8]) -> usize
    ensures within { result ≤ length bytes.now }
    ensures before { All (λ x. x ≢ b) (take result bytes.now) }
    ensures found { result < length bytes.now → slice_index bytes.now result ≡ b }
{
    memchr(b, bytes).unwrap_or(bytes.len())
}

// How many bytes the lines have, from the first on, before one with a percent sign; or all of them.
fn unsigned_len(bytes: &[u8]) -> usize
    ensures within { result ≤ length bytes.now }
    ensures unsigned { All (λ b. b ≢ 37) (take result bytes.now) }
    ensures lines { (k : ℕ) → suc k ≡ result → result < length bytes.now → slice_index bytes.now k ≡ 10 }
{
    let n = len_before(b'%', bytes);
    if n == bytes.len() {
        return n;
    }
    match memrchr(b'\n', &bytes[..n]) {
        Some(feed) => feed + 1,
        None => 0,
    }
}

// How many bytes can be skipped at once, since no mark is among their lines.
#[tactic(auto, using(crate::proofs::SourceLemmas::passed))]
fn passed_len(bytes: &[u8]) -> usize
    ensures { IsPassed bytes.now result }
{
    unsigned_len(bytes)
}

// The first line with its line feed, if it has one.
#[tactic(auto, using(crate::proofs::SourceLemmas::first_fed, crate::proofs::SourceLemmas::first_unfed))]
fn first_line(bytes: &[u8]) -> &[u8]
    ensures { IsFirstLine bytes.now result.now }
{
    let n = len_before(b'\n', bytes);
    if n < bytes.len() {
        &bytes[..n + 1]
    } else {
        bytes
    }
}

// What follows the first `n` bytes.
fn after(bytes: &[u8], n: usize) -> &[u8]
    requires { n ≤ length bytes.now }
    ensures { result.now ≡ drop n bytes.now }
{
    &bytes[n..]
}

// Whether the line, with its line feed if it has one, is exactly `%%`.
fn is_mark(line: &[u8]) -> bool
    ensures { result ≡ is_mark line.now }
{
    line == b"%%".as_slice() || line == b"%%\n".as_slice()
}

// Adds the source of these bytes.
fn add<'a>(all: &mut Vec<Source<'a>>, bytes: &'a [u8]) -> Result<(), OutOfMemory>
    ensures { OnOk result (all.new.items ≡ all.old.items ++ bytes.now ∷ []) }
{
    Ok(all.push(Source::new(bytes))?)
}

/// Returns the sources of an input. Copies no byte.
///
/// # Errors
///
/// Out of memory.
pub fn sources_of<'a>(alloc: Global, bytes: &'a [u8]) -> Result<Vec<Source<'a>>, OutOfMemory>
    ensures { IfOk result (λ all. all.items ≡ sources bytes.now) }
{
    let mut all = Vec::new(alloc);
    // The current source and what follows it, and how many bytes of its lines were seen.
    let mut rest = bytes;
    let mut seen: usize = 0;
    'lines: loop {
        let start = seen + passed_len(after(rest, seen));
        if start == rest.len() {
            add(&mut all, rest)?;
            return Ok(all);
        }
        let line = first_line(after(rest, start));
        let end = start + line.len();
        if is_mark(line) {
            add(&mut all, &rest[..start])?;
            rest = after(rest, end);
            seen = 0;
        } else {
            seen = end;
        }
    }
}
