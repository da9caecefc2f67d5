// Reads the scripts of a text on several threads.
ghost use Rattle.std.specs.Prelude.{IfOk, IfErr, Ok, Err};
ghost use Rattle.std.specs.Thread.{IsSync};
ghost use Rattle.line_parts.specs.Lines.{IsCause};
ghost use Rattle.script_rules.specs.Grammar.{ScriptsOf};
ghost use Rattle.script_lines.specs.Cutting.{IsReadOf};

use arena_workers::Gate;
use script_lines::{LinesErr, cut_place, join_parts, parse_scripts};
use script_rules::Script;
use std::alloc::Global;
use std::thread;
use std::thread::Threads;

// Fewer bytes aren't worth a thread.
const LEAST_PART: usize = 16_384;

// Reads a part, and tells the gate before and after that.
fn parse_part<G: Gate>(
    alloc: Global,
    gate: &G,
    part: u32,
    bytes: &[u8],
) -> Result<Vec<Script>, LinesErr>
    ensures scripts { IfOk result (λ scripts. ScriptsOf bytes.now (Ok scripts.items)) }
    ensures refused { IfErr result (IsCause (λ n. ScriptsOf bytes.now (Err n))) }
{
    gate.started(part);
    let scripts = parse_scripts(alloc, bytes);
    gate.finished(part);
    scripts
}

/// Reads the scripts that the bytes are the lines of, as `parse_scripts` does, on threads: at most `workers`, which no
/// clause says. Each takes a part of about the same size, which begins with a line `script`, and calls the gate when it
/// begins and when it ends, with the part's number: as many as the workers before it, and `first`.
#[cycle(halves)]
pub fn parse_on_workers<R: Threads + Sync, G: Gate + Sync>(
    rt: &R,
    alloc: Global,
    gate: &G,
    first: u32,
    workers: u32,
    bytes: &[u8],
) -> Result<Vec<Script>, LinesErr>
    ensures scripts { IfOk result (λ scripts. ScriptsOf bytes.now (Ok scripts.items)) }
    ensures refused { IfErr result (IsCause (λ n. ScriptsOf bytes.now (Err n))) }
{
    if workers < 2 || bytes.len() < 2 * LEAST_PART {
        return parse_part(alloc, gate, first, bytes);
    }
    let few = workers / 2;
    let more = workers - few;
    let Some(at) = cut_place(bytes, bytes.len() / workers as usize * few as usize) else {
        return parse_part(alloc, gate, first, bytes);
    };
    let next = first.wrapping_add(few);
    let (front, back) = (&bytes[..at], &bytes[at + 1..]);
    let (begin, rest) = thread::join(
        rt,
        || -> Result<Vec<Script>, LinesErr>
            requires { IsSync R.row × IsSync G.row }
            ensures { IsReadOf front.entry.now result }
        { parse_on_workers(rt, alloc, gate, first, few, front) },
        || -> Result<Vec<Script>, LinesErr>
            requires { IsSync R.row × IsSync G.row }
            ensures { IsReadOf back.entry.now result }
        { parse_on_workers(rt, alloc, gate, next, more, back) },
    );
    join_parts(bytes, at, begin, rest)
}
