// Cuts a text before a line `script`, and joins what is read of both parts.
ghost use Rattle.std.specs.Prelude.{◌≡◌, ◌+◌, ◌≤◌, IfOk, IfErr, Ok, Err, length, take, drop};
ghost use Rattle.line_parts.specs.Numbers.{lines_of};
ghost use Rattle.memchr.specs.Find.{FindsNeedle};
ghost use Rattle.line_parts.specs.Lines.{IsCause};
ghost use Rattle.script_rules.specs.Grammar.{ScriptsOf};
ghost use Rattle.script_lines.specs.Cutting.{script_mark, IsCutAt, IsReadOf};

use line_parts::LinesErr;
use memchr::{memchr_iter, memmem};
use script_rules::Script;

/// Returns the place, at or after `from`, of the first line feed after which the next line is exactly `script` and has a
/// line feed, or `None` where there is none.
#[tactic(auto, using(crate::proofs::CutLemmas::found))]
pub fn cut_place(bytes: &[u8], from: usize) -> Option<usize>
    requires { from ≤ length bytes.now }
    ensures { FindsNeedle bytes.now script_mark from result }
{
    let at = memmem::find(&bytes[from..], b"\nscript\n")?;
    Some(from + at)
}

// How many lines the bytes have.
#[tactic(auto, using(crate::proofs::CutLemmas::lines_counted))]
fn line_count(bytes: &[u8]) -> u64
    ensures { result ≡ length (lines_of bytes.now) }
{
    memchr_iter(b'\n', bytes).count() as u64 + 1
}

/// Joins what `parse_scripts` returned for the bytes before this line feed, and for those after it.
///
/// # Errors
///
/// The first line of the whole text that is refused, or out of memory.
#[tactic(auto, using(crate::proofs::CutLemmas::counted))]
pub fn join_parts(
    bytes: &[u8],
    at: usize,
    first: Result<Vec<Script>, LinesErr>,
    rest: Result<Vec<Script>, LinesErr>,
) -> Result<Vec<Script>, LinesErr>
    requires cut { IsCutAt bytes.now at }
    requires first { IsReadOf (take at bytes.now) first }
    requires rest { IsReadOf (drop (at + 1) bytes.now) rest }
    ensures scripts { IfOk result (λ scripts. ScriptsOf bytes.now (Ok scripts.items)) }
    ensures refused { IfErr result (IsCause (λ n. ScriptsOf bytes.now (Err n))) }
{
    let mut scripts = first?;
    match rest {
        Ok(mut more) => match scripts.append(&mut more) {
            Ok(()) => Ok(scripts),
            Err(_) => Err(LinesErr::OutOfMemory),
        },
        Err(failed) => match failed {
            LinesErr::BadLine(n) => Err(LinesErr::BadLine(line_count(&bytes[..at]) + n)),
            LinesErr::OutOfMemory => Err(LinesErr::OutOfMemory),
        },
    }
}
