// What a statement begins with and ends with.
ghost use Rattle.std.specs.Prelude.{◌≤◌, length, slice_range, IfNone, IfSome};
ghost use Rattle.tree_rules.specs.Tokens.{Word, Equals, Semicolon, RightBrace};
ghost use Rattle.tree_rules.specs.declared.machine.Mode.{Mode};
ghost use Rattle.tree_reader.specs.Seen.{tokens_at};
ghost use Rattle.arena_tree.specs.Parts.{IsTokenAt, TermsStop};
ghost use Rattle.arena_tree.specs.LineParts.{IsLineStart, LinesStop, NoLine, IsRefusedIn, NoEnd, NoBrace};

use tree_reader::{Seen, next};
use tree_rules::Mode;

/// What a statement begins with.
#[derive(Clone, Copy)]
pub(crate) enum LineStart {
    Let {
        begin: usize,
        end: usize,
        behind: usize,
    },
    Block(usize),
    Expr,
    End,
}

// A definition's name, if one comes next.
#[inline(always)]
fn name_at(src: &[u8], at: usize) -> Option<(usize, usize)>
    requires { at ≤ length src.now }
    ensures token { IfSome result (λ r. IsTokenAt src.now at (Word (slice_range src.now r.0 r.1)) r.1) }
    ensures range { IfSome result (λ r. r.0 ≤ r.1) }
    ensures begin { IfSome result (λ r. at ≤ r.0) }
    ensures none { IfNone result (IsRefusedIn Mode.AtName src.now at) }
{
    let l = next(src, at)?;
    match l.seen {
        Seen::Word => Some((l.at, l.end)),
        _ => None,
    }
}

#[inline(always)]
fn equals_at(src: &[u8], at: usize) -> Option<usize>
    requires { at ≤ length src.now }
    ensures some { IfSome result (λ end. IsTokenAt src.now at Equals end) }
    ensures none { IfNone result (IsRefusedIn Mode.AtEquals src.now at) }
{
    let l = next(src, at)?;
    match l.seen {
        Seen::Equals => Some(l.end),
        _ => None,
    }
}

// What a statement begins with, or that there is none. `None` where a definition has no name or no equals sign.
#[inline(always)]
pub(crate) fn line_at(src: &[u8], at: usize) -> Option<LineStart>
    requires { at ≤ length src.now }
    ensures some { IfSome result (λ start. IsLineStart src.now at start) }
    ensures none { IfNone result (NoLine src.now at) }
{
    let Some(l) = next(src, at) else {
        return Some(LineStart::End);
    };
    match l.seen {
        Seen::RightBrace => Some(LineStart::End),
        Seen::LeftBrace => Some(LineStart::Block(l.end)),
        Seen::LetKey => {
            let (begin, end) = name_at(src, l.end)?;
            let behind = equals_at(src, end)?;
            Some(LineStart::Let { begin, end, behind })
        }
        _ => Some(LineStart::Expr),
    }
}

#[inline(always)]
pub(crate) fn semicolon_at(src: &[u8], at: usize) -> Option<usize>
    requires within { at ≤ length src.now }
    requires stop { TermsStop (tokens_at src.now at) }
    ensures some { IfSome result (λ end. IsTokenAt src.now at Semicolon end) }
    ensures none { IfNone result (NoEnd src.now at) }
{
    let l = next(src, at)?;
    match l.seen {
        Seen::Semicolon => Some(l.end),
        _ => None,
    }
}

#[inline(always)]
pub(crate) fn brace_at(src: &[u8], at: usize) -> Option<usize>
    requires within { at ≤ length src.now }
    requires stop { LinesStop (tokens_at src.now at) }
    ensures some { IfSome result (λ end. IsTokenAt src.now at RightBrace end) }
    ensures none { IfNone result (NoBrace src.now at) }
{
    let l = next(src, at)?;
    match l.seen {
        Seen::RightBrace => Some(l.end),
        _ => None,
    }
}
