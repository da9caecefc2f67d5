// Whether a text is refused, judged token by token.
ghost use Rattle.std.specs.Prelude.{◌≡◌, ◌≤◌, [], ◌∷◌, List, false, length, slice_index};
ghost use Rattle.tree_rules.specs.declared.machine.Open.{Open};
ghost use Rattle.tree_rules.specs.declared.machine.Mode.{Mode};
ghost use Rattle.tree_rules.specs.Reading.{state, signs_ended, close_paren, close_brace, end_line, step_in, within_limits, ended_in, judged, refusal_of};
ghost use Rattle.tree_rules.specs.Refusals.{IsReading, most_nest};
ghost use Rattle.tree_rules.specs.Tokens.{is_digit, is_name_start, sign};
ghost use Rattle.tree_reader.specs.Seen.{IsSeen, IsBegin, IsNext};
ghost use Rattle.tree_reader.specs.Steps.{like, Stepped, answer, GoesOn};

use crate::stack::Stack;
use crate::token::{self, Lexeme, Seen};
use tree_rules::laws::machine;
use tree_rules::{Mode, Open, Refused};

// The result of a step.
#[derive(Clone, Copy)]
enum Step {
    To(Mode),
    Deep,
    Wrong,
}

// What may come next, or why a token is refused.
#[derive(Clone, Copy)]
enum Judged {
    To(Mode),
    Refused(Refused),
}

// What comes next: the text ends, a token is accepted, or it is refused.
#[derive(Clone, Copy)]
enum Next {
    Ended,
    To { mode: Mode, end: usize },
    Refused(Refused),
}

// Opens one more.
#[inline(always)]
fn open(opens: &mut Stack, one: Open, mode: Mode) -> Step
    ensures { Stepped (Some (state mode (one ∷ opens.old))) result opens.new }
{
    opens.known();
    if opens.is_full() {
        Step::Deep
    } else {
        opens.push(one);
        Step::To(mode)
    }
}

// A factor ends.
#[inline(always)]
fn end_factor(opens: &mut Stack) -> Step
    ensures { Stepped (Some (state Mode.BehindFactor (signs_ended opens.old))) result opens.new }
{
    opens.end_signs();
    opens.known();
    Step::To(Mode::BehindFactor)
}

#[inline(always)]
fn to(opens: &Stack, mode: Mode) -> Step
    ensures { Stepped (Some (state mode opens.now)) result opens.now }
{
    opens.known();
    Step::To(mode)
}

#[inline(always)]
fn close_paren(opens: &mut Stack) -> Step
    ensures { Stepped (close_paren opens.old) result opens.new }
{
    match opens.top() {
        Some(Open::Paren) => {
            opens.pop();
            end_factor(opens)
        }
        _ => Step::Wrong,
    }
}

#[inline(always)]
fn close_brace(opens: &mut Stack) -> Step
    ensures { Stepped (close_brace opens.old) result opens.new }
{
    match opens.top() {
        Some(Open::Brace) => {
            opens.pop();
            to(opens, Mode::AtLine)
        }
        _ => Step::Wrong,
    }
}

#[inline(always)]
fn end_line(opens: &Stack) -> Step
    ensures { Stepped (end_line opens.now) result opens.now }
{
    match opens.top() {
        None | Some(Open::Brace) => to(opens, Mode::AtLine),
        _ => Step::Wrong,
    }
}

// A mode that is known at compile time, so that the code of its steps has no steps of other modes.
trait InMode {
    ghost mode: { Mode };

    // The step at a token.
    fn step(seen: Seen, opens: &mut Stack) -> Step
        ensures { Stepped (step_in mode opens.old (like seen)) result opens.new };
}

struct LineMode;

struct NameMode;

struct EqualsMode;

struct FactorMode;

struct BehindMode;

impl InMode for LineMode {
    ghost mode = { Mode.AtLine };

    #[inline(always)]
    fn step(seen: Seen, opens: &mut Stack) -> Step {
        match seen {
            Seen::LetKey => to(opens, Mode::AtName),
            Seen::LeftBrace => open(opens, Open::Brace, Mode::AtLine),
            Seen::RightBrace => close_brace(opens),
            _ => FactorMode::step(seen, opens),
        }
    }
}

impl InMode for NameMode {
    ghost mode = { Mode.AtName };

    #[inline(always)]
    fn step(seen: Seen, opens: &mut Stack) -> Step {
        match seen {
            Seen::Word => to(opens, Mode::AtEquals),
            _ => Step::Wrong,
        }
    }
}

impl InMode for EqualsMode {
    ghost mode = { Mode.AtEquals };

    #[inline(always)]
    fn step(seen: Seen, opens: &mut Stack) -> Step {
        match seen {
            Seen::Equals => to(opens, Mode::AtFactor),
            _ => Step::Wrong,
        }
    }
}

impl InMode for FactorMode {
    ghost mode = { Mode.AtFactor };

    #[inline(always)]
    fn step(seen: Seen, opens: &mut Stack) -> Step {
        match seen {
            // One arm each: in a common arm, the size of a number would be tested a second time.
            Seen::Word => end_factor(opens),
            Seen::Number(_) => end_factor(opens),
            Seen::TooBig => end_factor(opens),
            Seen::LeftParen => open(opens, Open::Paren, Mode::AtFactor),
            Seen::Minus => open(opens, Open::Sign, Mode::AtFactor),
            _ => Step::Wrong,
        }
    }
}

impl InMode for BehindMode {
    ghost mode = { Mode.BehindFactor };

    #[inline(always)]
    fn step(seen: Seen, opens: &mut Stack) -> Step {
        match seen {
            Seen::Plus | Seen::Minus | Seen::Star => to(opens, Mode::AtFactor),
            Seen::RightParen => close_paren(opens),
            Seen::Semicolon => end_line(opens),
            _ => Step::Wrong,
        }
    }
}

#[inline(always)]
fn within_limits(l: Lexeme, mode: Mode) -> Judged
    ensures { (opens : List Open) → length opens ≤ most_nest → within_limits (record { at = l.at; token = like l.seen }) (state mode opens)
        ≡ answer result opens }
{
    if let Seen::TooBig = l.seen {
        return Judged::Refused(Refused::NumberTooBig { at: l.at as u64 });
    }
    Judged::To(mode)
}

// The judgement of a token.
#[inline(always)]
fn judge<M: InMode>(l: Lexeme, opens: &mut Stack) -> Judged
    ensures { judged (state M.mode opens.old) (record { at = l.at; token = like l.seen }) ≡ answer result opens.new }
{
    match M::step(l.seen, opens) {
        Step::To(next) => within_limits(l, next),
        Step::Deep => Judged::Refused(Refused::TooDeep { at: l.at as u64 }),
        Step::Wrong => Judged::Refused(Refused::Syntax { at: l.at as u64 }),
    }
}

// Why a text that ends here is refused.
fn ended(end: u64, mode: Mode, opens: &Stack) -> Option<Refused>
    ensures { result ≡ ended_in end mode opens.now }
{
    match mode {
        Mode::AtLine if opens.is_empty() => None,
        _ => Some(Refused::Syntax { at: end }),
    }
}

// What comes next if this is the next token.
#[inline(always)]
fn goes_on<M: InMode>(src: &[u8], at: usize, l: Lexeme, opens: &mut Stack) -> Next
    requires { IsNext src.now at l }
    ensures { GoesOn src.now at (state M.mode opens.old) result opens.new }
{
    match judge::<M>(l, opens) {
        Judged::To(to) => Next::To {
            mode: to,
            end: l.end,
        },
        Judged::Refused(refused) => Next::Refused(refused),
    }
}

#[inline(always)]
fn sign_on<M: InMode>(src: &[u8], at: usize, here: usize, seen: Seen, opens: &mut Stack) -> Next
    requires begin { IsBegin src.now at here }
    requires seen { IsSeen seen (slice_index src.now here ∷ []) (sign (slice_index src.now here)) }
    requires digit { is_digit (slice_index src.now here) ≡ false }
    requires name { is_name_start (slice_index src.now here) ≡ false }
    ensures { GoesOn src.now at (state M.mode opens.old) result opens.new }
{
    goes_on::<M>(src, at, token::sign_next(src, at, here, seen), opens)
}

// What comes next. Each mode has a lexer of its own, which recognises and judges a sign by one jump.
#[inline(always)]
fn next_in<M: InMode>(src: &[u8], at: usize, opens: &mut Stack) -> Next
    requires { at ≤ length src.now }
    ensures { GoesOn src.now at (state M.mode opens.old) result opens.new }
{
    let Some(here) = token::begin_at(src, at) else {
        return Next::Ended;
    };
    match src[here] {
        b'+' => sign_on::<M>(src, at, here, Seen::Plus, opens),
        b'-' => sign_on::<M>(src, at, here, Seen::Minus, opens),
        b'*' => sign_on::<M>(src, at, here, Seen::Star, opens),
        b'(' => sign_on::<M>(src, at, here, Seen::LeftParen, opens),
        b')' => sign_on::<M>(src, at, here, Seen::RightParen, opens),
        b'{' => sign_on::<M>(src, at, here, Seen::LeftBrace, opens),
        b'}' => sign_on::<M>(src, at, here, Seen::RightBrace, opens),
        b'=' => sign_on::<M>(src, at, here, Seen::Equals, opens),
        b';' => sign_on::<M>(src, at, here, Seen::Semicolon, opens),
        _ => goes_on::<M>(src, at, token::any_next(src, at, here), opens),
    }
}

// Looks at the token after a factor at once, since most factors end with their first token.
#[inline(always)]
fn next_factor(src: &[u8], at: usize, opens: &mut Stack) -> Next
    requires { at ≤ length src.now }
    ensures { GoesOn src.now at (state Mode.AtFactor opens.old) result opens.new }
{
    match next_in::<FactorMode>(src, at, opens) {
        Next::To {
            mode: Mode::BehindFactor,
            end,
        } => match next_in::<BehindMode>(src, end, opens) {
            Next::Ended => Next::To {
                mode: Mode::BehindFactor,
                end,
            },
            next => next,
        },
        next => next,
    }
}

#[inline(always)]
fn any_next(mode: Mode, src: &[u8], at: usize, opens: &mut Stack) -> Next
    requires { at ≤ length src.now }
    ensures { GoesOn src.now at (state mode opens.old) result opens.new }
{
    match mode {
        Mode::AtLine => next_in::<LineMode>(src, at, opens),
        Mode::AtName => next_in::<NameMode>(src, at, opens),
        Mode::AtEquals => next_in::<EqualsMode>(src, at, opens),
        Mode::AtFactor => next_factor(src, at, opens),
        Mode::BehindFactor => next_in::<BehindMode>(src, at, opens),
    }
}

// Why the machine refuses a text, or `None` where it doesn't.
fn judge_all(src: &[u8]) -> Option<Refused>
    ensures { result ≡ refusal_of src.now }
{
    let mut mode = Mode::AtLine;
    let mut opens = Stack::new();
    let mut at = 0;
    loop {
        match any_next(mode, src, at, &mut opens) {
            Next::Ended => return ended(src.len() as u64, mode, &opens),
            Next::Refused(refused) => return Some(refused),
            Next::To { mode: to, end } => {
                mode = to;
                at = end;
            }
        }
    }
}

/// Returns why a text is refused, and where: at its first token that is refused, or at its end. Returns `None` if it is
/// a program within the limits. Takes no memory.
pub fn refusal(src: &[u8]) -> Option<Refused>
    ensures read { IsReading src.now result }
    ensures machine { result ≡ refusal_of src.now }
{
    machine();
    judge_all(src)
}
