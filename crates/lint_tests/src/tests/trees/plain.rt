// A plain parser that follows the grammar's rules literally: the symbols that are still to be read are on a stack.
use super::super::Rt;
use std::process::Abort;
use std::vec::Vec;
use tree_rules::Refused;

/// A word that is being read: its place, whether it is a number, its value if that fits, and whether it has a leading
/// zero.
#[derive(Clone, Copy)]
struct Word {
    at: u64,
    number: bool,
    bytes: u64,
    zero: bool,
    value: Option<u64>,
}

fn is_letter(b: u8) -> bool {
    b.is_ascii_lowercase() || b == b'_'
}

fn goes_on(word: Word, b: u8) -> bool {
    b.is_ascii_digit() || is_letter(b) && !word.number
}

// The word with one more byte. A number's value is that of its digits. A name's value is that of its bytes as digits,
// if they are few, and distinguishes it from `let`.
fn longer(word: Word, b: u8) -> Word {
    let base = if word.number { 10 } else { 256 };
    let digit = if word.number { b.wrapping_sub(b'0') } else { b };
    let shifted = word.value.and_then(|v| v.checked_mul(base));
    let value = shifted.and_then(|v| v.checked_add(u64::from(digit)));
    let zero = word.zero || word.number && word.bytes == 1 && word.value == Some(0);
    Word {
        bytes: word.bytes.saturating_add(1),
        zero,
        value,
        ..word
    }
}

fn first(b: u8, at: u64) -> Word {
    let word = Word {
        at,
        number: b.is_ascii_digit(),
        bytes: 0,
        zero: false,
        value: Some(0),
    };
    longer(word, b)
}

// Returns the token of a word: a number, a number that is too large, a name, `let`, or one that no program has.
fn token(word: Word) -> u8 {
    match word.value {
        _ if word.number && word.zero => b'?',
        Some(_) if word.number => b'n',
        None if word.number => b'b',
        Some(7_103_860) => b'l',
        _ => b'a',
    }
}

fn sign(b: u8) -> u8 {
    match b {
        b'+' | b'-' | b'*' | b'(' | b')' | b'{' | b'}' | b'=' | b';' => b,
        _ => b'?',
    }
}

// The rule for a symbol and the next token: the symbols in its place, with the next one last, how much deeper they are
// nested, and whether the token is read; if not, the next symbol decides. `None` if no rule allows the token there.
fn rule(symbol: u8, token: u8) -> Option<(&'static str, i64, bool)> {
    let rule = match (symbol, token) {
        // statements: none, or one and others
        (b'S', b'l') => ("S;E=a", 0, true),
        (b'S', b'{') => ("S}S", 1, true),
        (b'S', b'}') => ("", 0, false),
        (b'S', _) => ("S;E", 0, false),
        // a term and more of them, a factor and more of them
        (b'E', _) => ("eT", 0, false),
        (b'e', b'+' | b'-') => ("eT", 0, true),
        (b'T', _) => ("tF", 0, false),
        (b't', b'*') => ("tF", 0, true),
        (b'e' | b't', _) => ("", 0, false),
        // a factor, and the end of one after a sign
        (b'F', b'n' | b'b' | b'a') => ("", 0, true),
        (b'F', b'(') => (")E", 1, true),
        (b'F', b'-') => ("~F", 1, true),
        (b'~', _) => ("", -1, false),
        // a symbol that is a token
        (b')' | b'}', _) if symbol == token => ("", -1, true),
        _ if symbol == token => ("", 0, true),
        _ => return None,
    };
    Some(rule)
}

/// The symbols that are still to be read, with the next one last, and the nesting depth.
#[derive(Drop)]
struct Rest {
    symbols: Vec<u8>,
    open: i64,
}

impl Rest {
    fn reads(&mut self, rt: &impl Abort, token: u8) -> bool {
        for _ in 0..200 {
            let symbol = self.symbols.pop();
            let Some((symbols, deeper, is_read)) = symbol.and_then(|s| rule(s, token)) else {
                return false;
            };
            self.symbols
                .extend_from_slice(symbols.as_bytes())
                .expect(rt, "memory");
            self.open = self.open.saturating_add(deeper);
            if is_read {
                return true;
            }
        }
        false
    }

    fn token(&mut self, rt: &impl Abort, token: u8, at: u64) -> Result<(), Refused> {
        if !self.reads(rt, token) {
            return Err(Refused::Syntax { at });
        }
        if 64 < self.open {
            return Err(Refused::TooDeep { at });
        }
        if token == b'b' {
            return Err(Refused::NumberTooBig { at });
        }
        Ok(())
    }

    // Reads the word that has ended, if there is one.
    fn word(&mut self, rt: &impl Abort, word: Option<Word>) -> Result<(), Refused> {
        match word {
            Some(word) => self.token(rt, token(word), word.at),
            None => Ok(()),
        }
    }
}

/// Returns why and where a text is refused.
pub(super) fn plain(rt: &impl Rt, src: &[u8]) -> Result<(), Refused> {
    let mut rest = Rest {
        symbols: vec![in rt.alloc(); b'S'].expect(rt, "memory"),
        open: 0,
    };
    let mut word: Option<Word> = None;
    for (at, b) in src.iter().enumerate() {
        word = match word {
            Some(w) if goes_on(w, *b) => Some(longer(w, *b)),
            _ => {
                rest.word(rt, word)?;
                if b.is_ascii_digit() || is_letter(*b) {
                    Some(first(*b, at as u64))
                } else {
                    if *b != b' ' && *b != b'\n' {
                        rest.token(rt, sign(*b), at as u64)?;
                    }
                    None
                }
            }
        };
    }
    rest.word(rt, word)?;
    if rest.symbols.len() != 1 {
        return Err(Refused::Syntax {
            at: src.len() as u64,
        });
    }
    Ok(())
}
