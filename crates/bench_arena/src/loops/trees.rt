// A loop over trees.
ghost use Rattle.std.specs.Prelude.{◌^◌, ◌<◌, ◌≤◌, length};

use super::{Bench, Clock, Failed, Heap, Timed, with_capacity};
use arena_tree::Tree;
use std::alloc::{AllocError, Global};

// The number of lines of the text, and the deepest nesting of its blocks.
const COUNT: u32 = 700;

const DEEPEST: u64 = 20;

// Statements as `bench/lint.sh` makes them: each `v` is replaced by a name, and each `#` by a number.
const STATEMENTS: [&str; 32] = [
    "(((v * (v) * # - (# * # + v + v - v) * v * #)) * (v - (#) * #));",
    "let v = v * (v * # + -# * (v * v + v + v * v * #)) * (v) * -#;",
    "(v * (v * v * -v) * # - v);",
    "-v * # - v * v;",
    "let v = v * (((# + v)) + v * v * (v - # - # - # - v - # * #) * (v));",
    "let v = (v) + # * (# + (v - v * v) + #) * (v - (# * v));",
    "let v = (((v)) * (v) * (v) * # * --(v * v - #) - v);",
    "let v = v * v - v - (v) + (# * # * (v + v) - (#)) - (v) + (v) * ((v));",
    "let v = (((v + (v + v) * v) + v + (v) * (v * v + v)));",
    "let v = #;",
    "#;",
    "let v = v - (v + # * (# - v * v - v) * v) * (v);",
    "let v = (((# * -# * v + #)));",
    "# + # * v + -(v) - (# * ((v + #) * v * # * v * v));",
    "let v = v;",
    "v;",
    "v;",
    "--#;",
    "let v = # * ((((v)) + # - v * v)) - -(-v) + ((v + v * v) - (# * # + #));",
    "v;",
    "# - ((v)) + -(((v - v * # + v) * v * v * v) * # * v) * (v);",
    "let v = v * -v * -v - v;",
    "let v = -((v) + v * v);",
    "let v = (v * v) * (#) + (-v * -#);",
    "-((((# + v * v + v + #) + v) + v)) * (v * (# - v - v + v) - v);",
    "let v = v - ((v * (# * #) * v) * (v + # * v));",
    "let v = (# * (-v));",
    "# * v;",
    "(((v * (#))));",
    "(# - v + v - v + -(-v * # * v) - #) + -# * v * v * v;",
    "let v = v;",
    "v - (((v + v) * v * # - #) * v * # * #);",
];

pub(super) fn time(bench: &Bench) -> Result<(), Failed> {
    bench.time("tree_parse", 20_000_000, tree_parse)
}

// Returns a pseudo-random number below `below`, by the generator of `bench/lint.sh`.
fn draw(seed: &mut u64, below: u64) -> u64
    requires { 0 < below }
    ensures { result < below }
{
    *seed = seed.wrapping_mul(16_807) % 2_147_483_647;
    *seed / 7 % below
}

// Appends the digits of a number.
fn put_number(alloc: Global, text: &mut Vec<u8>, number: u64) -> Result<(), AllocError> {
    text.extend_from_slice(format!(in alloc; "{number}")?.as_bytes())?;
    Ok(())
}

// Appends a statement with names and numbers.
fn put_statement(
    alloc: Global,
    text: &mut Vec<u8>,
    seed: &mut u64,
    statement: &str,
) -> Result<(), AllocError> {
    for b in statement.as_bytes() {
        match *b {
            b'v' => {
                text.push(b'v')?;
                put_number(alloc, text, draw(seed, 400))?;
            }
            b'#' => put_number(alloc, text, draw(seed, 100_000))?,
            other => text.push(other)?,
        }
    }
    text.push(b'\n')?;
    Ok(())
}

// Appends the text: statements, and blocks of them.
fn put_source(alloc: Global, text: &mut Vec<u8>) -> Result<(), AllocError> {
    let mut seed: u64 = 1;
    let mut depth: u64 = 0;
    for _ in 0..COUNT {
        match draw(&mut seed, 12) {
            0 if depth < DEEPEST => {
                text.extend_from_slice(b"{\n")?;
                depth += 1;
            }
            1 if depth > 0 => {
                text.extend_from_slice(b"}\n")?;
                depth -= 1;
            }
            _ => {
                let statement = STATEMENTS[draw(&mut seed, 32) as usize];
                put_statement(alloc, text, &mut seed, statement)?;
            }
        }
    }
    for _ in 0..depth {
        text.extend_from_slice(b"}\n")?;
    }
    Ok(())
}

// Parses the text `times` times, each time after a reset, and adds up its bytes and its statements.
fn parsed(a: &mut Heap, src: &[u8], times: u64) -> Result<u64, Failed>
    requires { length src.now ≤ 2 ^ 24 }
{
    let mut number: u64 = 0;
    for _ in 0..times {
        a.reset();
        let tree = Tree::parse(a, src)?;
        number = number
            .wrapping_add(src.len() as u64)
            .wrapping_add(tree.stmts.len() as u64);
    }
    Ok(number)
}

// Parses the text until about `calls` bytes are parsed.
fn parsed_often(rt: &HostRuntime, a: &mut Heap, src: &[u8], calls: u64) -> Result<Timed, Failed> {
    let bytes = src.len() as u64;
    if bytes == 0 || bytes > 1 << 24 {
        return Err(Failed::NoPlace);
    }
    parsed(a, src, 1)?;
    let clock = Clock::start(rt);
    let number = parsed(a, src, (calls / bytes).max(1))?;
    clock.stop(rt, number)
}

// A text that is parsed into a tree again and again, each time after a reset. A call is a byte of the text.
fn tree_parse(rt: &HostRuntime, a: &mut Heap, calls: u64) -> Result<Timed, Failed> {
    *a = with_capacity(rt, 1 << 22)?;
    let mut text = Vec::new(rt.alloc());
    put_source(rt.alloc(), &mut text)?;
    parsed_often(rt, a, text.as_slice(), calls)
}
