// Loops over interners and scopes.
ghost use Rattle.std.specs.Prelude.{IfOk};
ghost use Rattle.arena_symbols.specs.Names.{IsInternerIn};
ghost use Rattle.arena_symbols.specs.Tables.{entry_item, IsTableIn};

use super::maps::key;
use super::{Bench, Clock, Failed, Heap, Timed, count};
use arena_symbols::{Scopes, Symbols};
use std::alloc::{AllocError, Global};

// The number of ids with which a scope shadows those of the outer scope.
const FEW: u32 = 4;

pub(super) fn time(bench: &Bench) -> Result<(), Failed> {
    bench.time("intern_new", 1_000_000, intern_new)?;
    bench.time("intern_known", 1_000_000, intern_known)?;
    bench.time("scope_define", 1_000_000, scope_define)?;
    bench.time("scope_lookup", 1_000_000, scope_lookup)?;
    bench.time("scope_enter", 10_000_000, scope_enter)
}

// Returns `n` distinct texts.
fn texts(alloc: Global, n: u32) -> Result<Vec<String>, AllocError> {
    let mut texts = Vec::with_capacity(alloc, n as usize)?;
    for i in 0..n {
        let number = key(i);
        texts.push(format!(in alloc; "name {number}")?)?;
    }
    Ok(texts)
}

// Interns each text, in an interner that may have it already, and adds up the numbers.
fn interned(a: &mut Heap, symbols: &mut Symbols, texts: &[String]) -> Result<u64, Failed>
    requires { IsInternerIn a.old.memory symbols.old }
    ensures { IfOk result (λ _. IsInternerIn a.new.memory symbols.new) }
{
    let mut number: u64 = 0;
    for text in texts {
        if text.len() >= 1 << 32 {
            return Err(Failed::NoPlace);
        }
        number = number.wrapping_add(symbols.intern(a, text.as_str())? as u64);
    }
    Ok(number)
}

// Texts that are interned for the first time.
fn intern_new(rt: &HostRuntime, a: &mut Heap, calls: u64) -> Result<Timed, Failed> {
    let texts = texts(rt.alloc(), count(calls)?)?;
    let mut symbols = Symbols::new_in();
    let clock = Clock::start(rt);
    let number = interned(a, &mut symbols, &texts)?;
    clock.stop(rt, number)
}

// Texts that are interned already.
fn intern_known(rt: &HostRuntime, a: &mut Heap, calls: u64) -> Result<Timed, Failed> {
    let texts = texts(rt.alloc(), count(calls)?)?;
    let mut symbols = Symbols::new_in();
    interned(a, &mut symbols, &texts)?;
    let clock = Clock::start(rt);
    let number = interned(a, &mut symbols, &texts)?;
    clock.stop(rt, number)
}

// Returns a scope in which `n` ids are defined.
fn defined(a: &mut Heap, n: u32) -> Result<Scopes, Failed>
    ensures { IfOk result (IsTableIn entry_item a.new.memory) }
{
    let mut scopes = Scopes::new_in();
    for i in 0..n {
        scopes.define(a, key(i), i)?;
    }
    Ok(scopes)
}

// Ids that are defined in one scope.
fn scope_define(rt: &HostRuntime, a: &mut Heap, calls: u64) -> Result<Timed, Failed> {
    let n = count(calls)?;
    let clock = Clock::start(rt);
    let scopes = defined(a, n)?;
    clock.stop(rt, scopes.pairs.len() as u64)
}

// Ids that are looked up, of which half are defined.
fn scope_lookup(rt: &HostRuntime, a: &mut Heap, calls: u64) -> Result<Timed, Failed> {
    let n = count(calls)?;
    let scopes = defined(a, n)?;
    let clock = Clock::start(rt);
    let mut number: u64 = 0;
    for i in 0..n {
        if let Some(value) = scopes.lookup(a, key(i.wrapping_mul(2))) {
            number = number.wrapping_add(value as u64);
        }
    }
    clock.stop(rt, number)
}

// Enters and leaves scopes, in each of which some ids shadow those of the outer scope. Returns the number of their
// pairs.
fn nested(a: &mut Heap, scopes: &mut Scopes, n: u32) -> Result<u64, Failed>
    requires { IsTableIn entry_item a.old.memory scopes.old }
{
    let mut number: u64 = 0;
    for i in 0..n {
        scopes.enter(a)?;
        for k in 0..FEW {
            scopes.define(a, key(k), i)?;
        }
        number = number.wrapping_add(scopes.pairs.len() as u64);
        scopes.leave(a);
    }
    Ok(number)
}

// Scopes that are entered and left, in each of which four ids shadow those of the outer scope. A call is one scope.
fn scope_enter(rt: &HostRuntime, a: &mut Heap, calls: u64) -> Result<Timed, Failed> {
    let n = count(calls)?;
    let mut scopes = defined(a, FEW)?;
    let clock = Clock::start(rt);
    let number = nested(a, &mut scopes, n)?;
    clock.stop(rt, number)
}
