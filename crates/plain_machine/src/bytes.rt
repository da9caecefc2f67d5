// The bytes of a block.
ghost use Rattle.std.specs.Prelude.{◌≡◌, ◌+◌, ◌^◌, ◌<◌, ◌++◌, IfOk, replicate, nat_lt, length, take, drop};
ghost use Rattle.arena_rules.specs.Lists as lists;

use arena_rules::OutOfMemory;
use short_bytes::Bytes;
use std::alloc::Global;

pub(crate) fn filled(alloc: Global, size: u64, fill: u8) -> Result<Bytes, OutOfMemory>
    ensures { IfOk result (λ bytes. bytes ≡ replicate size fill) }
{
    let items = vec![in alloc; fill; size as usize]?;
    Bytes::from_vec(alloc, items)
}

// The old bytes, and then `more` fill bytes.
pub(crate) fn grown(alloc: Global, old: &[u8], more: u64, fill: u8) -> Result<Bytes, OutOfMemory>
    ensures { IfOk result (λ bytes. bytes ≡ old.now ++ replicate more fill) }
{
    let mut all = Vec::from_slice(alloc, old)?;
    let more = filled(alloc, more, fill)?;
    all.extend_from_slice(more.as_slice())?;
    Bytes::from_vec(alloc, all)
}

// The first `size` bytes, or all.
pub(crate) fn shrunk(alloc: Global, old: &[u8], size: u64) -> Result<Bytes, OutOfMemory>
    ensures { IfOk result (λ bytes. bytes ≡ take size old.now) }
{
    let mut all = Vec::from_slice(alloc, old)?;
    all.truncate(size as usize);
    Bytes::from_vec(alloc, all)
}

// Whether `n` bytes from `at` on exceed a block of `size` bytes.
pub(crate) fn is_past(size: u64, at: u64, n: u64) -> bool
    ensures { result ≡ nat_lt size (at + n) }
{
    match at.checked_add(n) {
        Some(end) => size < end,
        None => true,
    }
}

// The old bytes with new ones in place of those from this one on.
pub(crate) fn splice(alloc: Global, old: &[u8], at: u64, new: &[u8]) -> Result<Bytes, OutOfMemory>
    requires { at + length new.now < 2 ^ 64 }
    ensures { IfOk result (λ bytes. bytes ≡ lists.splice old.now at new.now) }
{
    let mut all = Vec::from_slice(alloc, old)?;
    all.truncate(at as usize);
    let rest = from(old, at + new.len() as u64);
    if all.extend_from_slice(new).is_err() || all.extend_from_slice(rest).is_err() {
        return Err(OutOfMemory);
    }
    Bytes::from_vec(alloc, all)
}

// The bytes from this one on.
fn from(bytes: &[u8], at: u64) -> &[u8]
    ensures { result.now ≡ drop at bytes.now }
{
    if at < bytes.len() as u64 {
        &bytes[at as usize..]
    } else {
        &[]
    }
}
