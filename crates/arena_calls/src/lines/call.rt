// Reads a call from the front of a line.
ghost use Rattle.std.specs.Prelude.{IfOk, codes};
ghost use Rattle.std.specs.Option.{option_transpose};
ghost use Rattle.call_rules.specs.Grammar.{Fits, call_line};
ghost use Rattle.line_parts.specs.Reads.{Reads};
ghost use Rattle.arena_calls.specs.Lines.{BeginsWith};

use call_rules::Call;
use line_parts::{behind, byte_field, field, hex_bytes, name_field};
use std::alloc::{AllocError, Global};

fn read_alloc(bytes: &[u8]) -> Option<(Call, &[u8])>
    ensures { Reads (BeginsWith (codes "alloc ")) call_line bytes.now result }
{
    let rest = behind(bytes, b"alloc")?;
    let (name, rest) = name_field(rest)?;
    let (size, rest) = field(rest, u64::MAX)?;
    let (align, rest) = field(rest, u64::MAX)?;
    let (fill, rest) = byte_field(rest)?;
    let call = Call::Alloc {
        name,
        size,
        align,
        fill,
    };
    Some((call, rest))
}

fn read_grow(bytes: &[u8]) -> Option<(Call, &[u8])>
    ensures { Reads (BeginsWith (codes "g")) call_line bytes.now result }
{
    let rest = behind(bytes, b"grow")?;
    let (name, rest) = name_field(rest)?;
    let (size, rest) = field(rest, u64::MAX)?;
    let (align, rest) = field(rest, u64::MAX)?;
    let (fill, rest) = byte_field(rest)?;
    let call = Call::Grow {
        name,
        size,
        align,
        fill,
    };
    Some((call, rest))
}

fn read_shrink(bytes: &[u8]) -> Option<(Call, &[u8])>
    ensures { Reads (BeginsWith (codes "s")) call_line bytes.now result }
{
    let rest = behind(bytes, b"shrink")?;
    let (name, rest) = name_field(rest)?;
    let (size, rest) = field(rest, u64::MAX)?;
    let (align, rest) = field(rest, u64::MAX)?;
    Some((Call::Shrink { name, size, align }, rest))
}

fn read_dealloc(bytes: &[u8]) -> Option<(Call, &[u8])>
    ensures { Reads (BeginsWith (codes "d")) call_line bytes.now result }
{
    let rest = behind(bytes, b"dealloc")?;
    let (name, rest) = name_field(rest)?;
    Some((Call::Dealloc { name }, rest))
}

fn read_read(bytes: &[u8]) -> Option<(Call, &[u8])>
    ensures { Reads (BeginsWith (codes "read")) call_line bytes.now result }
{
    let rest = behind(bytes, b"read")?;
    let (name, rest) = name_field(rest)?;
    Some((Call::Read { name }, rest))
}

fn read_write(alloc: Global, bytes: &[u8]) -> Option<Result<(Call, &[u8]), AllocError>>
    ensures { IfOk (option_transpose result) (λ o. Reads (BeginsWith (codes "w")) call_line bytes.now o) }
{
    let rest = behind(bytes, b"write")?;
    let (name, rest) = name_field(rest)?;
    let (at, rest) = field(rest, u64::MAX)?;
    let rest = behind(rest, b" ")?;
    match hex_bytes(alloc, rest) {
        Ok(Some((bytes, rest))) => Some(Ok((Call::Write { name, at, bytes }, rest))),
        Ok(None) => None,
        Err(failed) => Some(Err(failed)),
    }
}

fn read_mark(bytes: &[u8]) -> Option<(Call, &[u8])>
    ensures { Reads (BeginsWith (codes "m")) call_line bytes.now result }
{
    let rest = behind(bytes, b"mark")?;
    let (name, rest) = name_field(rest)?;
    Some((Call::Mark { name }, rest))
}

fn read_back(bytes: &[u8]) -> Option<(Call, &[u8])>
    ensures { Reads (BeginsWith (codes "b")) call_line bytes.now result }
{
    let rest = behind(bytes, b"back")?;
    let (name, rest) = name_field(rest)?;
    Some((Call::Back { name }, rest))
}

// `alloc` is the front of `allocated`.
fn read_alloc_or_allocated(bytes: &[u8]) -> Option<(Call, &[u8])>
    ensures { Reads (BeginsWith (codes "a")) call_line bytes.now result }
{
    if let Some(rest) = behind(bytes, b"allocated") {
        return Some((Call::Allocated, rest));
    }
    read_alloc(bytes)
}

fn read_read_or_reset(bytes: &[u8]) -> Option<(Call, &[u8])>
    ensures { Reads (BeginsWith (codes "r")) call_line bytes.now result }
{
    if let Some(rest) = behind(bytes, b"reset") {
        return Some((Call::Reset, rest));
    }
    read_read(bytes)
}

fn read_used(bytes: &[u8]) -> Option<(Call, &[u8])>
    ensures { Reads (BeginsWith (codes "u")) call_line bytes.now result }
{
    let rest = behind(bytes, b"used")?;
    Some((Call::Used, rest))
}

/// Reads the call at the front. Returns it and the rest, or `None` where there is no call.
///
/// # Errors
///
/// Out of memory.
pub fn read_call(alloc: Global, bytes: &[u8]) -> Result<Option<(Call, &[u8])>, AllocError>
    ensures { IfOk result (λ o. Reads Fits call_line bytes.now o) }
{
    let Some((first, _)) = bytes.split_first() else {
        return Ok(None);
    };
    match *first {
        b'a' => Ok(read_alloc_or_allocated(bytes)),
        b'b' => Ok(read_back(bytes)),
        b'd' => Ok(read_dealloc(bytes)),
        b'g' => Ok(read_grow(bytes)),
        b'm' => Ok(read_mark(bytes)),
        b'r' => Ok(read_read_or_reset(bytes)),
        b's' => Ok(read_shrink(bytes)),
        b'u' => Ok(read_used(bytes)),
        b'w' => read_write(alloc, bytes).transpose(),
        _ => Ok(None),
    }
}
