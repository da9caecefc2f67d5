// Copies of lists.
ghost use Rattle.std.specs.Prelude.{◌≡◌, ◌++◌, IfOk, take};

use arena_rules::OutOfMemory;
use std::alloc::Global;

pub(crate) fn copied<T: Copy>(alloc: Global, old: &[T]) -> Result<Vec<T>, OutOfMemory>
    ensures { IfOk result (λ all. all.items ≡ old.now) }
{
    Ok(Vec::from_slice(alloc, old)?)
}

// The first `len` items, or all.
pub(crate) fn first(alloc: Global, old: &[u32], len: usize) -> Result<Vec<u32>, OutOfMemory>
    ensures { IfOk result (λ all. all.items ≡ take len old.now) }
{
    let mut all = copied(alloc, old)?;
    all.truncate(len);
    Ok(all)
}

// The bytes of `front`, then those of `back`.
pub(crate) fn joined(alloc: Global, front: &[u8], back: &[u8]) -> Result<Vec<u8>, OutOfMemory>
    ensures { IfOk result (λ all. all.items ≡ front.now ++ back.now) }
{
    let mut all = copied(alloc, front)?;
    all.extend_from_slice(back)?;
    Ok(all)
}
