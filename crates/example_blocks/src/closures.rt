// Values that closures return.
ghost use Rattle.std.specs.Prelude.{◌≡◌, ◌*◌, length, replicate};
ghost use Rattle.arena_items.specs.Typed.{PlacesSlice};

use arena_items::{ArenaItems, BoxSlice, Item, ItemErr};

/// Places `n` numbers, each of which is the size of all of them in bytes. The closure can't overflow: it is called
/// only once there is a place for them, and then the product fits in 64 bits.
///
/// # Errors
///
/// Those of `alloc_slice_fill_with`. Nothing changes.
pub fn fill_with_size<A: ArenaItems>(a: &mut A, n: u64) -> Result<BoxSlice<u64>, ItemErr>
    ensures { PlacesSlice ⟦<u64 as Item>⟧ (A.view a.old) (A.view a.new) n
        (λ list. list ≡ replicate n (n * 8)) result }
{
    let sizes = a.alloc_slice_fill_with(n, |_| n * 8)?;
    Ok(sizes)
}

/// Places a copy of a slice, through a closure that reads it by index.
///
/// # Errors
///
/// Those of `alloc_slice_fill_with`. Nothing changes.
pub fn place_copy<A: ArenaItems>(a: &mut A, src: &[u32]) -> Result<BoxSlice<u32>, ItemErr>
    ensures { PlacesSlice ⟦<u32 as Item>⟧ (A.view a.old) (A.view a.new) (length src.now)
        (λ list. list ≡ src.now) result }
{
    let copies = a.alloc_slice_fill_with(src.len() as u64, |i| src[i as usize])?;
    Ok(copies)
}
