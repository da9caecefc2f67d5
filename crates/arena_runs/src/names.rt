// The blocks that calls hold by name.
ghost use Rattle.std.specs.Prelude.{◌≡◌, false, IfOk, IsSome, IsTrue};
ghost use Rattle.std.specs.FinMap as map;
ghost use Rattle.call_rules.specs.Machine.{is_left};
ghost use Rattle.arena_runs.specs.Runs.{held_blocks};
ghost use Rattle.arena_runs.specs.Marks.{stands};

use arena_core::Arena;
use arena_rules::{OutOfMemory, Place};
use arena_store::Block;
use name_map::Names;
use std::alloc::Global;

/// Gives a held name another place. Doesn't allocate.
#[inline(always)]
pub(crate) fn replace(names: &mut Names<Place>, name: u32, place: Place)
    requires { IsSome (map.get names.old name) }
    ensures { names.new ≡ map.insert names.old name place }
{
    match names.insert(name, place) {
        Ok(()) => {}
        Err(_) => unreachable!(),
    }
}

/// Removes a name whose block isn't in use. Returns whether the block is in use and isn't empty.
pub(crate) fn keep<const M: usize>(names: &mut Names<Place>, arena: &Arena<M>, name: u32) -> bool
    ensures answer { result ≡ stands arena.now.state names.old name }
    ensures left { IsTrue (is_left arena.now.state names.old name) → names.new ≡ names.old }
    ensures ended { is_left arena.now.state names.old name ≡ false → names.new ≡ map.remove names.old name }
{
    let Some(place) = names.get(name) else {
        return false;
    };
    if !arena.is_held_place(arena.block_at(place)) {
        names.remove(name);
        return false;
    }
    place.size > 0
}

/// Returns the names and their blocks, each of this generation, by ascending name.
pub(crate) fn blocks(
    alloc: Global,
    names: &Names<Place>,
    generation: u64,
) -> Result<Vec<(u32, Block)>, OutOfMemory>
    ensures { IfOk result (λ blocks. blocks.items ≡ held_blocks generation names.now) }
{
    let entries = names.entries(alloc)?;
    let mut blocks = Vec::new(alloc);
    for (name, place) in &entries {
        let block = Block {
            generation,
            addr: place.addr,
            size: place.size,
            align: place.align,
        };
        blocks.push((*name, block))?;
    }
    Ok(blocks)
}
