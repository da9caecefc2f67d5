// Copies of sequences of values.
ghost use Rattle.std.specs.Prelude.{◌*◌, ◌^◌, ◌≤◌, [], ◌∷◌, IsTrue};
ghost use Rattle.arena_chunks.specs.Memory.{is_readable};
ghost use Rattle.arena_items.specs.Values.{bytes_of, elements};
ghost use Rattle.arena_clone.specs.Kinds.{row_of};
ghost use Rattle.arena_clone.specs.Origins.{AreBeside};
ghost use Rattle.arena_clone.specs.Rows.{CopiesRow};

use crate::clone_in::CloneIn;
use crate::origin::Origin;
use arena_chunks::{Allocator, Block, ChunkSource};
use arena_items::{Grown, Item, item_at, put_item};
use arena_kinds::CloneInSemanticIds;

// A row of values in its block, and the block for their copies.
#[derive(Clone, Copy)]
pub(crate) struct Row {
    pub(crate) source: Block,
    pub(crate) count: u64,
    pub(crate) target: Block,
}

// Copies the values of a row: in one move of memory if they are flat, and otherwise one after another.
pub(crate) fn copy_row<T: CloneIn + Item, O: Origin<D>, D: ChunkSource>(
    row: Row,
    ids: CloneInSemanticIds,
    from: &O,
    to: &mut Allocator<D>,
) -> Grown<()>
    requires small { T.SIZE ≤ 2 ^ 24 }
    requires kind { T.kind.is_small }
    requires source { IsTrue (is_readable (O.there from.now to.old.memory).state row.source) }
    requires source_room { row.count * T.SIZE ≤ row.source.size }
    requires values { (row_of T.kind).is_held (O.there from.now to.old.memory)
        (elements T.SIZE T.decoded row.count (bytes_of (O.there from.now to.old.memory) row.source)) }
    requires target { IsTrue (is_readable to.old.memory.state row.target) }
    requires target_room { row.count * T.SIZE ≤ row.target.size }
    requires beside { AreBeside O.is_beside (row.source ∷ (row_of T.kind).deep (O.there from.now to.old.memory)
        (elements T.SIZE T.decoded row.count (bytes_of (O.there from.now to.old.memory) row.source))) (row.target ∷ []) }
    ensures { CopiesRow T.kind ids (O.there from.now to.old.memory) to.old to.new row.target
        (elements T.SIZE T.decoded row.count (bytes_of (O.there from.now to.old.memory) row.source))
        (elements T.SIZE T.decoded row.count (bytes_of to.new.memory row.target)) result }
{
    if T::is_flat(ids) {
        from.copy_front(row.source, to, row.target, row.count * T::SIZE);
        return Ok(());
    }
    for i in 0..row.count {
        let value: T = item_at(from.arena(to), row.source, i);
        let copy = value.copy_of(ids, from, to)?;
        put_item(to, row.target, i, copy);
    }
    Ok(())
}
