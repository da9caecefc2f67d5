// The next table of a map, and inserts that place one.
ghost use Rattle.std.specs.Prelude.{◌≡◌, ◌+◌, ◌^◌, ◌<◌, ◌≤◌, ◌==◌, [], ◌∷◌, None, IfOk, OnErr};
ghost use Rattle.std.specs.Prelude.{if◌then◌else◌};
ghost use Rattle.arena_chunks.specs.Frame.{Frame};
ghost use Rattle.arena_items.specs.Room.{MakesRoom};
ghost use Rattle.arena_items.specs.declared.room.Growth.TheVariants.{GrowsTo, Overflows};
ghost use Rattle.hash_ring.specs.Policy.{limit, most_pairs, next_slots, slot_size, table_align};
ghost use Rattle.hash_ring.specs.Slots.{Lacks, Moved};
ghost use Rattle.arena_table.specs.Contents.{kind, content_in};
ghost use Rattle.arena_table.specs.Tables.{slots_in, IsTableIn, IsTextBeside};
ghost use Rattle.arena_hash.specs.Changes.{Puts, is_value};
ghost use Rattle.arena_hash.specs.Maps.{IsMapIn};

use crate::map::HashMap;
use arena_chunks::{Allocator, ChunkSource};
use arena_items::{AllocError, Grown, Item};
use arena_table::{ArenaKey, Table};
use hash_ring::{KeyHasher, next_slots};

impl<K: ArenaKey, V: Item, S: KeyHasher> HashMap<K, V, S> {
    // Places the next table, with all pairs of this one.
    #[cold]
    #[inline(never)]
    pub(crate) fn grown<C: ChunkSource>(&self, a: &mut Allocator<C>) -> Grown<Table<K, V>>
        requires keys_small { K.SIZE ≤ 2 ^ 24 }
        requires values_small { V.SIZE ≤ 2 ^ 24 }
        requires held { IsTableIn
            (kind K.Item K.key V.Item S.hash_of) a.old.memory self.now.hasher self.now.table }
        requires full { limit self.now.table.slots ≤ self.now.len }
        ensures made { MakesRoom (slot_size K.SIZE V.SIZE)
            (table_align K.ALIGN V.ALIGN) a.old a.new self.now.table.block 0
            (if self.now.len == most_pairs then Overflows else GrowsTo (next_slots self.now.table.slots))
            (λ t. t.block) result }
        ensures held { IfOk result (IsTableIn
            (kind K.Item K.key V.Item S.hash_of) a.new.memory self.now.hasher) }
        ensures slots { IfOk result (λ t. t.slots ≡ next_slots self.now.table.slots) }
        ensures moved { IfOk result (λ t. Moved (slots_in K.Item V.Item a.old.memory self.now.table)
            (slots_in K.Item V.Item a.new.memory t)) }
        ensures frame { IfOk result (λ t. Frame a.old.memory a.new.memory [] (t.block ∷ [])) }
        ensures err { OnErr result (a.new.memory ≡ a.old.memory) }
    {
        if self.len == u32::MAX {
            return Err(AllocError::CapacityOverflow);
        }
        let table = Table::<K, V>::place(a, next_slots(self.table.slots))?;
        table.carry_all(a, &self.hasher, self.table);
        Ok(table)
    }

    // Places the next table and inserts a pair with a new content. A separate function, so that an insert that doesn't
    // grow the table writes nothing for it.
    #[cold]
    #[inline(never)]
    pub(crate) fn insert_grown<C: ChunkSource>(
        &mut self,
        a: &mut Allocator<C>,
        hash: u64,
        key: K,
        value: V,
    ) -> Grown<Option<V>>
        requires keys_small { K.SIZE ≤ 2 ^ 24 }
        requires values_small { V.SIZE ≤ 2 ^ 24 }
        requires held { IsMapIn (kind K.Item K.key V.Item S.hash_of) a.old.memory self.old }
        requires text { IsTextBeside K.key a.old.memory self.old.table.block key }
        requires hash { hash ≡ S.hash_of self.old.hasher (content_in K.key a.old.memory key) }
        requires lacks { Lacks (λ p. content_in K.key a.old.memory p.0)
            (slots_in K.Item V.Item a.old.memory self.old.table) (content_in K.key a.old.memory key) }
        requires full { limit self.old.table.slots ≤ self.old.len }
        ensures { Puts (kind K.Item K.key V.Item S.hash_of) a.old a.new self.old key value is_value
            self.new result }
    {
        self.table = self.grown(a)?;
        self.table.settle(a, &self.hasher, hash, key, value);
        self.len += 1;
        Ok(None)
    }
}
