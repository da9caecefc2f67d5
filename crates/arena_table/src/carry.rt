// All pairs of a table move to another: their keys are hashed again.
ghost use Rattle.std.specs.Prelude.{◌≡◌, ◌^◌, ◌<◌, ◌≤◌, [], ◌∷◌, Some, None};
ghost use Rattle.std.specs.Prelude.{length, replicate};
ghost use Rattle.std.specs.Option.{MatchOption};
ghost use Rattle.arena_chunks.specs.Frame.{Frame};
ghost use Rattle.arena_items.specs.Room.{SamePlaces};
ghost use Rattle.hash_ring.specs.Slots.{items, Moved};
ghost use Rattle.hash_ring.specs.Walks.{front_of, AreFree, CarriesNext, IsScan};
ghost use Rattle.arena_table.specs.Contents.{kind};
ghost use Rattle.arena_table.specs.Tables.{marks_in, slots_in, HasFree};
ghost use Rattle.arena_table.specs.Tables.{IsReadBeside, IsTableIn};

use crate::key::ArenaKey;
use crate::pairs::{key_at, value_at};
use crate::table::Table;
use arena_chunks::{Allocator, ChunkSource};
use arena_items::Item;
use hash_ring::{KeyHasher, Scan, start, step};

impl<K: ArenaKey, V: Item> Table<K, V> {
    // Inserts the next pair of a walk over another table, and returns where the walk continues, or `None` at its end.
    #[tactic(auto, using(crate::proofs::WalkLemmas::walk_laws))]
    #[inline(always)]
    fn carry<S: KeyHasher, C: ChunkSource>(
        self,
        a: &mut Allocator<C>,
        hasher: &S,
        from: Table<K, V>,
        scan: Scan,
    ) -> Option<Scan>
        requires keys_small { K.SIZE ≤ 2 ^ 24 }
        requires values_small { V.SIZE ≤ 2 ^ 24 }
        requires held { IsTableIn (kind K.Item K.key V.Item S.hash_of) a.old.memory hasher.now self }
        requires free { HasFree K.Item V.Item a.old.memory self }
        requires from { IsReadBeside (kind K.Item K.key V.Item S.hash_of) a.old.memory self.block from }
        requires scan { IsScan from.slots (marks_in a.old.memory from) scan }
        ensures held { IsTableIn (kind K.Item K.key V.Item S.hash_of) a.new.memory hasher.now self }
        ensures carries { MatchOption result (AreFree (marks_in a.old.memory from) (front_of scan) from.slots
            × (slots_in K.Item V.Item a.new.memory self ≡ slots_in K.Item V.Item a.old.memory self))
            (CarriesNext from.slots (marks_in a.old.memory from) (slots_in K.Item V.Item a.old.memory from)
            (slots_in K.Item V.Item a.old.memory self) (slots_in K.Item V.Item a.new.memory self) scan) }
        ensures places { SamePlaces a.old a.new }
        ensures frame { Frame a.old.memory a.new.memory (self.block ∷ []) (self.block ∷ []) }
    {
        let bytes = a.read(from.block);
        let (slot, next) = step(bytes, from.slots, scan);
        let Some(i) = slot else {
            return None;
        };
        let key = key_at::<K, V>(bytes, from.slots, i);
        let value = value_at::<K, V>(bytes, from.slots, i);
        let mut room = [0u8; 16];
        let hash = hasher.hash(key.content(a, &mut room));
        self.settle(a, hasher, hash, key, value);
        Some(next)
    }

    /// Inserts all pairs of another table into this one, which must be empty.
    #[tactic(auto, using(crate::proofs::WalkLemmas::walk_laws))]
    pub fn carry_all<S: KeyHasher, C: ChunkSource>(
        self,
        a: &mut Allocator<C>,
        hasher: &S,
        from: Table<K, V>,
    )
        requires keys_small { K.SIZE ≤ 2 ^ 24 }
        requires values_small { V.SIZE ≤ 2 ^ 24 }
        requires held { IsTableIn (kind K.Item K.key V.Item S.hash_of) a.old.memory hasher.now self }
        requires free { slots_in K.Item V.Item a.old.memory self ≡ replicate self.slots None }
        requires room { length (items (slots_in K.Item V.Item a.old.memory from)) < self.slots }
        requires from { IsReadBeside (kind K.Item K.key V.Item S.hash_of) a.old.memory self.block from }
        ensures held { IsTableIn (kind K.Item K.key V.Item S.hash_of) a.new.memory hasher.now self }
        ensures moved { Moved (slots_in K.Item V.Item a.old.memory from)
            (slots_in K.Item V.Item a.new.memory self) }
        ensures places { SamePlaces a.old a.new }
        ensures frame { Frame a.old.memory a.new.memory (self.block ∷ []) (self.block ∷ []) }
    {
        let mut scan = start(a.read(from.block), from.slots);
        'pairs: while let Some(next) = self.carry(a, hasher, from, scan) {
            scan = next;
        }
    }
}
