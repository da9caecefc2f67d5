// Values that equal the last one kept before them.
ghost use Rattle.std.specs.Prelude.{List, ◌*◌, ◌^◌, ◌≤◌, [], ◌∷◌, IsTrue};
ghost use Rattle.std.specs.Fn.{CalledAtPairMut, ComparesKeys};
ghost use Rattle.std.specs.List.{dedup};
ghost use Rattle.std.specs.List.Retain.{IsDeduped};
ghost use Rattle.arena_chunks.specs.Memory.{is_readable};
ghost use Rattle.arena_chunks.specs.Frame.{Frame};
ghost use Rattle.arena_items.specs.Values.{bytes_of, elements};
ghost use Rattle.arena_vec.specs.Calling.{CallableInDedup, TakesAtPairMut, TakesTwice};
ghost use Rattle.arena_vec.specs.Vecs.{IsVecIn, vec_list};
ghost use Rattle.arena_items.specs.Room.{SamePlaces};
ghost use Rattle.arena_vec.specs.Changes.{Becomes};

use crate::vec::Vec;
use arena_chunks::{Allocator, Block, ChunkSource};
use arena_items::{Item, item_at, put_item};

// Moves the values that stay to the front, and returns their number. The last one is written only when the next one is
// found, since each test until then may change it.
#[tactic(auto, using(arena_items::proofs::Layers::rows_before))]
fn merge<T: Item, C: ChunkSource, F: FnMut(&mut T, &mut T) -> bool>(
    a: &mut Allocator<C>,
    block: Block,
    len: u32,
    f: F,
) -> u32
where
    F: Drop,
    requires small { T.SIZE ≤ 2 ^ 24 }
    requires readable { IsTrue (is_readable a.old.memory.state block) }
    requires room { len * T.SIZE ≤ block.size }
    requires callable { CallableInDedup (CalledAtPairMut F.FnMut) (TakesAtPairMut F.FnMut)
        (elements T.SIZE T.decoded len (bytes_of a.old.memory block)) f }
    ensures fewer { result ≤ len }
    ensures list { IsDeduped (CalledAtPairMut F.FnMut) f
        (elements T.SIZE T.decoded len (bytes_of a.old.memory block))
        (elements T.SIZE T.decoded result (bytes_of a.new.memory block)) }
    ensures places { SamePlaces a.old a.new }
    ensures frame { Frame a.old.memory a.new.memory (block ∷ []) (block ∷ []) }
{
    if len == 0 {
        return 0;
    }
    let mut f = f;
    let mut last: T = item_at(a, block, 0);
    let mut before = 0u32;
    for k in 1..len {
        let mut item: T = item_at(a, block, k as u64);
        if !f(&mut item, &mut last) {
            put_item(a, block, before as u64, last);
            before += 1;
            last = item;
        }
    }
    put_item(a, block, before as u64, last);
    before + 1
}

// Returns whether two values have equal keys. It is a function of its own, since inside a closure the two calls get no
// proof.
fn have_same_key<T: Item, K: PartialEq + Drop, F: FnMut(&mut T) -> K>(
    key: &mut F,
    x: &mut T,
    y: &mut T,
) -> bool
    requires { TakesTwice F.FnMut key.old x.old y.old }
    ensures { ComparesKeys F.FnMut K.eq key.old x.old y.old result key.new x.new y.new }
{
    key(x) == key(y)
}

#[tactic(auto, using(crate::proofs::VecLemmas::vec_laws, crate::proofs::VecLemmas::becomes, crate::proofs::VecLemmas::still_held))]
impl<T: Item> Vec<T> {
    /// Removes each value that a test says equals the last one kept. The test gets the value first and the last one
    /// kept second, and may change both.
    pub fn dedup_by<C: ChunkSource, F: FnMut(&mut T, &mut T) -> bool>(
        &mut self,
        a: &mut Allocator<C>,
        f: F,
    )
    where
        F: Drop,
        requires small { T.SIZE ≤ 2 ^ 24 }
        requires held { IsVecIn T.Item a.old.memory self.old }
        requires callable { CallableInDedup (CalledAtPairMut F.FnMut) (TakesAtPairMut F.FnMut)
            (vec_list T.Item a.old.memory self.old) f }
        ensures becomes { (list : List T) × IsDeduped (CalledAtPairMut F.FnMut) f
            (vec_list T.Item a.old.memory self.old) list
            × Becomes T.Item a.old a.new self.old list self.new }
        ensures held { IsVecIn T.Item a.new.memory self.new }
        ensures places { SamePlaces a.old a.new }
        ensures frame { Frame a.old.memory a.new.memory (self.old.raw.block ∷ []) (self.new.raw.block ∷ []) }
    {
        self.raw.len = merge(a, self.raw.block, self.raw.len, f);
    }

    /// Removes each value whose key equals that of the last one kept. The value's own key is computed first.
    pub fn dedup_by_key<C: ChunkSource, K: PartialEq + Drop, F: FnMut(&mut T) -> K>(
        &mut self,
        a: &mut Allocator<C>,
        key: F,
    )
    where
        F: Drop,
        requires small { T.SIZE ≤ 2 ^ 24 }
        requires held { IsVecIn T.Item a.old.memory self.old }
        requires callable { CallableInDedup (ComparesKeys F.FnMut K.eq) (TakesTwice F.FnMut)
            (vec_list T.Item a.old.memory self.old) key }
        ensures becomes { (list : List T) × IsDeduped (ComparesKeys F.FnMut K.eq) key
            (vec_list T.Item a.old.memory self.old) list
            × Becomes T.Item a.old a.new self.old list self.new }
        ensures held { IsVecIn T.Item a.new.memory self.new }
        ensures places { SamePlaces a.old a.new }
        ensures frame { Frame a.old.memory a.new.memory (self.old.raw.block ∷ []) (self.new.raw.block ∷ []) }
    {
        let mut key = key;
        self.dedup_by(
            a,
            |x, y|
                requires { TakesTwice F.FnMut key x.old y.old }
                ensures { ComparesKeys F.FnMut K.eq key.entry x.old y.old result key.exit x.new y.new }
            { have_same_key(&mut key, x, y) },
        );
    }
}

impl<T: Item + PartialEq> Vec<T> {
    /// Removes each value that equals the last one kept.
    pub fn dedup<C: ChunkSource>(&mut self, a: &mut Allocator<C>)
        requires small { T.SIZE ≤ 2 ^ 24 }
        requires held { IsVecIn T.Item a.old.memory self.old }
        ensures { let list = dedup T.eq (vec_list T.Item a.old.memory self.old) in
            Becomes T.Item a.old a.new self.old list self.new }
    {
        self.dedup_by(a, |x, y| *x == *y);
    }
}
