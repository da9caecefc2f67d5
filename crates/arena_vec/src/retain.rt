// Values that a test picks.
ghost use Rattle.std.specs.Prelude.{List, ◌*◌, ◌^◌, ◌≤◌, [], ◌∷◌, IsTrue, length};
ghost use Rattle.std.specs.Fn.{CalledAt, CalledAtMut};
ghost use Rattle.std.specs.List.Retain.{IsFiltered, RetainsInTurn};
ghost use Rattle.arena_chunks.specs.Memory.{is_readable};
ghost use Rattle.arena_chunks.specs.Frame.{Frame};
ghost use Rattle.arena_items.specs.Values.{bytes_of, elements};
ghost use Rattle.arena_vec.specs.Calling.{CallableOnList, CallableOnListMut};
ghost use Rattle.arena_vec.specs.Vecs.{IsVecIn, vec_list};
ghost use Rattle.arena_items.specs.Room.{SamePlaces};
ghost use Rattle.arena_vec.specs.Changes.{Becomes};

use crate::vec::Vec;
use arena_chunks::{Allocator, Block, ChunkSource};
use arena_items::Item;
use raw_vec::{put_in, value_in};

// Moves the values that a test picks to the front of their bytes, and returns their number. A value that it doesn't
// pick is written as well, where the next one that it picks will be, so that no branch depends on the test.
#[inline]
fn sift<T: Item, F: FnMut(&T) -> bool>(bytes: &mut [u8], len: u32, f: F) -> u32
where
    F: Drop,
    requires small { T.SIZE ≤ 2 ^ 24 }
    requires room { len * T.SIZE ≤ length bytes.old }
    requires callable { CallableOnList F.FnMut (elements T.SIZE T.decoded len bytes.old) f }
    ensures fewer { result ≤ len }
    ensures list { IsFiltered (CalledAt F.FnMut) f
        (elements T.SIZE T.decoded len bytes.old) (elements T.SIZE T.decoded result bytes.new) }
{
    let mut f = f;
    let mut kept = 0u32;
    for k in 0..len {
        let item: T = value_in(bytes, k as usize);
        put_in(bytes, kept as usize, item);
        kept += f(&item) as u32;
    }
    kept
}

// As `sift`, with a test that may change the values.
#[inline]
fn sift_mut<T: Item, F: FnMut(&mut T) -> bool>(bytes: &mut [u8], len: u32, f: F) -> u32
where
    F: Drop,
    requires small { T.SIZE ≤ 2 ^ 24 }
    requires room { len * T.SIZE ≤ length bytes.old }
    requires callable { CallableOnListMut F.FnMut (elements T.SIZE T.decoded len bytes.old) f }
    ensures fewer { result ≤ len }
    ensures list { RetainsInTurn (CalledAtMut F.FnMut) f
        (elements T.SIZE T.decoded len bytes.old) (elements T.SIZE T.decoded result bytes.new) }
{
    let mut f = f;
    let mut kept = 0u32;
    for k in 0..len {
        let mut item: T = value_in(bytes, k as usize);
        let picked = f(&mut item);
        put_in(bytes, kept as usize, item);
        kept += picked as u32;
    }
    kept
}

// Moves the values that a test picks to the front, and returns their number.
#[tactic(auto, using(arena_chunks::proofs::Layers::layer_laws))]
#[inline]
fn keep<T: Item, C: ChunkSource, F: FnMut(&T) -> bool>(
    a: &mut Allocator<C>,
    block: Block,
    len: u32,
    f: F,
) -> u32
where
    F: Drop,
    requires small { T.SIZE ≤ 2 ^ 24 }
    requires readable { IsTrue (is_readable a.old.memory.state block) }
    requires room { len * T.SIZE ≤ block.size }
    requires callable { CallableOnList F.FnMut (elements T.SIZE T.decoded len (bytes_of a.old.memory block)) f }
    ensures fewer { result ≤ len }
    ensures list { IsFiltered (CalledAt F.FnMut) f
        (elements T.SIZE T.decoded len (bytes_of a.old.memory block))
        (elements T.SIZE T.decoded result (bytes_of a.new.memory block)) }
    ensures places { SamePlaces a.old a.new }
    ensures frame { Frame a.old.memory a.new.memory (block ∷ []) (block ∷ []) }
{
    sift(a.read_mut(block), len, f)
}

// As `keep`, with a test that may change the values.
#[tactic(auto, using(arena_chunks::proofs::Layers::layer_laws))]
#[inline]
fn keep_mut<T: Item, C: ChunkSource, F: FnMut(&mut T) -> bool>(
    a: &mut Allocator<C>,
    block: Block,
    len: u32,
    f: F,
) -> u32
where
    F: Drop,
    requires small { T.SIZE ≤ 2 ^ 24 }
    requires readable { IsTrue (is_readable a.old.memory.state block) }
    requires room { len * T.SIZE ≤ block.size }
    requires callable { CallableOnListMut F.FnMut (elements T.SIZE T.decoded len (bytes_of a.old.memory block)) f }
    ensures fewer { result ≤ len }
    ensures list { RetainsInTurn (CalledAtMut F.FnMut) f
        (elements T.SIZE T.decoded len (bytes_of a.old.memory block))
        (elements T.SIZE T.decoded result (bytes_of a.new.memory block)) }
    ensures places { SamePlaces a.old a.new }
    ensures frame { Frame a.old.memory a.new.memory (block ∷ []) (block ∷ []) }
{
    sift_mut(a.read_mut(block), len, f)
}

#[tactic(auto, using(crate::proofs::VecLemmas::vec_laws, crate::proofs::VecLemmas::becomes, crate::proofs::VecLemmas::still_held))]
impl<T: Item> Vec<T> {
    /// Keeps the values that a test picks, as it left them.
    #[inline]
    pub fn retain_mut<C: ChunkSource, F: FnMut(&mut T) -> bool>(
        &mut self,
        a: &mut Allocator<C>,
        f: F,
    )
    where
        F: Drop,
        requires small { T.SIZE ≤ 2 ^ 24 }
        requires held { IsVecIn T.Item a.old.memory self.old }
        requires callable { CallableOnListMut F.FnMut (vec_list T.Item a.old.memory self.old) f }
        ensures becomes { (list : List T) × RetainsInTurn (CalledAtMut F.FnMut) f
            (vec_list T.Item a.old.memory self.old) list
            × Becomes T.Item a.old a.new self.old list self.new }
        ensures held { IsVecIn T.Item a.new.memory self.new }
        ensures places { SamePlaces a.old a.new }
        ensures frame { Frame a.old.memory a.new.memory (self.old.raw.block ∷ []) (self.new.raw.block ∷ []) }
    {
        self.raw.len = keep_mut(a, self.raw.block, self.raw.len, f);
    }

    /// Keeps the values that a test picks. It sees each once, in order.
    #[inline]
    pub fn retain<C: ChunkSource, F: FnMut(&T) -> bool>(&mut self, a: &mut Allocator<C>, f: F)
    where
        F: Drop,
        requires small { T.SIZE ≤ 2 ^ 24 }
        requires held { IsVecIn T.Item a.old.memory self.old }
        requires callable { CallableOnList F.FnMut (vec_list T.Item a.old.memory self.old) f }
        ensures becomes { (list : List T) × IsFiltered (CalledAt F.FnMut) f
            (vec_list T.Item a.old.memory self.old) list
            × Becomes T.Item a.old a.new self.old list self.new }
        ensures held { IsVecIn T.Item a.new.memory self.new }
        ensures places { SamePlaces a.old a.new }
        ensures frame { Frame a.old.memory a.new.memory (self.old.raw.block ∷ []) (self.new.raw.block ∷ []) }
    {
        self.raw.len = keep(a, self.raw.block, self.raw.len, f);
    }
}
