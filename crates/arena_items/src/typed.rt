// Calls that place values.
ghost use Rattle.std.specs.Prelude.{◌≡◌, ◌^◌, ◌≤◌, length, replicate};
ghost use Rattle.std.specs.Iterator.{size, Yields, CallableAtEachTurn};
ghost use Rattle.std.specs.Array.{FillsFrom, index_steps};
ghost use Rattle.std.specs.List.{All};
ghost use Rattle.arena_chunks.specs.Source.{View};
ghost use Rattle.arena_chunks.specs.Answers.Answer.{Placed};
ghost use Rattle.arena_chunks.specs.BlockCalls.{PlacesBlock};
ghost use Rattle.arena_store.specs.declared.block.Block.{Block};
ghost use Rattle.arena_items.specs.Placing.{PlacesArray, EndsEarly, Abandons};
ghost use Rattle.arena_items.specs.Typed.{PlacesBox, PlacesSlice, PlacesSliceOr};

mod allocator;

use crate::boxes::Box;
use crate::item::Item;
use crate::placing::ItemErr;
use crate::slices::BoxSlice;
use arena_chunks::OverArena;

/// Calls that place values of types with a byte form.
pub trait ArenaItems: OverArena {
    /// Places a value.
    ///
    /// # Errors
    ///
    /// As for the arena's `alloc_layout`. Nothing changes.
    fn alloc<T: Item>(&mut self, value: T) -> Result<Box<T>, ItemErr>
        requires { T.SIZE ≤ 2 ^ 24 }
        ensures { PlacesBox T.Item (Self.view self.old) (Self.view self.new) (λ v. v ≡ value) result };

    /// Places the value that a closure returns. The closure is called only if there is a place.
    ///
    /// # Errors
    ///
    /// As for `alloc`.
    fn alloc_with<T: Item, F: FnOnce() -> T>(&mut self, f: F) -> Result<Box<T>, ItemErr>
    where
        F: Drop,
        requires small { T.SIZE ≤ 2 ^ 24 }
        requires callable { (new : View) (b : Block)
            → PlacesBlock (Self.view self.old) new T.SIZE T.ALIGN (Placed b) → F.IsAlwaysCallable f }
        ensures { PlacesBox T.Item (Self.view self.old) (Self.view self.new) (F.post f) result };

    /// Places copies of values, in one pass.
    ///
    /// # Errors
    ///
    /// As for the arena's `alloc_layout`; also `AllocErr` with no request if that many values have no layout. Nothing
    /// changes.
    fn alloc_slice_copy<T: Item>(&mut self, src: &[T]) -> Result<BoxSlice<T>, ItemErr>
        requires { T.SIZE ≤ 2 ^ 24 }
        ensures { PlacesSlice T.Item (Self.view self.old) (Self.view self.new) (length src.now)
            (λ list. list ≡ src.now) result };

    /// Places `len` copies of a value, in one pass.
    ///
    /// # Errors
    ///
    /// As for `alloc_slice_copy`.
    fn alloc_slice_fill_copy<T: Item>(&mut self, len: u64, value: T) -> Result<BoxSlice<T>, ItemErr>
        requires { T.SIZE ≤ 2 ^ 24 }
        ensures { PlacesSlice T.Item (Self.view self.old) (Self.view self.new) len
            (λ list. list ≡ replicate len value) result };

    /// Places what a closure returns for 0, 1 and so on, up to `len` - 1. It is called only if there is a place.
    ///
    /// # Errors
    ///
    /// As for `alloc_slice_copy`.
    fn alloc_slice_fill_with<T: Item, F: FnMut(u64) -> T>(
        &mut self,
        len: u64,
        f: F,
    ) -> Result<BoxSlice<T>, ItemErr>
    where
        F: Drop,
        requires small { T.SIZE ≤ 2 ^ 24 }
        requires callable { (new : View) (b : Block)
            → PlacesArray (Self.view self.old) new T.SIZE T.ALIGN len (Placed b)
            → CallableAtEachTurn (index_steps len) (λ p x q. (y : T) × F.step p x y q) F.pre 0 f }
        ensures { PlacesSlice T.Item (Self.view self.old) (Self.view self.new) len
            (λ list. (last : F) × FillsFrom F.step f 0 list last) result };

    /// Places as many items of an iterator as it says it has. None is taken if there is no place.
    ///
    /// # Errors
    ///
    /// As for `alloc_slice_copy`; also `TooFew` if the iterator ends before. The block is then given back: what was in
    /// use stays as it was, but some padding, or a new chunk, may stay.
    fn alloc_slice_fill_iter<T: Item, I: ExactSizeIterator<Item = T>>(
        &mut self,
        iter: I,
    ) -> Result<BoxSlice<T>, ItemErr>
    where
        I: Drop,
        requires small { T.SIZE ≤ 2 ^ 24 }
        requires can { (new : View) (b : Block)
            → PlacesArray (Self.view self.old) new T.SIZE T.ALIGN (size (I.remaining iter)) (Placed b)
            → I.can_next iter }
        ensures { let n = size (I.remaining iter) in
            PlacesSliceOr (λ taken. EndsEarly I.next_gives iter n taken
            × Abandons (Self.view self.old) (Self.view self.new) T.SIZE T.ALIGN n)
            T.Item (Self.view self.old) (Self.view self.new) n
            (λ list. (last : I) × Yields I.next_gives iter list last) result };

    /// Places a value, as `alloc` does.
    ///
    /// # Errors
    ///
    /// As for `alloc`.
    fn try_alloc<T: Item>(&mut self, value: T) -> Result<Box<T>, ItemErr>
        requires { T.SIZE ≤ 2 ^ 24 }
        ensures { PlacesBox T.Item (Self.view self.old) (Self.view self.new) (λ v. v ≡ value) result }
    {
        self.alloc(value)
    }

    /// Places the value that a closure returns, as `alloc_with` does.
    ///
    /// # Errors
    ///
    /// As for `alloc`.
    fn try_alloc_with<T: Item, F: FnOnce() -> T>(&mut self, f: F) -> Result<Box<T>, ItemErr>
    where
        F: Drop,
        requires small { T.SIZE ≤ 2 ^ 24 }
        requires callable { (new : View) (b : Block)
            → PlacesBlock (Self.view self.old) new T.SIZE T.ALIGN (Placed b) → F.IsAlwaysCallable f }
        ensures { PlacesBox T.Item (Self.view self.old) (Self.view self.new) (F.post f) result }
    {
        self.alloc_with(f)
    }

    /// Places copies of values, as `alloc_slice_copy` does.
    ///
    /// # Errors
    ///
    /// As for `alloc_slice_copy`.
    fn alloc_slice_clone<T: Item>(&mut self, src: &[T]) -> Result<BoxSlice<T>, ItemErr>
        requires { T.SIZE ≤ 2 ^ 24 }
        ensures { PlacesSlice T.Item (Self.view self.old) (Self.view self.new) (length src.now)
            (λ list. list ≡ src.now) result }
    {
        self.alloc_slice_copy(src)
    }

    /// Places `len` copies of a value, as `alloc_slice_fill_copy` does.
    ///
    /// # Errors
    ///
    /// As for `alloc_slice_copy`.
    fn alloc_slice_fill_clone<T: Item>(
        &mut self,
        len: u64,
        value: &T,
    ) -> Result<BoxSlice<T>, ItemErr>
        requires { T.SIZE ≤ 2 ^ 24 }
        ensures { PlacesSlice T.Item (Self.view self.old) (Self.view self.new) len
            (λ list. list ≡ replicate len value.now) result }
    {
        self.alloc_slice_fill_copy(len, *value)
    }

    /// Places `len` copies of the type's default.
    ///
    /// # Errors
    ///
    /// As for `alloc_slice_copy`.
    fn alloc_slice_fill_default<T: Item + Default>(
        &mut self,
        len: u64,
    ) -> Result<BoxSlice<T>, ItemErr>
        requires { T.SIZE ≤ 2 ^ 24 }
        ensures { PlacesSlice T.Item (Self.view self.old) (Self.view self.new) len
            (All T.is_default) result }
    {
        self.alloc_slice_fill_copy(len, T::default())
    }
}
