// The calls of an allocator that place values.
use crate::boxes::Box;
use crate::elements::{put_copies, put_item, put_items, write_whole};
use crate::item::Item;
use crate::placing::{ItemErr, place_array, place_one};
use crate::slices::BoxSlice;
use crate::typed::ArenaItems;
use arena_chunks::{Allocator, BlockAlloc, ChunkSource};
use std::marker::PhantomData;

#[tactic(auto, using(crate::proofs::ArrayLemmas::array_laws))]
impl<C: ChunkSource> ArenaItems for Allocator<C> {
    #[inline]
    fn alloc<T: Item>(&mut self, value: T) -> Result<Box<T>, ItemErr> {
        Box::new_in(value, self)
    }

    #[inline]
    fn alloc_with<T: Item, F: FnOnce() -> T>(&mut self, f: F) -> Result<Box<T>, ItemErr>
    where
        F: Drop,
    {
        let block = place_one::<T, C>(self)?;
        let value = f();
        write_whole(self, block, value);
        Ok(Box {
            block,
            of: PhantomData,
        })
    }

    #[inline]
    fn alloc_slice_copy<T: Item>(&mut self, src: &[T]) -> Result<BoxSlice<T>, ItemErr> {
        let length = src.len() as u64;
        let block = place_array::<T, C>(self, length)?;
        put_items(self, block, 0, src);
        Ok(BoxSlice {
            block,
            length,
            of: PhantomData,
        })
    }

    fn alloc_slice_fill_copy<T: Item>(
        &mut self,
        len: u64,
        value: T,
    ) -> Result<BoxSlice<T>, ItemErr> {
        let block = place_array::<T, C>(self, len)?;
        put_copies(self, block, 0, len, value);
        Ok(BoxSlice {
            block,
            length: len,
            of: PhantomData,
        })
    }

    fn alloc_slice_fill_with<T: Item, F: FnMut(u64) -> T>(
        &mut self,
        len: u64,
        mut f: F,
    ) -> Result<BoxSlice<T>, ItemErr>
    where
        F: Drop,
    {
        let block = place_array::<T, C>(self, len)?;
        for i in 0..len {
            let value = f(i);
            put_item(self, block, i, value);
        }
        Ok(BoxSlice {
            block,
            length: len,
            of: PhantomData,
        })
    }

    fn alloc_slice_fill_iter<T: Item, I: ExactSizeIterator<Item = T>>(
        &mut self,
        mut iter: I,
    ) -> Result<BoxSlice<T>, ItemErr>
    where
        I: Drop,
    {
        let length = iter.len() as u64;
        let block = place_array::<T, C>(self, length)?;
        for i in 0..length {
            match iter.next() {
                Some(value) => put_item(self, block, i, value),
                None => {
                    // For the proof: the least alignment is 1.
                    self.known();
                    self.deallocate(block);
                    return Err(ItemErr::TooFew { taken: i });
                }
            }
        }
        Ok(BoxSlice {
            block,
            length,
            of: PhantomData,
        })
    }
}
