// The byte form of a vector's handle, and what the handle means.
ghost use Rattle.std.specs.Prelude.{◌≡◌, List, [], ◌∷◌, refl};
ghost use Rattle.arena_items.specs.laws.LayoutLaws.{plain_40_8};
ghost use Rattle.arena_vec.specs.Vecs.{IsVecIn, vec_list, IsHandleValue, handle_bytes, handle_of, handle_back};
ghost use Rattle.std.proofs.Common.{ap};
ghost use Rattle.arena_items.specs.Values.{elements};
ghost use Rattle.arena_items.specs.laws.FootprintLaws.{held_readable, held_again};

use crate::vec::Vec;
use arena_chunks::Block;
use arena_items::{InArena, Item};
use raw_vec::RawVec;
use std::marker::PhantomData;

impl<T: Item> Item for Vec<T> {
    ghost is_value = { IsHandleValue };

    ghost encoded = { handle_bytes };

    ghost decoded = { handle_of };

    ghost SIZE = { 40 };

    ghost ALIGN = { 8 };

    const SIZE: u64 = 40;

    const ALIGN: u64 = 8;

    ghost round_trip = { λ v h s. handle_back v h };

    ghost encoded_length = { λ v h s. refl };

    ghost layout = { plain_40_8 };

    fn known(&self) {
        self.raw.block.known();
        let _len = self.raw.len;
        let _cap = self.raw.cap;
    }

    fn encode(self, out: &mut [u8]) {
        let (block, numbers) = out.split_at_mut(32);
        let (len, cap) = numbers.split_at_mut(4);
        self.raw.block.encode(block);
        self.raw.len.encode(len);
        self.raw.cap.encode(cap);
    }

    fn decode(bytes: &[u8]) -> Self {
        let (block, numbers) = bytes.split_at(32);
        let (len, cap) = numbers.split_at(4);
        Vec {
            raw: RawVec {
                block: Block::decode(block),
                len: u32::decode(len),
                cap: u32::decode(cap),
                of: PhantomData,
            },
        }
    }
}

impl<T: Item> InArena for Vec<T> {
    ghost Meaning = { List T };

    ghost footprint = { λ m v. v.raw.block ∷ [] };

    ghost is_held = { IsVecIn T.Item };

    ghost means = { vec_list T.Item };

    ghost readable = { λ m v held. held_readable _ T.ALIGN m.state v.raw.block held.place };

    ghost same_footprint = { λ a c v agree. refl };

    ghost same_meaning = { λ a c v agree. ap (elements T.SIZE T.decoded v.raw.len) agree.0 };

    ghost held_again = { λ a c v held agree readable. record {
      place = held_again _ T.ALIGN a.state c.state v.raw.block held.place readable.0;
      within = held.within;
      no_bytes = held.no_bytes;
    } };
}
