// Byte forms of blocks and of texts.
ghost use Rattle.std.specs.Prelude.{◌≡◌, ℕ, ◌^◌, ◌≤◌, List, length, refl};
ghost use Rattle.arena_items.specs.ByteForms.{IsBlockValue, block_bytes, block_of};
ghost use Rattle.arena_items.specs.laws.LayoutLaws.{plain_32_8};
ghost use Rattle.arena_items.specs.laws.HandleLaws.{block_back};

use crate::item::Item;
use arena_chunks::{Block, Str};

impl Item for Block {
    ghost is_value = { IsBlockValue };

    ghost encoded = { block_bytes };

    ghost decoded = { block_of };

    ghost SIZE = { 32 };

    ghost ALIGN = { 8 };

    const SIZE: u64 = 32;

    const ALIGN: u64 = 8;

    ghost round_trip = { λ v h s. block_back v h };

    ghost encoded_length = { λ v h s. refl };

    ghost layout = { plain_32_8 };

    fn known(&self) {
        let _generation = self.generation;
        let _addr = self.addr;
        let _size = self.size;
        let _align = self.align;
    }

    fn encode(self, out: &mut [u8]) {
        let (generation, rest) = out.split_at_mut(8);
        let (addr, rest) = rest.split_at_mut(8);
        let (size, align) = rest.split_at_mut(8);
        self.generation.encode(generation);
        self.addr.encode(addr);
        self.size.encode(size);
        self.align.encode(align);
    }

    fn decode(bytes: &[u8]) -> Self {
        Block {
            generation: u64::decode(&bytes[..8]),
            addr: u64::decode(&bytes[8..16]),
            size: u64::decode(&bytes[16..24]),
            align: u64::decode(&bytes[24..]),
        }
    }
}

impl Item for Str {
    ghost is_value = { λ s. IsBlockValue s.block };

    ghost encoded = { λ s. block_bytes s.block };

    ghost decoded = { λ bytes. record { block = block_of bytes } };

    ghost SIZE = { 32 };

    ghost ALIGN = { 8 };

    const SIZE: u64 = 32;

    const ALIGN: u64 = 8;

    ghost round_trip = { λ v h s. λ i. record { block = block_back v.block h i } };

    ghost encoded_length = { λ v h s. refl };

    ghost layout = { plain_32_8 };

    fn known(&self) {
        self.block.known();
    }

    fn encode(self, out: &mut [u8]) {
        self.block.encode(out);
    }

    fn decode(bytes: &[u8]) -> Self {
        Str {
            block: Block::decode(bytes),
        }
    }
}
