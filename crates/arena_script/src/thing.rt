// What represents an object in an arena.
ghost use Rattle.script_rules.specs.Objects.{Object};
ghost use Rattle.arena_script.specs.Things.{blocks_in, IsThingIn, object_in};
ghost use Rattle.arena_script.specs.laws.ThingLaws.{thing_readable, same_blocks, same_object, thing_again};

use arena_bits::BitSet;
use arena_hash::HashMap;
use arena_items::{Box, InArena};
use arena_text::StringBuilder;
use arena_vec::Vec;

/// The handle of an object in an arena.
#[derive(Clone, Copy)]
pub enum Thing {
    /// A list of numbers.
    List(Vec<u32>),
    /// A text.
    Text(StringBuilder),
    /// A set of bits.
    Bits(BitSet),
    /// A map.
    Map(HashMap<u32, u32>),
    /// A value.
    Value(Box<u64>),
}

impl InArena for Thing {
    ghost Meaning = { Object };

    ghost footprint = { blocks_in };

    ghost is_held = { IsThingIn };

    ghost means = { object_in };

    ghost readable = { thing_readable };

    ghost same_footprint = { same_blocks };

    ghost same_meaning = { same_object };

    ghost held_again = { thing_again };
}
