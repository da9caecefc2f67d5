// A chunk, as its three numbers.
use std::marker::Model;

#[derive(Clone, Copy)]
pub(crate) struct PlainChunk {
    pub(crate) base: u64,
    pub(crate) size: u64,
    pub(crate) cursor: u64,
}

impl Model for PlainChunk {
    ghost use Rattle.arena_rules.specs.State.{Chunk};

    ghost Value = { Chunk };

    ghost view = { λ c. record { base = c.base; size = c.size; cursor = c.cursor } };

    ghost inverse = { λ c. record { base = c.base; size = c.size; cursor = c.cursor } };
}
