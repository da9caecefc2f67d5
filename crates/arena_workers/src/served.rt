// The result of a piece of work.
use arena_chunks::{Allocator, ChunkSource};

/// What shows that work was starved on an arena that grows: a source that has refused, or an arena that grew large.
#[derive(Drop)]
pub enum Starved<C: ChunkSource> {
    /// The source of the arena as the work left it, which refused a request. The arena has fewer than 2^60 bytes.
    Refused(C),
    /// The arena as the work left it: it has at least 2^60 bytes.
    Grown(Allocator<C>),
}

/// The result of a piece of work.
#[derive(Drop)]
pub struct Served<O, C: ChunkSource> {
    /// The outcome of the work.
    pub outcome: O,
    /// What shows that the work was starved; present exactly if the outcome says that the arena refused.
    pub starved: Option<Starved<C>>,
}
