// What the promises of scripts mean together, as a fact. The law is a function that does nothing: called in a body, it
// provides its fact there.
ghost use Rattle.script_workers.specs.OneOutcome.{HasOneOutcome};

use arena_chunks::ChunkSource;
use arena_script::Job;

/// Over a fixed pool, the number of bytes of its regions and the script determine the outcome, unless memory runs out:
/// whatever ran before it or at the same time, by whichever job, and on however many workers.
pub fn one_outcome<C: ChunkSource, D: ChunkSource, J: Job<C>, H: Job<D>>()
    ensures { HasOneOutcome C.source D.source J.worked H.worked }
{}
