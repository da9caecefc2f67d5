// A test of chunks that aren't touched before they are used.
use arena_chunks::{Allocator, MemoryChunks};

// Chunks of a gibibyte, of which little is used. Touching all bytes of one takes half a second, so touching all of
// these would exceed the time limit of a test.
#[test]
fn chunks_that_are_not_touched_before_use(rt: HostRuntime) {
    for _ in 0..1000 {
        let chunks = MemoryChunks::new(rt.alloc(), 1 << 31);
        let made = Allocator::with_capacity(rt.alloc(), chunks, 1 << 30);
        let mut a = made.ok().expect(&rt, "an allocator");
        a.alloc_str("hello").expect(&rt, "a text");
    }
}
