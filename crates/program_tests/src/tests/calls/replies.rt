// Tests of lines of calls, and of the replies that follow from the rules.
use super::endings::{LINES, REPLIES};
use crate::tests::{asks, ends_so, holds, run_over};
use arena_chunks::RefusingChunks;
use std::test::Fail;

// Lines of calls, and the expected replies.
const ROWS: &[(&str, &str)] = &[
    // no calls
    ("", ""),
    // the largest numbers, between empty lines
    (
        "\nread 4294967295\n\nalloc 4294967295 18446744073709551615 18446744073709551615 255\n\
         write 0 18446744073709551615 -\n\n",
        "no such name\nbad layout\nno such name\n",
    ),
    // first block
    (LINES, REPLIES),
    // empty blocks
    (
        "alloc 0 0 16 0\nallocated\nalloc 1 0 32 0\nallocated\nused\n",
        "placed 16 refused 0\nnumber 0\nplaced 20416 refused 0\nnumber 16320\nnumber 0\n",
    ),
    // further chunks
    (
        "alloc 0 64 1 0\nalloc 1 64 1 0\nalloc 2 16320 1 0\nused\nallocated\nalloc 3 32640 1 0\n\
         allocated\nreset\nallocated\nused",
        "placed 20352 refused 0\nplaced 20288 refused 0\nplaced 36848 refused 0\nnumber 16448\n\
         number 49024\nplaced 86048 refused 0\nnumber 114496\ndone\nnumber 65472\nnumber 0\n",
    ),
    // invalid layouts
    (
        "alloc 0 1 1 0\nalloc 1 1 0 0\nalloc 1 1 3 0\nalloc 1 9223372036854775808 1 0\n\
         alloc 0 1 3 0\nshrink 9 1 3\n",
        "placed 20415 refused 0\nbad layout\nbad layout\nbad layout\nname taken\nno such name\n",
    ),
    // no valid chunk
    ("alloc 0 0 9223372036854775808 0\n", "allocerr refused 0\n"),
    // far addresses
    (
        "alloc 0 0 4611686018427387904 0\nalloc 1 1 1 0\nalloc 2 0 4611686018427387904 0\n\
         alloc 3 1 1 0\nalloc 4 0 4611686018427387904 0\nalloc 5 1 1 0\n\
         alloc 6 0 4611686018427387904 0\nallocated\n",
        "placed 4611686018427387904 refused 0\nplaced 4611686018427436975 refused 0\n\
         placed 9223372036854775808 refused 0\nplaced 9223372036854972335 refused 0\n\
         placed 13835058055282163712 refused 0\nplaced 13835058055282950063 refused 0\n\
         allocerr refused 0\nnumber 1031808\n",
    ),
    // an empty block given back next to another
    (
        "alloc 0 4 1 7\nalloc 1 0 1 0\ndealloc 1\nused\n",
        "placed 20412 refused 0\nplaced 20412 refused 0\ndone\nnumber 4\n",
    ),
    // block given back and placed again
    (
        "alloc 0 4 1 7\nalloc 1 0 1 0\ndealloc 0\nused\nalloc 2 4 1 9\ndealloc 1\nused\nread 2\n",
        "placed 20412 refused 0\nplaced 20412 refused 0\ndone\nnumber 0\nplaced 20412 refused 0\n\
         done\nnumber 4\nbytes 09090909\n",
    ),
    // names and ranges
    (
        "alloc 0 2 1 5\ndealloc 0\ndealloc 0\nalloc 0 2 1 5\nwrite 0 1 aabb\nread 0\nwrite 0 2 -\nread 0\n",
        "placed 20414 refused 0\ndone\nno such name\nplaced 20414 refused 0\nout of range\n\
         bytes 0505\ndone\nbytes 0505\n",
    ),
    // shrunk by less than half and by half
    (
        "alloc 0 100 1 0\nshrink 0 51 1\nused\nreset\nalloc 0 100 1 0\nshrink 0 50 1\nused\n",
        "placed 20316 refused 0\nplaced 20316 refused 0\nnumber 100\ndone\nplaced 20316 refused 0\n\
         placed 20366 refused 0\nnumber 50\n",
    ),
    // grown in place
    (
        "alloc 0 10 1 1\ngrow 0 11 1 2\nread 0\n",
        "placed 20406 refused 0\nplaced 20405 refused 0\nbytes 0101010101010101010102\n",
    ),
    // a mark between two chunks
    (
        "alloc 0 10 1 1\nmark 0\nalloc 1 100 1 2\nalloc 2 32640 1 0\nallocated\nback 0\nallocated\n\
         used\nread 1\nread 0\nalloc 1 4 1 3\nback 0\nused\n",
        "placed 20406 refused 0\ndone\nplaced 20306 refused 0\nplaced 20528 refused 0\nnumber 49024\ndone\n\
         number 16320\nnumber 10\nno such name\nbytes 01010101010101010101\nplaced 20402 refused 0\n\
         done\nnumber 10\n",
    ),
    // a block that was placed after the mark in the marked part
    (
        "alloc 0 10 1 1\nalloc 1 6 1 2\nmark 5\ndealloc 1\nalloc 2 2 1 3\nback 5\nread 2\nused\n",
        "placed 20406 refused 0\nplaced 20400 refused 0\ndone\ndone\nplaced 20404 refused 0\ndone\n\
         bytes 0303\nnumber 12\n",
    ),
    // names of marks
    (
        "mark 0\nalloc 0 1 1 9\nmark 0\nmark 1\nback 0\nallocated\nread 0\nback 1\nalloc 0 0 1 0\n\
         reset\nback 0\n",
        "done\nplaced 20415 refused 0\nname taken\ndone\ndone\nnumber 0\nno such name\nno such name\n\
         placed 16 refused 0\ndone\nno such name\n",
    ),
    // a block that was grown after the mark
    (
        "alloc 0 4 1 1\nmark 0\ngrow 0 5 1 2\nback 0\nread 0\nused\n",
        "placed 20412 refused 0\ndone\nplaced 20411 refused 0\ndone\nno such name\nnumber 4\n",
    ),
];

#[test]
fn replies_that_the_rules_give(rt: HostRuntime) -> Result<(), Fail> {
    for (calls, replies) in ROWS {
        let asked = asks(&["calls"], calls.as_bytes());
        ends_so(&rt, &asked, (0, 0, replies.as_bytes()), calls)?;
    }
    Ok(())
}

// The numbers of the requests that are refused, the calls, the replies, and the requests that were made.
const REFUSING: &[(&[u64], &str, &str, &[(u64, u64)])] = &[
    // half the size after a refusal
    (
        &[2],
        "alloc 0 16320 1 0\nalloc 1 100 1 0\n",
        "placed 4096 refused 0\nplaced 36684 refused 1\n",
        &[(16320, 16), (32704, 16), (16320, 16)],
    ),
    // the size isn't halved below the least size
    (
        &[1],
        "alloc 0 1 1 0\nallocated\nalloc 0 1 1 0\n",
        "allocerr refused 1\nnumber 0\nplaced 20415 refused 0\n",
        &[(16320, 16), (16320, 16)],
    ),
    // no request for a size above that of all chunks
    (
        &[],
        "alloc 0 9223372036854775807 1 0\n",
        "allocerr refused 0\n",
        &[],
    ),
];

#[test]
fn replies_where_requests_are_refused(rt: HostRuntime) -> Result<(), Fail> {
    for (refuse, calls, replies, requests) in REFUSING {
        let mut chunks = RefusingChunks::new(rt.alloc(), refuse.to_vec(rt.alloc())?);
        let ended = run_over(&rt, &mut chunks, &asks(&["calls"], calls.as_bytes()))?;
        holds(&rt, ended.is((0, 0, replies.as_bytes())), calls);
        holds(&rt, chunks.requests() == Some(*requests), calls);
    }
    Ok(())
}
