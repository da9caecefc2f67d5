// Runs of calls with the replies and the requests that were worked out by hand from the rules.
use super::{must, refusing, same, same_at};
use arena_chunks::{Arena, ChunkSource, OutOfMemory};
use arena_runs::{Call, Ran, Reply, run_calls};
use plain_machine::PlainMachine;
use short_bytes::Bytes;
use std::alloc::Global;
use std::process::Abort;

// A call: its name, and a size and an alignment. New bytes are 0.
enum Row {
    Alloc(u32, u64, u64),
    Grow(u32, u64, u64),
    Read(u32),
    Used,
    Allocated,
    Reset,
}

// A reply, with bytes as a slice.
enum Says {
    // An address, and the number of refused requests.
    Placed(u64, u32),
    AllocErr(u32),
    Done,
    Number(u64),
    Bytes(&'static [u8]),
}

// A call and its reply.
type Line = (Row, Says);

// Calls in sequence, the numbers of the requests that are refused, and all requests.
struct Run {
    name: &'static str,
    refuse: &'static [u64],
    lines: &'static [Line],
    requests: &'static [(u64, u64)],
}

const FAR: u64 = 1 << 62;

// Blocks that grow to no layout: 2^63 - 1 bytes at alignment 16, and 2^62 + 1 bytes at alignment 2^62.
const ENDS: &[Run] = &[
    Run {
        name: "no bytes at 16",
        refuse: &[],
        lines: &[
            (Row::Alloc(0, 0, 16), Says::Placed(16, 0)),
            (Row::Grow(0, u64::MAX >> 1, 1), Says::AllocErr(0)),
            (Row::Read(0), Says::Bytes(&[])),
        ],
        requests: &[],
    },
    Run {
        name: "no bytes at 2^62",
        refuse: &[],
        lines: &[
            (Row::Alloc(0, 0, FAR), Says::Placed(FAR, 0)),
            (Row::Grow(0, FAR + 1, 1), Says::AllocErr(0)),
        ],
        requests: &[(16320, FAR)],
    },
];

// The calls that make three chunks, and then a reset, with some requests refused.
const REFUSED: &[Run] = &[
    Run {
        name: "the first",
        refuse: &[1],
        lines: &[
            (Row::Alloc(0, 64, 1), Says::AllocErr(1)),
            (Row::Alloc(1, 64, 1), Says::Placed(20352, 0)),
            (Row::Alloc(2, 16320, 1), Says::Placed(36848, 0)),
            (Row::Used, Says::Number(16384)),
            (Row::Allocated, Says::Number(49024)),
            (Row::Alloc(3, 32640, 1), Says::Placed(86048, 0)),
            (Row::Allocated, Says::Number(114496)),
            (Row::Reset, Says::Done),
            (Row::Allocated, Says::Number(65472)),
            (Row::Used, Says::Number(0)),
        ],
        requests: &[(16320, 16), (16320, 16), (32704, 16), (65472, 16)],
    },
    Run {
        name: "the second",
        refuse: &[2],
        lines: &[
            (Row::Alloc(0, 64, 1), Says::Placed(20352, 0)),
            (Row::Alloc(1, 64, 1), Says::Placed(20288, 0)),
            (Row::Alloc(2, 16320, 1), Says::Placed(20464, 1)),
            (Row::Used, Says::Number(16448)),
            (Row::Allocated, Says::Number(32640)),
            (Row::Alloc(3, 32640, 1), Says::Placed(36896, 0)),
            (Row::Allocated, Says::Number(65344)),
            (Row::Reset, Says::Done),
            (Row::Allocated, Says::Number(32704)),
            (Row::Used, Says::Number(0)),
        ],
        requests: &[(16320, 16), (32704, 16), (16320, 16), (32704, 16)],
    },
    Run {
        name: "the third",
        refuse: &[3],
        lines: &[
            (Row::Alloc(0, 64, 1), Says::Placed(20352, 0)),
            (Row::Alloc(1, 64, 1), Says::Placed(20288, 0)),
            (Row::Alloc(2, 16320, 1), Says::Placed(36848, 0)),
            (Row::Used, Says::Number(16448)),
            (Row::Allocated, Says::Number(49024)),
            (Row::Alloc(3, 32640, 1), Says::Placed(53280, 1)),
            (Row::Allocated, Says::Number(81728)),
            (Row::Reset, Says::Done),
            (Row::Allocated, Says::Number(32704)),
            (Row::Used, Says::Number(0)),
        ],
        requests: &[(16320, 16), (32704, 16), (65472, 16), (32704, 16)],
    },
    Run {
        name: "the second and the third",
        refuse: &[2, 3],
        lines: &[
            (Row::Alloc(0, 64, 1), Says::Placed(20352, 0)),
            (Row::Alloc(1, 64, 1), Says::Placed(20288, 0)),
            (Row::Alloc(2, 16320, 1), Says::AllocErr(2)),
            (Row::Used, Says::Number(128)),
            (Row::Allocated, Says::Number(16320)),
            (Row::Alloc(3, 32640, 1), Says::Placed(20528, 0)),
            (Row::Allocated, Says::Number(49024)),
            (Row::Reset, Says::Done),
            (Row::Allocated, Says::Number(32704)),
            (Row::Used, Says::Number(0)),
        ],
        requests: &[(16320, 16), (32704, 16), (16320, 16), (32704, 16)],
    },
];

fn call(row: &Row) -> Call {
    match *row {
        Row::Alloc(name, size, align) => Call::Alloc {
            name,
            size,
            align,
            fill: 0,
        },
        Row::Grow(name, size, align) => Call::Grow {
            name,
            size,
            align,
            fill: 0,
        },
        Row::Read(name) => Call::Read { name },
        Row::Used => Call::Used,
        Row::Allocated => Call::Allocated,
        Row::Reset => Call::Reset,
    }
}

fn calls(rt: &impl Abort, alloc: Global, lines: &[Line]) -> Vec<Call> {
    let mut calls = Vec::new(alloc);
    for (row, _) in lines {
        calls.push(call(row)).expect(rt, "memory");
    }
    calls
}

fn reply(alloc: Global, says: &Says) -> Result<Reply, OutOfMemory> {
    Ok(match *says {
        Says::Placed(addr, refused) => Reply::Placed { addr, refused },
        Says::AllocErr(refused) => Reply::AllocErr { refused },
        Says::Done => Reply::Done,
        Says::Number(n) => Reply::Number(n),
        Says::Bytes(bytes) => Reply::Bytes(Bytes::of(alloc, bytes)?),
    })
}

fn are_replies(rt: &impl Abort, alloc: Global, replies: &[Reply], lines: &[Line]) {
    for (n, (given, (_, says))) in replies.iter().zip(lines).enumerate() {
        let wanted = reply(alloc, says).expect(rt, "memory");
        must(rt, n, *given == wanted);
    }
}

// Returns the replies over a new arena.
fn replies_of<C: ChunkSource>(
    rt: &impl Abort,
    alloc: Global,
    chunks: &mut C,
    lines: &[Line],
) -> Vec<Reply> {
    let calls = calls(rt, alloc, lines);
    let mut arena = Arena::<1>::new(alloc);
    let ran = run_calls(alloc, &mut arena, chunks, calls.as_slice());
    let Ran { replies, .. } = ran.expect(rt, "memory is ample");
    replies
}

fn all_reply(rt: &impl Abort, alloc: Global, runs: &[Run]) {
    for run in runs {
        let mut chunks = refusing(alloc, run.refuse).expect(rt, "memory");
        let replies = replies_of(rt, alloc, &mut chunks, run.lines);
        are_replies(rt, alloc, replies.as_slice(), run.lines);
        same_at(rt, run.name, chunks.requests(), Some(run.requests));
    }
}

#[test]
fn of_runs(rt: HostRuntime) {
    all_reply(&rt, rt.alloc(), ENDS);
    all_reply(&rt, rt.alloc(), REFUSED);
}

// Refuses each request.
#[derive(Drop)]
struct Refusing {
    refused: u64,
}

impl ChunkSource for Refusing {
    ghost use Rattle.std.specs.Prelude.{None};

    ghost source = { λ c. record { refusals = c.refused; asked = None } };

    fn request(&mut self, size: u64, align: u64) -> Option<Vec<u8>> {
        let _ = (size, align);
        self.refused = self.refused.saturating_add(1);
        None
    }
}

// Two calls that are refused one request each.
const TWO: &[Line] = &[
    (Row::Alloc(0, 1, 1), Says::AllocErr(1)),
    (Row::Alloc(0, 1, 1), Says::AllocErr(1)),
];

// The count of refusals is at its last value and can't rise, but each result still reports its refusals.
#[test]
fn a_count_that_stands(rt: HostRuntime) {
    let mut chunks = Refusing { refused: u64::MAX };
    let replies = replies_of(&rt, rt.alloc(), &mut chunks, TWO);
    are_replies(&rt, rt.alloc(), replies.as_slice(), TWO);
    same(&rt, chunks.refused, u64::MAX);
}

#[test]
fn of_the_plain_program(rt: HostRuntime) {
    let calls = calls(&rt, rt.alloc(), TWO);
    let plain = PlainMachine::run(rt.alloc(), 1, calls.as_slice(), &[1, 1]);
    let plain = plain
        .expect(&rt, "memory")
        .expect(&rt, "the machine has this run");
    are_replies(&rt, rt.alloc(), plain.as_slice(), TWO);
}
