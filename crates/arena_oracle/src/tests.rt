// The calls on bytes. Expected texts follow from the rules; the longer ones are those of `examples`.
use crate::{Report, arena_oracle_calls, arena_oracle_draw, arena_oracle_gen};
use std::alloc::Global;
use std::process::Abort;

const NOTHING: Report = Report {
    length: 0,
    line: 0,
    refused: 0,
};

// A run, and what it returns.
struct Case<'a> {
    lines: &'static str,
    budget: u64,
    refuse: &'a [u64],
    code: u32,
    line: u64,
    refused: u64,
    text: &'static str,
}

// A run that is done, in which no request is refused.
const DONE: Case<'static> = Case {
    lines: "",
    budget: 20_000,
    refuse: &[],
    code: 0,
    line: 0,
    refused: 0,
    text: "",
};

fn holds(rt: &impl Abort, alloc: Global, case: &Case) {
    let mut out = [46u8; 100];
    let mut report = NOTHING;
    let lines = case.lines.as_bytes();
    let code = arena_oracle_calls(
        alloc,
        lines,
        case.budget,
        case.refuse,
        &mut out,
        &mut report,
    );
    let length = case.text.len();
    assert!(rt;
        length <= 100 && &out[..length] == case.text.as_bytes(),
        "{:?}",
        case.lines
    );
    assert!(rt;
        code == case.code && report.line == case.line,
        "{:?}",
        case.lines
    );
    assert!(rt; report.length == length as u64, "{:?}", case.lines);
    assert!(rt; report.refused == case.refused, "{:?}", case.lines);
}

// The first chunk begins at 4096 and has 16320 bytes for a block of 5, which is at its end. For 5 bytes no smaller size is
// tried.
#[test]
fn lines_get_their_replies(rt: HostRuntime) {
    for case in &[
        DONE,
        Case {
            lines: "alloc 7 5 1 46\nwrite 7 0 68656c6c6f\nread 7\nused\nallocated\n",
            text: "placed 20411 refused 0\ndone\nbytes 68656c6c6f\nnumber 5\nnumber 16320\n",
            ..DONE
        },
        // Only one chunk is requested.
        Case {
            lines: "alloc 7 5 1 46\nmark 0\nalloc 8 1 1 0\nback 0\nread 8\nused\n",
            refuse: &[2],
            text: "placed 20411 refused 0\ndone\nplaced 20410 refused 0\ndone\nno such name\nnumber 5\n",
            ..DONE
        },
        Case {
            lines: "used\nalloc x\n",
            code: 2,
            line: 2,
            ..DONE
        },
    ] {
        holds(&rt, rt.alloc(), case);
    }
}

#[test]
fn a_request_beyond_the_limits_is_refused(rt: HostRuntime) {
    for case in &[
        Case {
            lines: "alloc 7 5 1 46\n",
            budget: 16_319,
            refused: 1,
            text: "allocerr refused 1\n",
            ..DONE
        },
        Case {
            lines: "alloc 7 5 1 46\n",
            budget: 16_320,
            text: "placed 20411 refused 0\n",
            ..DONE
        },
        Case {
            lines: "alloc 7 5 1 46\nalloc 7 5 1 46\n",
            refuse: &[1],
            refused: 1,
            text: "allocerr refused 1\nplaced 20411 refused 0\n",
            ..DONE
        },
    ] {
        holds(&rt, rt.alloc(), case);
    }
}

// For 30000 bytes a chunk has 32704, 64 less than whole pages, with and without an older one. The block is at its end.
#[test]
fn one_of_two_requests_is_refused(rt: HostRuntime) {
    for case in &[
        // The first leaves 3680 bytes of the budget.
        Case {
            lines: "alloc 1 5 1 0\nalloc 2 30000 1 0\n",
            refused: 1,
            text: "placed 20411 refused 0\nallocerr refused 1\n",
            ..DONE
        },
        // 4096 + 32704 - 30000 is 6800.
        Case {
            lines: "alloc 1 5 1 0\nalloc 2 30000 1 0\n",
            budget: 1_048_576,
            refuse: &[1],
            refused: 1,
            text: "allocerr refused 1\nplaced 6800 refused 0\n",
            ..DONE
        },
        // No machine has 2^60 bytes: memory runs out.
        Case {
            lines: "alloc 1 1152921504606846976 1 0\nalloc 2 5 1 0\n",
            budget: u64::MAX,
            code: 3,
            refused: 1,
            ..DONE
        },
    ] {
        holds(&rt, rt.alloc(), case);
    }
}

// For 10000 bytes behind a chunk of 16320 bytes two sizes are tried, 32704 and 16320, at 20464. The block is at the end.
#[test]
fn the_first_size_that_the_limits_allow_is_granted(rt: HostRuntime) {
    for case in &[
        // 33680 bytes of the budget are left, enough for the first size, and not for both.
        Case {
            lines: "alloc 1 16000 1 0\nalloc 2 10000 1 0\n",
            budget: 50_000,
            text: "placed 4416 refused 0\nplaced 43168 refused 0\n",
            ..DONE
        },
        Case {
            lines: "alloc 1 16000 1 0\nalloc 2 10000 1 0\n",
            budget: 1_048_576,
            refuse: &[2],
            refused: 1,
            text: "placed 4416 refused 0\nplaced 26784 refused 1\n",
            ..DONE
        },
        // The second request is listed, and the third is beyond the budget.
        Case {
            lines: "alloc 1 16000 1 0\nalloc 2 10000 1 0\n",
            budget: 30_000,
            refuse: &[2],
            refused: 2,
            text: "placed 4416 refused 0\nallocerr refused 2\n",
            ..DONE
        },
    ] {
        holds(&rt, rt.alloc(), case);
    }
}

#[test]
fn a_text_without_room_has_code_7(rt: HostRuntime) {
    let mut out = [46u8; 8];
    let mut report = NOTHING;
    let code = arena_oracle_calls(rt.alloc(), b"used", 0, &[], &mut out, &mut report);
    assert_eq!(rt; (code, report.length, out), (7, 9, [46u8; 8]));
}

#[test]
fn lines_that_are_too_long_have_code_6(rt: HostRuntime) {
    let alloc = rt.alloc();
    let lines = vec![in alloc; 10u8; 16_777_217].expect(&rt, "bytes");
    let mut out = [46u8; 8];
    let mut report = NOTHING;
    let code = arena_oracle_calls(alloc, lines.as_slice(), 20_000, &[], &mut out, &mut report);
    assert_eq!(rt; (code, report.length, out), (6, 0, [46u8; 8]));
}

// Generated calls from 1, and what they return.
struct Generated<'a> {
    count: u64,
    budget: u64,
    refuse: &'a [u64],
    code: u32,
    refused: u64,
    text: &'static str,
}

// The first four calls write to 250, shrink 25, and allocate 243 bytes at a multiple of 2 for 107, and 246 at one of 8 for
// 83: at 20172 and 19920. The texts of ten thousand calls are what a program in Python returns that follows the rules; for
// a million calls it returns `examples/generated/million.summary`.
const GENERATED: &[Generated<'static>] = &[
    Generated {
        count: 0,
        budget: 0,
        refuse: &[],
        code: 0,
        refused: 0,
        text: "calls 0\nplaced 0\nfailed 0\nother 0\nbytes 0\nsum 0\nused 0\nallocated 0\n",
    },
    Generated {
        count: 4,
        budget: 20_000,
        refuse: &[],
        code: 0,
        refused: 0,
        text: "calls 4\nplaced 2\nfailed 0\nother 2\nbytes 0\nsum 0\nused 496\nallocated 16320\n",
    },
    Generated {
        count: 4,
        budget: 16_319,
        refuse: &[],
        code: 0,
        refused: 2,
        text: "calls 4\nplaced 0\nfailed 2\nother 2\nbytes 0\nsum 0\nused 0\nallocated 0\n",
    },
    Generated {
        count: 10_000,
        budget: 1 << 40,
        refuse: &[],
        code: 0,
        refused: 0,
        text: "calls 10000\nplaced 1956\nfailed 0\nother 5837\nbytes 234110\nsum 30214878\nused 456212\nallocated 507584\n",
    },
    // Each of the many calls without room makes two or three requests, all refused.
    Generated {
        count: 10_000,
        budget: 100_000,
        refuse: &[2],
        code: 0,
        refused: 7991,
        text: "calls 10000\nplaced 457\nfailed 2663\nother 6165\nbytes 65283\nsum 8798797\nused 97361\nallocated 98048\n",
    },
    Generated {
        count: 1 << 32,
        budget: 20_000,
        refuse: &[],
        code: 3,
        refused: 0,
        text: "",
    },
];

#[test]
fn calls_from_a_number_have_a_summary(rt: HostRuntime) {
    for row in GENERATED {
        let mut out = [0u8; 200];
        let mut report = NOTHING;
        let code = arena_oracle_gen(
            rt.alloc(),
            1,
            row.count,
            row.budget,
            row.refuse,
            &mut out,
            &mut report,
        );
        assert_eq!(rt;
            (code, report.length),
            (row.code, row.text.len() as u64),
            "{}",
            row.count
        );
        assert_eq!(rt; report.refused, row.refused, "{}", row.count);
        assert!(rt; out.starts_with(row.text.as_bytes()), "{}", row.count);
    }
}

#[test]
fn a_picture_is_returned(rt: HostRuntime) {
    let mut out = [0u8; 2000];
    let mut report = NOTHING;
    let code = arena_oracle_draw(
        rt.alloc(),
        b"alloc 1 3000 8 0\n",
        20_000,
        &[],
        &mut out,
        &mut report,
    );
    assert!(rt; code == 0 && 1000 < report.length && report.length <= 2000);
    assert!(rt; out.starts_with(b"<svg"));
}
