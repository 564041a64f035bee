//! Each read, each write and the flush of a run fail in turn, for `tr -cs` and for `join` with `-o`; and each allocation,
//! for `tr -cs`. Those of `join` are in `join`.

use crate::asserts::{assert_for, assert_same_for};
use crate::harness::Input::{Failing, Text};
use crate::harness::{
    Case, CaseExample, DEFAULT, Example, GrowthFailures, Limits, WriteFailures, expect,
    expect_examples, expect_growth_failures, expect_write_failures, run_over,
};
use ptfakes::VecSink;
use ptrun::Report;
use std::alloc::Global;
use std::process::Abort;
use std::test::Fail;

const WORDS: &[&str] = &["tr", "-cs", "[:alpha:]", "[\\n*]"];

const TEXT: &[u8] = b"one, two.\n";

const LISTED: &[&str] = &["join", "-a", "2", "-e", "-", "-o", "0,1.2,2.2", "f", "g"];

const F: &[u8] = b"a 1\na 2\nc 9\n";

const G: &[u8] = b"a x\na y\nb z\n";

const ALL: &str = "a 1 x\na 1 y\na 2 x\na 2 y\nb - z\n";

const TR_CASE: Case = Case {
    words: WORDS,
    standard: Text(TEXT),
    size: 4,
    ..DEFAULT
};

const JOIN_CASE: Case = Case {
    words: LISTED,
    files: &[Text(F), Text(G)],
    ..DEFAULT
};

const TR_WRITE_FAILED: &str = "tr: output: write failed\n";

const JOIN_WRITE_FAILED: &str = "join: output: write failed\n";

// The sink takes one byte per call. Each of its writes fails in turn, and then the flush.
fn each_call_fails(
    rt: &impl Abort,
    alloc: Global,
    case: &Case<'_>,
    all: &[u8],
    message: &str,
) -> Result<(), Fail> {
    for passing in 0..=all.len() {
        let limits = Limits {
            size: 1,
            room: usize::MAX,
            passing: passing as u64,
        };
        let case = Case {
            out: limits,
            ..*case
        };
        expect(rt, alloc, &case, &all[..passing], message)?;
    }
    Ok(())
}

// Commands, their output, and the message if it cannot be written.
const WRITE_CASES: &[CaseExample] = &[
    (TR_CASE, "one\ntwo\n", TR_WRITE_FAILED),
    (JOIN_CASE, ALL, JOIN_WRITE_FAILED),
];

// No byte is taken.
const NO_BYTE_WRITTEN: &[WriteFailures] = &[
    (TR_CASE, TR_WRITE_FAILED, &[(0, usize::MAX, u64::MAX, "")]),
    (
        JOIN_CASE,
        JOIN_WRITE_FAILED,
        &[(0, usize::MAX, u64::MAX, "")],
    ),
];

#[test]
fn each_write_fails(rt: HostRuntime) -> Result<(), Fail> {
    for (case, all, message) in WRITE_CASES {
        each_call_fails(&rt, rt.alloc(), case, all.as_bytes(), message)?;
    }
    expect_write_failures(&rt, rt.alloc(), NO_BYTE_WRITTEN)
}

const READ_FAILED: &str = "tr: standard input: read failed\n";

const F_READ_FAILED: &str = "join: f: read failed\n";

const G_READ_FAILED: &str = "join: g: read failed\n";

const NO_FAILURE: u64 = u64::MAX;

const PAIRS: &str = "a 1 x\na 1 y\na 2 x\na 2 y\n";

// With reads of four bytes: those of the text return `one,`, ` two`, and `.` with a newline, and each of a file returns
// one line. Three reads of g are in a table of their own.
const READS: &[Example] = &[
    (WORDS, Failing(TEXT, 0), &[], "", READ_FAILED),
    (WORDS, Failing(TEXT, 1), &[], "one\n", READ_FAILED),
    (WORDS, Failing(TEXT, 2), &[], "one\ntwo", READ_FAILED),
    (WORDS, Failing(TEXT, 3), &[], "one\ntwo\n", READ_FAILED),
    (
        LISTED,
        Text(b""),
        &[Failing(F, 0), Failing(G, NO_FAILURE)],
        "",
        F_READ_FAILED,
    ),
    (
        LISTED,
        Text(b""),
        &[Failing(F, 1), Failing(G, NO_FAILURE)],
        "a 1 x\na 1 y\n",
        F_READ_FAILED,
    ),
    (
        LISTED,
        Text(b""),
        &[Failing(F, 2), Failing(G, NO_FAILURE)],
        PAIRS,
        F_READ_FAILED,
    ),
    (
        LISTED,
        Text(b""),
        &[Failing(F, 3), Failing(G, NO_FAILURE)],
        ALL,
        F_READ_FAILED,
    ),
    (
        LISTED,
        Text(b""),
        &[Failing(F, NO_FAILURE), Failing(G, 0)],
        "",
        G_READ_FAILED,
    ),
    (
        LISTED,
        Text(b""),
        &[Failing(F, NO_FAILURE), Failing(G, 1)],
        "",
        G_READ_FAILED,
    ),
    (
        LISTED,
        Text(b""),
        &[Failing(F, NO_FAILURE), Failing(G, 2)],
        "",
        G_READ_FAILED,
    ),
];

// A command, two outputs, either of which it may write, and the message.
type TwoOutputs = (Case<'static>, &'static str, &'static str, &'static str);

// After three reads of g, the line `b - z` is not decided, since g is at the key b; but it would be correct. So the
// specification allows both outputs.
const UNDECIDED: &[TwoOutputs] = &[(
    Case {
        files: &[Failing(F, NO_FAILURE), Failing(G, 3)],
        size: 4,
        ..JOIN_CASE
    },
    "a 1 x\na 1 y\na 2 x\na 2 y\n",
    "a 1 x\na 1 y\na 2 x\na 2 y\nb - z\n",
    G_READ_FAILED,
)];

// One of the two was written, and this is the message.
fn assert_either(
    rt: &impl Abort,
    words: &[&str],
    report: &Report<VecSink, VecSink>,
    (one, other): (&str, &str),
    message: &str,
) {
    let out = report.out.bytes();
    assert_for(rt, &words, out == one.as_bytes() || out == other.as_bytes());
    assert_same_for(rt, &words, &report.messages.bytes(), &message.as_bytes());
    assert_same_for(rt, &words, &report.status, &1);
}

// Parsing the arguments of `tr` needs memory, and its run needs none.
const GROWTH_FAILURES: &[GrowthFailures] = &[(
    TR_CASE,
    "one\ntwo\n",
    "",
    "tr: out of memory\n",
    true,
)];

#[test]
fn each_read_and_each_growth_fails(rt: HostRuntime) -> Result<(), Fail> {
    expect_examples(&rt, rt.alloc(), &[4], READS)?;
    for (case, one, other, message) in UNDECIDED {
        let report = run_over(&rt, rt.alloc(), rt.alloc(), case)?;
        assert_either(&rt, case.words, &report, (one, other), message);
    }
    expect_growth_failures(&rt, rt.alloc(), GROWTH_FAILURES)
}
