//! Tests of whole runs of `join`: files in order and out of order, files that cannot be opened, and failures of
//! reads, writes and allocations.

use crate::harness::Input::{Failing, Text, Unopened};
use crate::harness::{
    CallCount, Case, DEFAULT, Example, GrowthFailures, Input, PIECE_SIZES, WriteFailures,
    expect_calls, expect_examples, expect_growth_failures, expect_unopened, expect_write_failures,
};
use std::test::Fail;

pub const JOIN: &[&str] = &["join", "f", "g"];

const LISTED: &[&str] = &["join", "-a", "2", "-e", "-", "-o", "0,1.2,2.2", "f", "g"];

const PAIRED_F: &[u8] = b"a 1\na 2\nc 9\n";

const PAIRED_G: &[u8] = b"a x\na y\nb z\n";

const PAIRED: &[Input] = &[Text(PAIRED_F), Text(PAIRED_G)];

const PAIRS: &str = "a 1 x\na 1 y\na 2 x\na 2 y\n";

const UNSORTED_F: &[u8] = b"b 1\na 2\n";

const UNSORTED_G: &[u8] = b"a x\nb y\n";

const UNSORTED: &[Input] = &[Text(UNSORTED_F), Text(UNSORTED_G)];

const F_DISORDER: &str = "join: f: line 2 is out of order\n";

const G_DISORDER: &str = "join: g: line 2 is out of order\n";

const EXAMPLES: &[Example] = &[
    (JOIN, Text(b""), PAIRED, PAIRS, ""),
    (
        LISTED,
        Text(b""),
        PAIRED,
        "a 1 x\na 1 y\na 2 x\na 2 y\nb - z\n",
        "",
    ),
    (
        &["join", "-t", ",", "-v", "1", "f", "g"],
        Text(b""),
        &[Text(b",1\nk\n"), Text(b"k,2\n")],
        ",1\n",
        "",
    ),
    (
        &["join", "-1", "2", "f", "g"],
        Text(b""),
        &[Text(b"x a\ny b\n"), Text(b"a 1\nb 2\n")],
        "a x 1\nb y 2\n",
        "",
    ),
    (
        &["join", "-a", "1", "-a", "2", "f", "g"],
        Text(b""),
        &[Text(b"a 1\nc 3\n"), Text(b"b 2\nc 4\n")],
        "a 1\nb 2\nc 3 4\n",
        "",
    ),
    (
        &[
            "join",
            "-t",
            ":",
            "-o",
            "1.2,0,2.3",
            "-e",
            "X",
            "-a",
            "1",
            "f",
            "g",
        ],
        Text(b""),
        &[Text(b"a:\nb:q\n"), Text(b"b:r\n")],
        "X:a:X\nq:b:X\n",
        "",
    ),
    (
        JOIN,
        Text(b""),
        &[Text(b"\na 1\n"), Text(b" \na 2\n")],
        "\na 1 2\n",
        "",
    ),
    (
        &["join", "-t", ",", "f", "g"],
        Text(b""),
        &[Text(b"a,1\n"), Text(b"a,\n")],
        "a,1,\n",
        "",
    ),
    (
        &["join", "-1", "5", "-a", "1", "f", "g"],
        Text(b""),
        &[Text(b"x y\n"), Text(b"")],
        " x y\n",
        "",
    ),
    // Two empty files.
    (JOIN, Text(b""), &[Text(b""), Text(b"")], "", ""),
    (
        &["join", "-z", "f", "g"],
        Text(b""),
        &[Text(b"a 1\nq\x00"), Text(b"a x\x00")],
        "a 1\nq x\x00",
        "",
    ),
    (
        &["join", "-r", "f", "g"],
        Text(b""),
        &[Text(b"b 1\na 2\n"), Text(b"b x\na y\n")],
        "b 1 x\na 2 y\n",
        "",
    ),
    (
        &["join", "-r", "-t", ",", "-a", "1", "f", "g"],
        Text(b""),
        &[Text(b"k\n,1\n"), Text(b"")],
        "k\n,1\n",
        "",
    ),
    (JOIN, Text(b""), UNSORTED, "b 1 y\n", F_DISORDER),
    (
        JOIN,
        Text(b""),
        &[Text(b"a\n"), Text(b"b\na\n")],
        "",
        G_DISORDER,
    ),
    (
        &["join", "-r", "f", "g"],
        Text(b""),
        &[Text(b"b 1\nc 2\n"), Text(b"b x\n")],
        "b 1 x\n",
        F_DISORDER,
    ),
    (
        &["join", "-z", "f", "g"],
        Text(b""),
        &[Text(b"b 1\x00"), Text(b"b x\x00a y\x00")],
        "b 1 x\x00",
        G_DISORDER,
    ),
    // Standard input and a file.
    (
        &["join", "f", "-"],
        Text(b"a x\nb z"),
        &[Text(b"a 1\nb 2")],
        "a 1 x\nb 2 z\n",
        "",
    ),
    (&["join", "-", "g"], Text(b""), &[Text(b"a 1\n")], "", ""),
    (
        &["join", "-", "g"],
        Text(b"b 1\na 2\n"),
        &[Text(b"b x\n")],
        "b 1 x\n",
        "join: standard input: line 2 is out of order\n",
    ),
];

#[test]
fn pairs_of_two_files(rt: HostRuntime) -> Result<(), Fail> {
    expect_examples(&rt, rt.alloc(), PIECE_SIZES, EXAMPLES)
}

const ALL: u64 = u64::MAX;

const F_READ_FAILED: &str = "join: f: read failed\n";

const G_READ_FAILED: &str = "join: g: read failed\n";

// Each read returns one line. The pairs of a line of f are written before the line after it is read, once all lines of
// g with its key are read; an unpaired line is written before the line after it is read.
const READS: &[Example] = &[
    (
        JOIN,
        Text(b""),
        &[Failing(PAIRED_F, 0), Failing(PAIRED_G, ALL)],
        "",
        F_READ_FAILED,
    ),
    (
        JOIN,
        Text(b""),
        &[Failing(PAIRED_F, 1), Failing(PAIRED_G, ALL)],
        "a 1 x\na 1 y\n",
        F_READ_FAILED,
    ),
    (
        JOIN,
        Text(b""),
        &[Failing(PAIRED_F, 2), Failing(PAIRED_G, ALL)],
        PAIRS,
        F_READ_FAILED,
    ),
    (
        JOIN,
        Text(b""),
        &[Failing(PAIRED_F, 3), Failing(PAIRED_G, ALL)],
        PAIRS,
        F_READ_FAILED,
    ),
    (
        JOIN,
        Text(b""),
        &[Failing(PAIRED_F, ALL), Failing(PAIRED_G, 0)],
        "",
        G_READ_FAILED,
    ),
    (
        JOIN,
        Text(b""),
        &[Failing(PAIRED_F, ALL), Failing(PAIRED_G, 1)],
        "",
        G_READ_FAILED,
    ),
    (
        JOIN,
        Text(b""),
        &[Failing(PAIRED_F, ALL), Failing(PAIRED_G, 2)],
        "",
        G_READ_FAILED,
    ),
    (
        JOIN,
        Text(b""),
        &[Failing(PAIRED_F, ALL), Failing(PAIRED_G, 3)],
        PAIRS,
        G_READ_FAILED,
    ),
    (
        JOIN,
        Text(b""),
        &[Failing(PAIRED_F, 3), Failing(PAIRED_G, 3)],
        PAIRS,
        G_READ_FAILED,
    ),
    (
        JOIN,
        Text(b""),
        &[Failing(UNSORTED_F, 0), Failing(UNSORTED_G, ALL)],
        "",
        F_READ_FAILED,
    ),
    (
        JOIN,
        Text(b""),
        &[Failing(UNSORTED_F, 1), Failing(UNSORTED_G, ALL)],
        "b 1 y\n",
        F_READ_FAILED,
    ),
    (
        JOIN,
        Text(b""),
        &[Failing(UNSORTED_F, ALL), Failing(UNSORTED_G, 0)],
        "",
        G_READ_FAILED,
    ),
    (
        JOIN,
        Text(b""),
        &[Failing(UNSORTED_F, ALL), Failing(UNSORTED_G, 1)],
        "",
        G_READ_FAILED,
    ),
    (
        JOIN,
        Text(b""),
        &[Failing(UNSORTED_F, ALL), Failing(UNSORTED_G, 2)],
        "",
        G_READ_FAILED,
    ),
    // The disorder is decided, and nothing after it is read.
    (
        JOIN,
        Text(b""),
        &[Failing(UNSORTED_F, 2), Failing(UNSORTED_G, 3)],
        "b 1 y\n",
        F_DISORDER,
    ),
    (
        &["join", "-a", "1", "-a", "2", "f", "g"],
        Text(b""),
        &[Failing(b"a 1\nc 3\n", ALL), Failing(b"b 2\n", 1)],
        "a 1\nb 2\n",
        G_READ_FAILED,
    ),
];

const PAIRS_CASE: Case = Case {
    words: JOIN,
    files: PAIRED,
    ..DEFAULT
};

const OUT_OF_ORDER: Case = Case {
    words: JOIN,
    files: UNSORTED,
    ..DEFAULT
};

// The failed write is reported, and the disorder is not.
const WRITE_FAILURES: &[WriteFailures] = &[
    (
        PAIRS_CASE,
        "join: output: write failed\n",
        &[
            (7, usize::MAX, 0, ""),
            (7, usize::MAX, 1, "a 1 x\na"),
            (7, usize::MAX, 2, "a 1 x\na 1 y\na "),
            (7, usize::MAX, 3, "a 1 x\na 1 y\na 2 x\na 2"),
            (7, usize::MAX, 4, PAIRS),
            (usize::MAX, 6, u64::MAX, "a 1 x\n"),
            (1, usize::MAX, 8, "a 1 x\na "),
            (1, usize::MAX, 24, PAIRS),
        ],
    ),
    (
        OUT_OF_ORDER,
        "join: output: write failed\n",
        &[
            (4, usize::MAX, 0, ""),
            (4, usize::MAX, 1, "b 1 "),
            (4, usize::MAX, 2, "b 1 y\n"),
        ],
    ),
];

const NO_MEMORY: &str = "join: out of memory\n";

// Three lines of g have one key.
const GROUP: Case = Case {
    words: JOIN,
    files: &[Text(b"a 1\na 2\nc 9\n"), Text(b"a x\na y\na z\nb w\n")],
    ..DEFAULT
};

const LISTED_GROUP: Case = Case {
    words: LISTED,
    ..GROUP
};

const GROWTH_FAILURES: &[GrowthFailures] = &[
    (
        GROUP,
        "a 1 x\na 1 y\na 1 z\na 2 x\na 2 y\na 2 z\n",
        "",
        NO_MEMORY,
        false,
    ),
    (
        LISTED_GROUP,
        "a 1 x\na 1 y\na 1 z\na 2 x\na 2 y\na 2 z\nb - w\n",
        "",
        NO_MEMORY,
        false,
    ),
];

#[test]
fn each_call_and_each_growth_fails(rt: HostRuntime) -> Result<(), Fail> {
    expect_examples(&rt, rt.alloc(), &[4], READS)?;
    expect_write_failures(&rt, rt.alloc(), WRITE_FAILURES)?;
    expect_growth_failures(&rt, rt.alloc(), GROWTH_FAILURES)
}

// The reads of the opened file would fail. No call of the output sink is made.
const UNOPENED: &[CallCount] = &[
    (
        Case {
            words: JOIN,
            files: &[Unopened, Unopened],
            ..DEFAULT
        },
        "",
        "join: f: cannot be opened\njoin: g: cannot be opened\n",
        0,
    ),
    (
        Case {
            words: JOIN,
            files: &[Failing(b"b\na\n", 0), Unopened],
            size: 1,
            ..DEFAULT
        },
        "",
        "join: g: cannot be opened\n",
        0,
    ),
];

#[test]
fn unopened_files_are_reported(rt: HostRuntime) -> Result<(), Fail> {
    expect_calls(&rt, rt.alloc(), UNOPENED)?;
    let words = ["join", "-", "g"];
    expect_unopened(&rt, rt.alloc(), &words, "join: g: cannot be opened\n")
}
