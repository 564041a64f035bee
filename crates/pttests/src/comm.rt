//! Tests of whole runs of `comm`: files in order and out of order, files that cannot be opened, truncated messages,
//! and failures of reads, writes and allocations.

use crate::harness::Input::{Failing, Text, Unopened};
use crate::harness::{
    CallCount, Case, CaseExample, DEFAULT, Example, GrowthFailures, Limits, PIECE_SIZES, UNLIMITED,
    WriteFailures, expect_calls, expect_cases, expect_examples, expect_growth_failures,
    expect_write_failures,
};
use std::test::Fail;

pub const COMMON: &[&str] = &["comm", "f", "g"];

const EXAMPLES: &[Example] = &[
    (
        COMMON,
        Text(b""),
        &[Text(b"a\na\nb\n"), Text(b"a\nc\n")],
        "\t\ta\na\nb\n\tc\n",
        "",
    ),
    (
        &["comm", "-12", "f", "g"],
        Text(b""),
        &[Text(b"a\na\nb\n"), Text(b"a\nc\n")],
        "a\n",
        "",
    ),
    (
        &["comm", "-1", "f", "g"],
        Text(b""),
        &[Text(b"a\nb\n"), Text(b"b\nc\n")],
        "\tb\nc\n",
        "",
    ),
    (
        &["comm", "-3", "f", "g"],
        Text(b""),
        &[Text(b"a\nb\n"), Text(b"b\nc\n")],
        "a\n\tc\n",
        "",
    ),
    (
        &["comm", "-123", "f", "g"],
        Text(b""),
        &[Text(b"a\nb\n"), Text(b"b\nc\n")],
        "",
        "",
    ),
    (COMMON, Text(b""), &[Text(b""), Text(b"")], "", ""),
    // The last line may lack its terminator.
    (
        COMMON,
        Text(b""),
        &[Text(b"a"), Text(b"a\nb")],
        "\t\ta\n\tb\n",
        "",
    ),
    // A line precedes each longer line that begins with it.
    (
        COMMON,
        Text(b""),
        &[Text(b"ab\n"), Text(b"\na\nab\nabc\n")],
        "\t\n\ta\n\t\tab\n\tabc\n",
        "",
    ),
    (
        &["comm", "-r", "f", "g"],
        Text(b""),
        &[Text(b"b\na\na\n"), Text(b"c\na\n")],
        "\tc\nb\n\t\ta\na\n",
        "",
    ),
    (
        &["comm", "-r", "f", "g"],
        Text(b""),
        &[Text(b"ab\na\n\n"), Text(b"a\n")],
        "ab\n\t\ta\n\n",
        "",
    ),
    (
        &["comm", "-z", "f", "g"],
        Text(b""),
        &[Text(b"a\nb\x00c"), Text(b"a\x00c\x00")],
        "\ta\x00a\nb\x00\t\tc\x00",
        "",
    ),
    (
        &["comm", "-rz", "f", "g"],
        Text(b""),
        &[Text(b"b\x00a\x00"), Text(b"b\x00")],
        "\t\tb\x00a\x00",
        "",
    ),
    // Files out of order.
    (
        COMMON,
        Text(b""),
        &[Text(b"b\na\nc\n"), Text(b"a\nb\nb\nd\n")],
        "\ta\n\t\tb\n\tb\n",
        "comm: f: line 2 is out of order\n",
    ),
    (
        COMMON,
        Text(b""),
        &[Text(b"b\na\n"), Text(b"c\nb\n")],
        "b\n",
        "comm: f: line 2 is out of order\n",
    ),
    (
        COMMON,
        Text(b""),
        &[Text(b"c\nb\n"), Text(b"b\na\n")],
        "\tb\n",
        "comm: g: line 2 is out of order\n",
    ),
    (
        COMMON,
        Text(b""),
        &[Text(b"b\na\n"), Text(b"b\nb\na\n")],
        "\t\tb\n\tb\n",
        "comm: f: line 2 is out of order\n",
    ),
    (
        COMMON,
        Text(b""),
        &[Text(b"b\nb\na\n"), Text(b"b\na\n")],
        "\t\tb\nb\n",
        "comm: f: line 3 is out of order\n",
    ),
    (
        COMMON,
        Text(b""),
        &[Text(b"a\nab\n"), Text(b"ab\na\n")],
        "a\n\t\tab\n",
        "comm: g: line 2 is out of order\n",
    ),
    (
        &["comm", "-r", "f", "g"],
        Text(b""),
        &[Text(b"a\nab\n"), Text(b"")],
        "a\n",
        "comm: f: line 2 is out of order\n",
    ),
    (
        &["comm", "-r", "f", "g"],
        Text(b""),
        &[Text(b"b\nc\n"), Text(b"a\nb\n")],
        "b\n",
        "comm: f: line 2 is out of order\n",
    ),
    (
        &["comm", "-z", "f", "g"],
        Text(b""),
        &[Text(b"b\x00a\x00"), Text(b"")],
        "b\x00",
        "comm: f: line 2 is out of order\n",
    ),
    // An input is read to its end even if none of its lines is written and the other input has ended.
    (
        &["comm", "-23", "f", "g"],
        Text(b""),
        &[Text(b""), Text(b"b\na\n")],
        "",
        "comm: g: line 2 is out of order\n",
    ),
    (
        &["comm", "-123", "f", "g"],
        Text(b""),
        &[Text(b"a\nc\nb\n"), Text(b"a\n")],
        "",
        "comm: f: line 3 is out of order\n",
    ),
    // Standard input and a file.
    (
        &["comm", "f", "-"],
        Text(b"b\n"),
        &[Text(b"a\nb\n")],
        "a\n\t\tb\n",
        "",
    ),
    (
        &["comm", "-", "g"],
        Text(b"b\n"),
        &[Text(b"a\nb\n")],
        "\ta\n\t\tb\n",
        "",
    ),
    (&["comm", "-", "g"], Text(b""), &[Text(b"a\n")], "\ta\n", ""),
    (
        &["comm", "f", "-"],
        Text(b"b\na\n"),
        &[Text(b"")],
        "\tb\n",
        "comm: standard input: line 2 is out of order\n",
    ),
];

#[test]
fn columns_of_two_files(rt: HostRuntime) -> Result<(), Fail> {
    expect_examples(&rt, rt.alloc(), PIECE_SIZES, EXAMPLES)
}

const ALL: u64 = u64::MAX;

const SORTED_F: &[u8] = b"a\na\nb\n";

const SORTED_G: &[u8] = b"a\nc\n";

const UNSORTED_F: &[u8] = b"b\na\nc\n";

const UNSORTED_G: &[u8] = b"a\nb\nb\nd\n";

const F_READ_FAILED: &str = "comm: f: read failed\n";

const G_READ_FAILED: &str = "comm: g: read failed\n";

const F_DISORDER: &str = "comm: f: line 2 is out of order\n";

// Each read returns one line. An entry is written before the line after it is read.
const READS: &[Example] = &[
    (
        COMMON,
        Text(b""),
        &[Failing(SORTED_F, 0), Failing(SORTED_G, ALL)],
        "",
        F_READ_FAILED,
    ),
    (
        COMMON,
        Text(b""),
        &[Failing(SORTED_F, 1), Failing(SORTED_G, ALL)],
        "\t\ta\n",
        F_READ_FAILED,
    ),
    (
        COMMON,
        Text(b""),
        &[Failing(SORTED_F, 2), Failing(SORTED_G, ALL)],
        "\t\ta\na\n",
        F_READ_FAILED,
    ),
    (
        COMMON,
        Text(b""),
        &[Failing(SORTED_F, 3), Failing(SORTED_G, ALL)],
        "\t\ta\na\nb\n",
        F_READ_FAILED,
    ),
    (
        COMMON,
        Text(b""),
        &[Failing(SORTED_F, ALL), Failing(SORTED_G, 0)],
        "",
        G_READ_FAILED,
    ),
    (
        COMMON,
        Text(b""),
        &[Failing(SORTED_F, ALL), Failing(SORTED_G, 1)],
        "\t\ta\n",
        G_READ_FAILED,
    ),
    (
        COMMON,
        Text(b""),
        &[Failing(SORTED_F, ALL), Failing(SORTED_G, 2)],
        "\t\ta\na\nb\n\tc\n",
        G_READ_FAILED,
    ),
    (
        COMMON,
        Text(b""),
        &[Failing(UNSORTED_F, 0), Failing(UNSORTED_G, ALL)],
        "",
        F_READ_FAILED,
    ),
    (
        COMMON,
        Text(b""),
        &[Failing(UNSORTED_F, 1), Failing(UNSORTED_G, ALL)],
        "\ta\n\t\tb\n",
        F_READ_FAILED,
    ),
    (
        COMMON,
        Text(b""),
        &[Failing(UNSORTED_F, ALL), Failing(UNSORTED_G, 0)],
        "",
        G_READ_FAILED,
    ),
    (
        COMMON,
        Text(b""),
        &[Failing(UNSORTED_F, ALL), Failing(UNSORTED_G, 1)],
        "\ta\n",
        G_READ_FAILED,
    ),
    (
        COMMON,
        Text(b""),
        &[Failing(UNSORTED_F, ALL), Failing(UNSORTED_G, 2)],
        "\ta\n\t\tb\n",
        G_READ_FAILED,
    ),
    (
        COMMON,
        Text(b""),
        &[Failing(UNSORTED_F, ALL), Failing(UNSORTED_G, 3)],
        "\ta\n\t\tb\n\tb\n",
        G_READ_FAILED,
    ),
    // The disorder is decided, and nothing after it is read.
    (
        COMMON,
        Text(b""),
        &[Failing(UNSORTED_F, 2), Failing(UNSORTED_G, 4)],
        "\ta\n\t\tb\n\tb\n",
        F_DISORDER,
    ),
    (
        COMMON,
        Text(b""),
        &[Failing(b"a\nc\n", ALL), Failing(b"b\n", 1)],
        "a\n\tb\n",
        G_READ_FAILED,
    ),
    (
        COMMON,
        Text(b""),
        &[Failing(b"a\nb\na\n", ALL), Failing(b"a\nb\n", 2)],
        "\t\ta\n\t\tb\n",
        G_READ_FAILED,
    ),
    // Both files are read to their ends even if no line can be written; here the reads at the ends fail.
    (
        &["comm", "-123", "f", "g"],
        Text(b""),
        &[Text(b""), Failing(b"a\nb\n", 2)],
        "",
        G_READ_FAILED,
    ),
    (
        &["comm", "-23", "f", "g"],
        Text(b""),
        &[Text(b""), Failing(b"a\nb\n", 2)],
        "",
        G_READ_FAILED,
    ),
    (
        &["comm", "-1", "f", "g"],
        Text(b""),
        &[Failing(b"a\nb\n", 2), Text(b"")],
        "",
        F_READ_FAILED,
    ),
];

const SORTED: Case = Case {
    words: COMMON,
    files: &[Text(SORTED_F), Text(SORTED_G)],
    ..DEFAULT
};

const UNSORTED: Case = Case {
    words: COMMON,
    files: &[Text(UNSORTED_F), Text(UNSORTED_G)],
    ..DEFAULT
};

// The failed write is reported, and the disorder is not.
const WRITE_FAILURES: &[WriteFailures] = &[
    (
        SORTED,
        "comm: output: write failed\n",
        &[
            (4, usize::MAX, 0, ""),
            (4, usize::MAX, 1, "\t\ta\n"),
            (4, usize::MAX, 2, "\t\ta\na\nb\n"),
            (4, usize::MAX, 3, "\t\ta\na\nb\n\tc\n"),
            (usize::MAX, 4, u64::MAX, "\t\ta\n"),
            (1, usize::MAX, 5, "\t\ta\na"),
        ],
    ),
    (
        UNSORTED,
        "comm: output: write failed\n",
        &[
            (4, usize::MAX, 0, ""),
            (4, usize::MAX, 1, "\ta\n\t"),
            (4, usize::MAX, 2, "\ta\n\t\tb\n\t"),
            (4, usize::MAX, 3, "\ta\n\t\tb\n\tb\n"),
            (usize::MAX, 7, u64::MAX, "\ta\n\t\tb\n"),
            (1, usize::MAX, 10, "\ta\n\t\tb\n\tb\n"),
        ],
    ),
];

const NO_MEMORY: &str = "comm: out of memory\n";

const GROWTH_FAILURES: &[GrowthFailures] = &[
    (SORTED, "\t\ta\na\nb\n\tc\n", "", NO_MEMORY, false),
    (UNSORTED, "\ta\n\t\tb\n\tb\n", F_DISORDER, NO_MEMORY, false),
];

#[test]
fn each_call_and_each_growth_fails(rt: HostRuntime) -> Result<(), Fail> {
    expect_examples(&rt, rt.alloc(), &[2], READS)?;
    expect_write_failures(&rt, rt.alloc(), WRITE_FAILURES)?;
    expect_growth_failures(&rt, rt.alloc(), GROWTH_FAILURES)
}

const DISORDER: Case = Case {
    words: COMMON,
    files: &[Text(b"b\na\n"), Text(b"")],
    ..DEFAULT
};

const TEN_BYTES: Limits = Limits {
    room: 10,
    ..UNLIMITED
};

const ONE_CALL: Limits = Limits {
    passing: 1,
    ..UNLIMITED
};

const MESSAGES: &[CaseExample] = &[
    // A prefix of the message is taken.
    (
        Case {
            messages: TEN_BYTES,
            ..DISORDER
        },
        "b\n",
        "comm: f: l",
    ),
    // A message of usual length is one call of the sink.
    (
        Case {
            messages: ONE_CALL,
            ..DISORDER
        },
        "b\n",
        F_DISORDER,
    ),
];

// The reads of the opened file would fail. No call of the output sink is made.
const UNOPENED: &[CallCount] = &[
    (
        Case {
            words: COMMON,
            files: &[Unopened, Unopened],
            ..DEFAULT
        },
        "",
        "comm: f: cannot be opened\ncomm: g: cannot be opened\n",
        0,
    ),
    (
        Case {
            words: COMMON,
            files: &[Failing(b"b\na\n", 0), Unopened],
            size: 1,
            ..DEFAULT
        },
        "",
        "comm: g: cannot be opened\n",
        0,
    ),
    (
        Case {
            words: &["comm", "-", "f"],
            standard: Failing(b"b\na\n", 0),
            files: &[Unopened],
            size: 1,
            ..DEFAULT
        },
        "",
        "comm: f: cannot be opened\n",
        0,
    ),
];

#[test]
fn unopened_files_are_reported(rt: HostRuntime) -> Result<(), Fail> {
    expect_cases(&rt, rt.alloc(), MESSAGES)?;
    expect_calls(&rt, rt.alloc(), UNOPENED)
}
