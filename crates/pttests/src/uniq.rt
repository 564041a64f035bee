//! Tests of whole runs of `uniq`: runs of equal lines, lines and runs across the blocks in which input is read, a
//! file that cannot be opened, and failures of reads, writes and allocations.

use crate::harness::Input::{Failing, Text, Unopened};
use crate::harness::{
    Case, CaseExample, DEFAULT, Example, GrowthFailures, Limits, PIECE_SIZES, UNLIMITED,
    WriteFailures, expect_cases, expect_examples, expect_growth_failures, expect_long,
    expect_write_failures,
};
use ptlines::BLOCK;
use std::alloc::Global;
use std::process::Abort;
use std::test::Fail;

const EXAMPLES: &[Example] = &[
    (
        &["uniq", "-c"],
        Text(b"a\na\nb\na"),
        &[],
        "2 a\n1 b\n1 a\n",
        "",
    ),
    (
        &["uniq", "-f", "1", "-s", "1"],
        Text(b" x 1a\ny 1a\n"),
        &[],
        " x 1a\n",
        "",
    ),
    (
        &["uniq", "-c", "-f", "1"],
        Text(b"1 x\n2 x\n3 y"),
        &[],
        "2 1 x\n1 3 y\n",
        "",
    ),
    // Lines with fewer fields or bytes than are skipped have empty keys.
    (&["uniq", "-f", "2"], Text(b"a b\nc\n"), &[], "a b\n", ""),
    (
        &["uniq", "-s", "18446744073709551615"],
        Text(b"a\nb\n"),
        &[],
        "a\n",
        "",
    ),
    (&["uniq", "-d"], Text(b"a\na\nb\n"), &[], "a\n", ""),
    (&["uniq", "-u"], Text(b"a\na\nb\n"), &[], "b\n", ""),
    (&["uniq", "-"], Text(b"a\na\n"), &[], "a\n", ""),
    (&["uniq"], Text(b"\n\n"), &[], "\n", ""),
    (&["uniq", "-c"], Text(b""), &[], "", ""),
    (
        &["uniq", "-zc"],
        Text(b"a\x00a\x00b"),
        &[],
        "2 a\x001 b\x00",
        "",
    ),
    (
        &["uniq", "-z"],
        Text(b"a\nb\x00a\nb\x00a\x00"),
        &[],
        "a\nb\x00a\x00",
        "",
    ),
    // A file and an output.
    (
        &["uniq", "-d", "f", "out"],
        Text(b""),
        &[Text(b"a\na\nb\n")],
        "a\n",
        "",
    ),
];

#[test]
fn runs_of_equal_lines(rt: HostRuntime) -> Result<(), Fail> {
    expect_examples(&rt, rt.alloc(), PIECE_SIZES, EXAMPLES)
}

const READ_FAILED: &str = "uniq: standard input: read failed\n";

// With reads of two bytes. Nothing is written of the last run of equal lines.
const READS: &[Example] = &[
    (
        &["uniq", "-c"],
        Failing(b"a\na\nb\nb\nc", 0),
        &[],
        "",
        READ_FAILED,
    ),
    (
        &["uniq", "-c"],
        Failing(b"a\na\nb\nb\nc", 1),
        &[],
        "",
        READ_FAILED,
    ),
    (
        &["uniq", "-c"],
        Failing(b"a\na\nb\nb\nc", 2),
        &[],
        "",
        READ_FAILED,
    ),
    (
        &["uniq", "-c"],
        Failing(b"a\na\nb\nb\nc", 3),
        &[],
        "2 a\n",
        READ_FAILED,
    ),
    (
        &["uniq", "-c"],
        Failing(b"a\na\nb\nb\nc", 4),
        &[],
        "2 a\n",
        READ_FAILED,
    ),
    (
        &["uniq", "-c"],
        Failing(b"a\na\nb\nb\nc", 5),
        &[],
        "2 a\n",
        READ_FAILED,
    ),
    (
        &["uniq", "-c"],
        Failing(b"a\na\nb\na", 0),
        &[],
        "",
        READ_FAILED,
    ),
    (
        &["uniq", "-c"],
        Failing(b"a\na\nb\na", 1),
        &[],
        "",
        READ_FAILED,
    ),
    (
        &["uniq", "-c"],
        Failing(b"a\na\nb\na", 2),
        &[],
        "",
        READ_FAILED,
    ),
    (
        &["uniq", "-c"],
        Failing(b"a\na\nb\na", 3),
        &[],
        "2 a\n",
        READ_FAILED,
    ),
    (
        &["uniq", "-c"],
        Failing(b"a\na\nb\na", 4),
        &[],
        "2 a\n",
        READ_FAILED,
    ),
    (&["uniq"], Failing(b"a\na\nb", 3), &[], "", READ_FAILED),
    (
        &["uniq", "-c"],
        Failing(b"a\nb\nc", 3),
        &[],
        "1 a\n",
        READ_FAILED,
    ),
];

// Nothing is written, and the sink, which would fail, is not flushed.
const UNOPENED: &[CaseExample] = &[(
    Case {
        words: &["uniq", "g", "out"],
        standard: Text(b"a\n"),
        files: &[Unopened],
        out: Limits {
            passing: 0,
            ..UNLIMITED
        },
        ..DEFAULT
    },
    "",
    "uniq: g: cannot be opened\n",
)];

const ONCE: &str = "ab\ncd\n";

const COUNTS: &str = "2 a\n1 b\n1 a\n";

const LINES: Case = Case {
    words: &["uniq"],
    standard: Text(b"ab\nab\ncd\n"),
    size: 1,
    ..DEFAULT
};

const COUNTED: Case = Case {
    words: &["uniq", "-c"],
    standard: Text(b"a\na\nb\na"),
    size: 1,
    ..DEFAULT
};

const LONGER: Case = Case {
    words: &["uniq", "-c"],
    standard: Text(b"a\na\nbc\na"),
    size: 1,
    ..DEFAULT
};

const WRITE_FAILURES: &[WriteFailures] = &[
    (
        LINES,
        "uniq: output: write failed\n",
        &[
            (2, usize::MAX, 0, ""),
            (2, usize::MAX, 1, "ab"),
            (2, usize::MAX, 2, "ab\n"),
            (2, usize::MAX, 3, "ab\ncd"),
            (2, usize::MAX, 4, ONCE),
            (usize::MAX, 5, u64::MAX, "ab\ncd"),
        ],
    ),
    (
        COUNTED,
        "uniq: output: write failed\n",
        &[
            (1, usize::MAX, 0, ""),
            (1, usize::MAX, 1, "2"),
            (1, usize::MAX, 2, "2 "),
            (1, usize::MAX, 3, "2 a"),
            (1, usize::MAX, 4, "2 a\n"),
            (1, usize::MAX, 5, "2 a\n1"),
            (1, usize::MAX, 6, "2 a\n1 "),
            (1, usize::MAX, 7, "2 a\n1 b"),
            (1, usize::MAX, 8, "2 a\n1 b\n"),
            (1, usize::MAX, 9, "2 a\n1 b\n1"),
            (1, usize::MAX, 10, "2 a\n1 b\n1 "),
            (1, usize::MAX, 11, "2 a\n1 b\n1 a"),
            (1, usize::MAX, 12, COUNTS),
        ],
    ),
];

const NO_MEMORY: &str = "uniq: out of memory\n";

const GROWTH_FAILURES: &[GrowthFailures] = &[
    (LONGER, "2 a\n1 bc\n1 a\n", "", NO_MEMORY, false),
    (COUNTED, COUNTS, "", NO_MEMORY, false),
];

#[test]
fn each_call_and_each_growth_fails(rt: HostRuntime) -> Result<(), Fail> {
    expect_examples(&rt, rt.alloc(), &[2], READS)?;
    expect_cases(&rt, rt.alloc(), UNOPENED)?;
    expect_write_failures(&rt, rt.alloc(), WRITE_FAILURES)?;
    expect_growth_failures(&rt, rt.alloc(), GROWTH_FAILURES)
}

// Two equal lines of this length.
fn two_equal_lines(alloc: Global, length: usize) -> Result<Vec<u8>, Fail> {
    let mut text = Vec::new(alloc);
    for _ in 0..2 {
        for _ in 0..length {
            text.push(b'a')?;
        }
        text.push(b'\n')?;
    }
    Ok(text)
}

const LENGTHS: &[usize] = &[0, 1, BLOCK - 2, BLOCK - 1, BLOCK, BLOCK + 1, 20000];

// At most two lines are held.
fn expect_one(rt: &impl Abort, alloc: Global, length: usize) -> Result<(), Fail> {
    let text = two_equal_lines(alloc, length)?;
    let two = (length as u128).saturating_mul(2);
    expect_long(rt, alloc, &["uniq", "-u"], (length, &text), b"", two)
}

// Runs of one to three equal lines, longer than a block in all, and the output of them with counts.
fn counted_runs(alloc: Global) -> Result<(String, String), Fail> {
    let mut text = String::new(alloc);
    let mut counted = String::new(alloc);
    for number in 0..3000 {
        let count = number % 3 + 1;
        let line = format!(in alloc; "{number}\n")?;
        for _ in 0..count {
            text.push_str(line.as_str())?;
        }
        counted.push_str(format!(in alloc; "{count} {number}\n")?.as_str())?;
    }
    Ok((text, counted))
}

#[test]
fn lines_and_runs_across_blocks(rt: HostRuntime) -> Result<(), Fail> {
    for length in LENGTHS {
        expect_one(&rt, rt.alloc(), *length)?;
    }
    let (text, counted) = counted_runs(rt.alloc())?;
    let of = (text.len(), text.as_bytes());
    expect_long(&rt, rt.alloc(), &["uniq", "-c"], of, counted.as_bytes(), 8)
}
