//! Tests of whole runs of `paste`, with `-s` and without: rows of several inputs, lines across the blocks in which
//! input is read, operands that cannot be opened, and failures of reads, writes and allocations.

use crate::harness::Input::{Failing, Text, Unopened};
use crate::harness::{
    Case, CaseExample, DEFAULT, Example, GrowthFailures, Input, Limits, PIECE_SIZES, UNLIMITED,
    WriteFailures, expect_cases, expect_examples, expect_growth_failures, expect_long,
    expect_unopened, expect_write_failures,
};
use ptfakes::texts::text_of;
use ptlines::BLOCK;
use std::alloc::Global;
use std::process::Abort;
use std::test::Fail;

const EXAMPLES: &[Example] = &[
    (
        &["paste", "-d", "\\0,", "-", "-", "-"],
        Text(b"1\n2\n3\n4\n"),
        &[],
        "12,3\n4,\n",
        "",
    ),
    (&["paste", "-"], Text(b""), &[], "", ""),
    (&["paste", "-"], Text(b"a\n\nb"), &[], "a\n\nb\n", ""),
    (&["paste", "-", "-"], Text(b"a\0b\n"), &[], "a\0b\t\n", ""),
    (
        &["paste", "-zd", "\\n", "-", "-"],
        Text(b"1\x002\n3"),
        &[],
        "1\n2\n3\0",
        "",
    ),
    (&["paste", "-s", "-"], Text(b""), &[], "\n", ""),
    (&["paste", "-s", "-"], Text(b"1\n\n2"), &[], "1\t\t2\n", ""),
    (
        &["paste", "-s", "-d", "\\0\\n", "-"],
        Text(b"a\nb\nc\nd\n"),
        &[],
        "ab\ncd\n",
        "",
    ),
    (
        &["paste", "-sz", "-"],
        Text(b"1\x002\n3"),
        &[],
        "1\t2\n3\0",
        "",
    ),
    // Files.
    (
        &["paste", "f", "-", "g", "-"],
        Text(b"1\n2\n3\n"),
        &[Text(b"a\n"), Text(b"")],
        "a\t1\t\t2\n\t3\t\t\n",
        "",
    ),
    (
        &["paste", "f", "f"],
        Text(b""),
        &[Text(b"a\nb"), Text(b"a\nb")],
        "a\ta\nb\tb\n",
        "",
    ),
    (
        &["paste", "-s", "-d", "\\0\\n", "f"],
        Text(b""),
        &[Text(b"a\nb\nc\nd\n")],
        "ab\ncd\n",
        "",
    ),
    (
        &["paste", "-d", "12", "-", "f", "-"],
        Text(b"1\n2\n3\n4\n5\n"),
        &[Text(b"a\nb")],
        "11a22\n31b24\n512\n",
        "",
    ),
    (
        &["paste", "-z", "f", "g"],
        Text(b""),
        &[Text(b"a\0b\nc"), Text(b"1\0")],
        "a\t1\0b\nc\t\0",
        "",
    ),
    (
        &["paste", "-s", "-d", ",;", "f", "g"],
        Text(b""),
        &[Text(b"a\nb\nc\n"), Text(b"")],
        "a,b;c\n\n",
        "",
    ),
    (
        &["paste", "-s", "-", "f", "-"],
        Text(b"1\n2\n"),
        &[Text(b"x\n")],
        "1\t2\nx\n\n",
        "",
    ),
];

#[test]
fn lines_of_standard_input_and_files(rt: HostRuntime) -> Result<(), Fail> {
    expect_examples(&rt, rt.alloc(), PIECE_SIZES, EXAMPLES)
}

// The arguments, the terminator, and the number of longest lines that are held.
const LONG: &[(&[&str], u8, u128)] = &[
    (&["paste", "-", "-"], b'\n', 2),
    (&["paste", "-z", "-", "-"], 0, 2),
    (&["paste", "-s", "-"], b'\n', 0),
    (&["paste", "-sz", "-"], 0, 0),
];

const LENGTHS: &[usize] = &[0, 1, BLOCK - 2, BLOCK - 1, BLOCK, BLOCK + 1, 20000];

// Two lines of this length in one row.
fn expect_across(
    rt: &impl Abort,
    alloc: Global,
    length: usize,
    (words, terminator, held): &(&[&str], u8, u128),
) -> Result<(), Fail> {
    let text = text_of(alloc, &[length, length], *terminator, true)?;
    let mut row = text_of(alloc, &[length, length], b'\t', false)?;
    row.push(*terminator)?;
    let longest = held.saturating_mul(length as u128);
    expect_long(rt, alloc, words, (length, &text), &row, longest)
}

#[test]
fn lines_across_blocks(rt: HostRuntime) -> Result<(), Fail> {
    for long in LONG {
        for length in LENGTHS {
            expect_across(&rt, rt.alloc(), *length, long)?;
        }
    }
    Ok(())
}

const TWO_UNOPENED: &[Input] = &[Unopened, Text(b"a\nb\n"), Unopened];

const BOTH_UNOPENED: &str = "paste: g: cannot be opened\npaste: h: cannot be opened\n";

const UNOPENED: &[Example] = &[
    // A second column.
    (
        &["paste", "f", "g"],
        Text(b""),
        &[Text(b"a\n"), Unopened],
        "",
        "paste: g: cannot be opened\n",
    ),
    // Each unopened file is reported.
    (
        &["paste", "g", "f", "h"],
        Text(b""),
        TWO_UNOPENED,
        "",
        BOTH_UNOPENED,
    ),
    (
        &["paste", "-s", "g", "f", "h"],
        Text(b""),
        TWO_UNOPENED,
        "a\tb\n",
        BOTH_UNOPENED,
    ),
    (
        &["paste", "-s", "g", "f", "-", "h"],
        Text(b""),
        TWO_UNOPENED,
        "a\tb\n\n",
        BOTH_UNOPENED,
    ),
];

#[test]
fn unopened_operands_are_reported(rt: HostRuntime) -> Result<(), Fail> {
    expect_examples(&rt, rt.alloc(), &[usize::MAX], UNOPENED)?;
    let words = ["paste", "-", "g", "-"];
    expect_unopened(&rt, rt.alloc(), &words, "paste: g: cannot be opened\n")
}

const F: &[u8] = b"1\n2\n3\n";

const G: &[u8] = b"x\ny";

const FILES: &[Input] = &[Text(F), Text(G)];

pub const PARALLEL: &[&str] = &["paste", "f", "g"];

const PARALLEL_OUT: &str = "1\tx\n2\ty\n3\t\n";

pub const SERIAL: &[&str] = &["paste", "-s", "f", "g"];

const SERIAL_OUT: &str = "1\t2\t3\nx\ty\n";

const TWO: &[&str] = &["paste", "-", "-"];

const THREE: &[&str] = &["paste", "-d", "\\0,", "-", "-", "-"];

const THREE_OUT: &str = "12,3\n4,\n";

const READ_FAILED: &str = "paste: standard input: read failed\n";

const F_READ_FAILED: &str = "paste: f: read failed\n";

const G_READ_FAILED: &str = "paste: g: read failed\n";

// With reads of two bytes.
const READS: &[Example] = &[
    // Nothing is written of the row in which the read fails.
    (
        PARALLEL,
        Text(b""),
        &[Failing(F, 0), Failing(G, 0)],
        "",
        F_READ_FAILED,
    ),
    (
        PARALLEL,
        Text(b""),
        &[Failing(F, 1), Failing(G, 0)],
        "",
        G_READ_FAILED,
    ),
    (
        PARALLEL,
        Text(b""),
        &[Failing(F, 1), Failing(G, 1)],
        "1\tx\n",
        F_READ_FAILED,
    ),
    (
        PARALLEL,
        Text(b""),
        &[Failing(F, 2), Failing(G, 1)],
        "1\tx\n",
        G_READ_FAILED,
    ),
    (
        PARALLEL,
        Text(b""),
        &[Failing(F, 2), Failing(G, 2)],
        "1\tx\n",
        G_READ_FAILED,
    ),
    (
        PARALLEL,
        Text(b""),
        &[Failing(F, 2), Failing(G, 3)],
        "1\tx\n2\ty\n",
        F_READ_FAILED,
    ),
    (
        PARALLEL,
        Text(b""),
        &[Failing(F, 3), Failing(G, 3)],
        PARALLEL_OUT,
        F_READ_FAILED,
    ),
    // With `-s`, all bytes received are written.
    (
        SERIAL,
        Text(b""),
        &[Failing(F, 0), Failing(G, 9)],
        "",
        F_READ_FAILED,
    ),
    (
        SERIAL,
        Text(b""),
        &[Failing(F, 1), Failing(G, 9)],
        "1",
        F_READ_FAILED,
    ),
    (
        SERIAL,
        Text(b""),
        &[Failing(F, 2), Failing(G, 9)],
        "1\t2",
        F_READ_FAILED,
    ),
    (
        SERIAL,
        Text(b""),
        &[Failing(F, 3), Failing(G, 9)],
        "1\t2\t3",
        F_READ_FAILED,
    ),
    (
        SERIAL,
        Text(b""),
        &[Failing(F, 4), Failing(G, 0)],
        "1\t2\t3\n",
        G_READ_FAILED,
    ),
    (
        SERIAL,
        Text(b""),
        &[Failing(F, 4), Failing(G, 1)],
        "1\t2\t3\nx",
        G_READ_FAILED,
    ),
    (
        SERIAL,
        Text(b""),
        &[Failing(F, 4), Failing(G, 2)],
        "1\t2\t3\nx\ty",
        G_READ_FAILED,
    ),
    // Columns that share standard input.
    (TWO, Failing(b"1\n2\n3\n4", 0), &[], "", READ_FAILED),
    (TWO, Failing(b"1\n2\n3\n4", 1), &[], "", READ_FAILED),
    (TWO, Failing(b"1\n2\n3\n4", 2), &[], "1\t2\n", READ_FAILED),
    (TWO, Failing(b"1\n2\n3\n4", 3), &[], "1\t2\n", READ_FAILED),
    (TWO, Failing(b"1\n2\n3\n4", 4), &[], "1\t2\n", READ_FAILED),
    (THREE, Failing(b"1\n2\n3\n4\n", 0), &[], "", READ_FAILED),
    (THREE, Failing(b"1\n2\n3\n4\n", 1), &[], "", READ_FAILED),
    (THREE, Failing(b"1\n2\n3\n4\n", 2), &[], "", READ_FAILED),
    (
        THREE,
        Failing(b"1\n2\n3\n4\n", 3),
        &[],
        "12,3\n",
        READ_FAILED,
    ),
    (
        THREE,
        Failing(b"1\n2\n3\n4\n", 4),
        &[],
        "12,3\n",
        READ_FAILED,
    ),
];

const PARALLEL_CASE: Case = Case {
    words: PARALLEL,
    files: FILES,
    ..DEFAULT
};

const SERIAL_CASE: Case = Case {
    words: SERIAL,
    files: FILES,
    ..DEFAULT
};

const THREE_COLUMNS: Case = Case {
    words: THREE,
    standard: Text(b"1\n2\n3\n4\n"),
    size: 1,
    ..DEFAULT
};

const ONE_COLUMN: Case = Case {
    words: &["paste", "f"],
    files: &[Text(b"ab\ncd\n")],
    ..DEFAULT
};

const WRITE_FAILED: &str = "paste: output: write failed\n";

const WRITE_FAILURES: &[WriteFailures] = &[
    // The first row is sent before g is read to its end, and the other rows before f is.
    (
        PARALLEL_CASE,
        WRITE_FAILED,
        &[
            (3, usize::MAX, 0, ""),
            (3, usize::MAX, 1, "1\tx"),
            (3, usize::MAX, 2, "1\tx\n"),
            (3, usize::MAX, 3, "1\tx\n2\ty"),
            (3, usize::MAX, 4, "1\tx\n2\ty\n3\t"),
            (3, usize::MAX, 5, PARALLEL_OUT),
            (usize::MAX, usize::MAX, 1, "1\tx\n"),
            (usize::MAX, usize::MAX, 2, PARALLEL_OUT),
            (usize::MAX, 4, u64::MAX, "1\tx\n"),
            (1, 5, u64::MAX, "1\tx\n2"),
        ],
    ),
    // The lines of a file are sent before it is read to its end; the newline after them follows only then.
    (
        SERIAL_CASE,
        WRITE_FAILED,
        &[
            (3, usize::MAX, 0, ""),
            (3, usize::MAX, 1, "1\t2"),
            (3, usize::MAX, 2, "1\t2\t3"),
            (3, usize::MAX, 3, "1\t2\t3\n"),
            (3, usize::MAX, 4, "1\t2\t3\nx\ty"),
            (3, usize::MAX, 5, SERIAL_OUT),
            (usize::MAX, usize::MAX, 1, "1\t2\t3"),
            (usize::MAX, usize::MAX, 4, SERIAL_OUT),
            (usize::MAX, 4, u64::MAX, "1\t2\t"),
            (1, 7, u64::MAX, "1\t2\t3\nx"),
        ],
    ),
    (
        THREE_COLUMNS,
        WRITE_FAILED,
        &[
            (1, usize::MAX, 0, ""),
            (1, usize::MAX, 1, "1"),
            (1, usize::MAX, 2, "12"),
            (1, usize::MAX, 3, "12,"),
            (1, usize::MAX, 4, "12,3"),
            (1, usize::MAX, 5, "12,3\n"),
            (1, usize::MAX, 6, "12,3\n4"),
            (1, usize::MAX, 7, "12,3\n4,"),
            (1, usize::MAX, 8, THREE_OUT),
        ],
    ),
    (
        ONE_COLUMN,
        WRITE_FAILED,
        &[(usize::MAX, 3, u64::MAX, "ab\n")],
    ),
];

// A failed write is reported, and a failed read is not.
const BOTH_FAIL: &[CaseExample] = &[(
    Case {
        words: PARALLEL,
        files: &[Failing(F, 1), Failing(G, 1)],
        size: 2,
        out: Limits {
            room: 3,
            ..UNLIMITED
        },
        ..DEFAULT
    },
    "1\tx",
    WRITE_FAILED,
)];

const NO_MEMORY: &str = "paste: out of memory\n";

const GROWTH_FAILURES: &[GrowthFailures] = &[
    (PARALLEL_CASE, PARALLEL_OUT, "", NO_MEMORY, false),
    (SERIAL_CASE, SERIAL_OUT, "", NO_MEMORY, true),
    (THREE_COLUMNS, THREE_OUT, "", NO_MEMORY, false),
];

#[test]
fn each_call_and_each_growth_fails(rt: HostRuntime) -> Result<(), Fail> {
    expect_examples(&rt, rt.alloc(), &[2], READS)?;
    expect_write_failures(&rt, rt.alloc(), WRITE_FAILURES)?;
    expect_cases(&rt, rt.alloc(), BOTH_FAIL)?;
    expect_growth_failures(&rt, rt.alloc(), GROWTH_FAILURES)
}
