//! Tests of whole runs of `cut` by bytes: selected bytes, files that cannot be opened, lines across the blocks in
//! which input is read, and failures of reads, writes and allocations.

use crate::harness::Input::{Failing, Text, Unopened};
use crate::harness::{
    CallCount, Case, CaseExample, DEFAULT, Example, GrowthFailures, Input, Limits, PIECE_SIZES,
    UNLIMITED, WriteFailures, expect_calls, expect_cases, expect_examples, expect_growth_failures,
    expect_long, expect_write_failures,
};
use ptfakes::texts::{byte_at, text_of, text_with};
use ptlines::BLOCK;
use std::alloc::{AllocError, Global};
use std::process::Abort;
use std::test::Fail;

const EXAMPLES: &[Example] = &[
    (&["cut", "-c", "3-,1"], Text(b"abcd\n"), &[], "acd\n", ""),
    (&["cut", "-b", "-2"], Text(b"abc"), &[], "ab\n", ""),
    (&["cut", "-b", "2 4,1"], Text(b"abcd\n"), &[], "abd\n", ""),
    (&["cut", "-b", "2-"], Text(b"a\nbcd"), &[], "\ncd\n", ""),
    (&["cut", "-nb", "2-"], Text(b"a\nbcd"), &[], "\ncd\n", ""),
    (
        &["cut", "-b1,3", "-n", "--", "-"],
        Text(b"abc\nde\n"),
        &[],
        "ac\nd\n",
        "",
    ),
    (&["cut", "-c", "1"], Text(b""), &[], "", ""),
    (&["cut", "-c", "1"], Text(b"\n\na"), &[], "\n\na\n", ""),
    (
        &["cut", "-b", "18446744073709551615-"],
        Text(b"abc\n"),
        &[],
        "\n",
        "",
    ),
    // Lines terminated by byte 0, in which newline is data.
    (
        &["cut", "-z", "-c", "1"],
        Text(b"ab\0\ncd"),
        &[],
        "a\0\n\0",
        "",
    ),
    (
        &["cut", "-zc2-", "-", "-"],
        Text(b"\0a\n\0\n"),
        &[],
        "\0\n\0\0",
        "",
    ),
    (&["cut", "-b1", "-nz"], Text(b""), &[], "", ""),
];

#[test]
fn bytes_are_cut(rt: HostRuntime) -> Result<(), Fail> {
    expect_examples(&rt, rt.alloc(), PIECE_SIZES, EXAMPLES)
}

const FIRST: &[&str] = &["cut", "-c", "1", "f", "g", "h"];

const FILES: &[Input] = &[Text(b"ab\n"), Unopened, Text(b"cd\n")];

// A file that cannot be opened is reported when its turn comes.
const REPORTED_IN_ORDER: &[Example] = &[(
    FIRST,
    Text(b""),
    FILES,
    "a\nc\n",
    "cut: g: cannot be opened\n",
)];

// The message about the unopened file is truncated.
const SHORT_MESSAGES: &[CaseExample] = &[(
    Case {
        words: FIRST,
        files: FILES,
        messages: Limits {
            room: 10,
            ..UNLIMITED
        },
        ..DEFAULT
    },
    "a\nc\n",
    "cut: g: ca",
)];

// A failed read is the last message.
const READ_FAILURE_LAST: &[Example] = &[(
    &["cut", "-c", "1", "g", "f", "h"],
    Text(b""),
    &[Unopened, Failing(b"ab\n", 0), Unopened],
    "",
    "cut: g: cannot be opened\ncut: f: read failed\n",
)];

#[test]
fn an_unopened_file_is_reported_in_order(rt: HostRuntime) -> Result<(), Fail> {
    expect_examples(&rt, rt.alloc(), &[usize::MAX], REPORTED_IN_ORDER)?;
    expect_cases(&rt, rt.alloc(), SHORT_MESSAGES)?;
    expect_examples(&rt, rt.alloc(), &[1], READ_FAILURE_LAST)
}

// The terminator, the other byte as data, and the options `-c` and `-b` together with the one that asks for this
// terminator.
const TERMINATORS: &[(u8, u8, [&str; 2])] = &[(b'\n', 0, ["-c", "-b"]), (0, b'\n', ["-zc", "-zb"])];

const LENGTHS: &[usize] = &[0, 1, BLOCK - 1, BLOCK, BLOCK + 1, 20000];

// Three lines, the last without a terminator: `cut` adds it, unless the line is empty.
fn cut_across_blocks(
    rt: &impl Abort,
    alloc: Global,
    length: usize,
    (terminator, other, [option, _]): (u8, u8, [&str; 2]),
) -> Result<(), Fail> {
    let text = text_with(alloc, &[length, 3, length], terminator, false, other)?;
    let short = length.min(BLOCK);
    let cut = text_with(alloc, &[short, 3, short], terminator, length > 0, other)?;
    let words = ["cut", option, "1-8000,8000-8192"];
    expect_long(rt, alloc, &words, (length, &text), &cut, 0)
}

// The second, fourth and fifth byte of lines of these lengths.
fn selected_of(alloc: Global, lengths: &[usize], terminator: u8) -> Result<Vec<u8>, AllocError> {
    let mut selected = Vec::new(alloc);
    for length in lengths {
        for position in 0..*length {
            if position == 1 || position == 3 || position == 4 {
                selected.push(byte_at(position))?;
            }
        }
        selected.push(terminator)?;
    }
    Ok(selected)
}

// Short lines after one of this length, so that each of their terminators is once at each offset of 64 bytes.
fn cut_after(
    rt: &impl Abort,
    alloc: Global,
    length: usize,
    (terminator, other, [_, option]): (u8, u8, [&str; 2]),
) -> Result<(), Fail> {
    let lengths = [length, 0, 1, 4, 15, 16, 17, 64, 0, 0, 5];
    let text = text_with(alloc, &lengths, terminator, true, other)?;
    let cut = selected_of(alloc, &lengths, terminator)?;
    let words = ["cut", option, "2,4-5"];
    expect_long(rt, alloc, &words, (length, &text), &cut, 0)
}

#[test]
fn lines_across_blocks_and_chunks(rt: HostRuntime) -> Result<(), Fail> {
    for terminator in TERMINATORS {
        for length in LENGTHS {
            cut_across_blocks(&rt, rt.alloc(), *length, *terminator)?;
        }
        for length in 0..65 {
            cut_after(&rt, rt.alloc(), length, *terminator)?;
        }
    }
    Ok(())
}

#[test]
fn empty_lines_stay(rt: HostRuntime) -> Result<(), Fail> {
    let text = text_of(rt.alloc(), &[3, 0, 0, 0, 0, 0, 0, 0, 0], b'\n', true)?;
    let mut lines = Vec::new(rt.alloc());
    for _more in 0..40 {
        lines.extend_from_slice(&text)?;
    }
    let words = ["cut", "-c", "1-3"];
    expect_long(&rt, rt.alloc(), &words, (lines.len(), &lines), &lines, 0)?;
    let (words, empty) = (["cut", "-c", "2-"], [b'\n'; 200]);
    expect_long(&rt, rt.alloc(), &words, (empty.len(), &empty), &empty, 0)
}

const WORDS: &[&str] = &["cut", "-b", "2,4-"];

const LINES: &[u8] = b"abcd\nabc\n\nxyz";

const READ_FAILED: &str = "cut: standard input: read failed\n";

// With reads of two bytes. The last one fails in the middle of a line.
const READS: &[Example] = &[
    (WORDS, Failing(LINES, 0), &[], "", READ_FAILED),
    (WORDS, Failing(LINES, 1), &[], "b", READ_FAILED),
    (WORDS, Failing(LINES, 2), &[], "bd", READ_FAILED),
    (WORDS, Failing(LINES, 3), &[], "bd\n", READ_FAILED),
    (WORDS, Failing(LINES, 4), &[], "bd\nb", READ_FAILED),
    (WORDS, Failing(LINES, 5), &[], "bd\nb\n\n", READ_FAILED),
    (WORDS, Failing(LINES, 6), &[], "bd\nb\n\ny", READ_FAILED),
    (WORDS, Failing(LINES, 7), &[], "bd\nb\n\ny", READ_FAILED),
    (
        &["cut", "-c", "1-3"],
        Failing(b"abcd\n", 1),
        &[],
        "ab",
        READ_FAILED,
    ),
];

const SHORT: Case = Case {
    words: WORDS,
    standard: Text(LINES),
    ..DEFAULT
};

const CUT: &str = "bd\nb\n\ny\n";

// The last newline is written once the end is reached, and everything before it earlier.
const WRITE_FAILURES: &[WriteFailures] = &[(
    SHORT,
    "cut: output: write failed\n",
    &[
        (3, usize::MAX, 0, ""),
        (3, usize::MAX, 1, "bd\n"),
        (3, usize::MAX, 2, "bd\nb\n\n"),
        (3, usize::MAX, 3, "bd\nb\n\ny"),
        (3, usize::MAX, 4, "bd\nb\n\ny\n"),
        (1, usize::MAX, 2, "bd"),
        (1, usize::MAX, 8, "bd\nb\n\ny\n"),
        (usize::MAX, usize::MAX, 0, ""),
        (usize::MAX, usize::MAX, 1, "bd\nb\n\ny"),
        (usize::MAX, usize::MAX, 2, "bd\nb\n\ny\n"),
        (usize::MAX, 4, u64::MAX, "bd\nb"),
        (1, 0, u64::MAX, ""),
    ],
)];

const ONE: Limits = Limits {
    size: 1,
    passing: 9,
    ..UNLIMITED
};

const THREE: Limits = Limits {
    size: 3,
    passing: 5,
    ..UNLIMITED
};

const WHOLE_WRITES: Limits = Limits {
    passing: 3,
    ..UNLIMITED
};

// Exactly the calls that are needed succeed, the flush among them.
const CALL_COUNTS: &[CallCount] = &[
    (Case { out: ONE, ..SHORT }, CUT, "", 9),
    (
        Case {
            out: THREE,
            ..SHORT
        },
        CUT,
        "",
        5,
    ),
    (
        Case {
            out: WHOLE_WRITES,
            ..SHORT
        },
        CUT,
        "",
        3,
    ),
];

const GROWTH_FAILURES: &[GrowthFailures] = &[(SHORT, CUT, "", "cut: out of memory\n", true)];

#[test]
fn each_call_and_each_growth_fails(rt: HostRuntime) -> Result<(), Fail> {
    expect_examples(&rt, rt.alloc(), &[2], READS)?;
    expect_write_failures(&rt, rt.alloc(), WRITE_FAILURES)?;
    expect_calls(&rt, rt.alloc(), CALL_COUNTS)?;
    expect_growth_failures(&rt, rt.alloc(), GROWTH_FAILURES)
}
