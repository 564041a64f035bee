//! Tests of whole runs of `cut` by fields: selected fields, several files, lines across the blocks in which input is
//! read, and failures of reads, writes and allocations.

use crate::harness::Input::{Failing, Text, Unopened};
use crate::harness::{
    Case, DEFAULT, Example, GrowthFailures, PIECE_SIZES, WriteFailures, expect_examples,
    expect_growth_failures, expect_long, expect_write_failures,
};
use ptlines::BLOCK;
use std::alloc::Global;
use std::process::Abort;
use std::test::Fail;

const THREE: &[&str] = &["cut", "-d", ",", "-f", "2-", "f", "-", "g"];

const EXAMPLES: &[Example] = &[
    (
        &["cut", "-d", ":", "-f", "2,2,1"],
        Text(b"a:b:c\nxyz\n"),
        &[],
        "a:b\nxyz\n",
        "",
    ),
    (
        &["cut", "-s", "-d", ":", "-f", "5"],
        Text(b"a:b\nxyz\n"),
        &[],
        "\n",
        "",
    ),
    (&["cut", "-f", "1"], Text(b"a\tb"), &[], "a\n", ""),
    // A second `-` is an empty input.
    (&["cut", "-f", "1", "-", "-"], Text(b"a\tb"), &[], "a\n", ""),
    (
        &["cut", "-d,", "-f2-"],
        Text(b"a,b,c\n,\nx"),
        &[],
        "b,c\n\nx\n",
        "",
    ),
    // A line that ends in delimiters.
    (
        &["cut", "-d,", "-f1,3"],
        Text(b"a,b,c,d\na,,,\n,,c\n"),
        &[],
        "a,c\na,\n,c\n",
        "",
    ),
    (
        &["cut", "-d,", "-f3-4,1"],
        Text(b"a,b,c,d,e\na,b\n"),
        &[],
        "a,c,d\na\n",
        "",
    ),
    (&["cut", "-d,", "-f2-"], Text(b"a,,\n,,"), &[], ",\n,\n", ""),
    // An empty line.
    (&["cut", "-f", "1"], Text(b"\n\n"), &[], "\n\n", ""),
    (&["cut", "-s", "-f", "1"], Text(b"\n\n"), &[], "", ""),
    (
        &["cut", "-s", "-f", "2"],
        Text(b"a\t\nb\n\t\n"),
        &[],
        "\n\n",
        "",
    ),
    (
        &["cut", "-d", " ", "-f", "18446744073709551615"],
        Text(b"a b\n"),
        &[],
        "\n",
        "",
    ),
    (&["cut", "-f", "2"], Text(b""), &[], "", ""),
    // Lines terminated by byte 0: newline is data, and may be the delimiter.
    (
        &["cut", "-d", "\n", "-f", "2", "-z"],
        Text(b"a\nb\0"),
        &[],
        "b\0",
        "",
    ),
    (
        &["cut", "-z", "-f2"],
        Text(b"a\tb\nc\0d\n\0\t"),
        &[],
        "b\nc\0d\n\0\0",
        "",
    ),
    (
        &["cut", "-szd", "\n", "-f1"],
        Text(b"a\nb\0c\0"),
        &[],
        "a\0",
        "",
    ),
    (
        &["cut", "-zf1", "-", "-"],
        Text(b"a\tb\0\n\tc"),
        &[],
        "a\0\n\0",
        "",
    ),
    // Files in their order.
    (
        THREE,
        Text(b"x\n"),
        &[Text(b"a,b,c\n"), Text(b",\n")],
        "b,c\nx\n\n",
        "",
    ),
    // Unopened files are reported when their turn comes.
    (
        THREE,
        Text(b"x\ny,z"),
        &[Unopened, Unopened],
        "x\nz\n",
        "cut: f: cannot be opened\ncut: g: cannot be opened\n",
    ),
];

#[test]
fn fields_are_cut(rt: HostRuntime) -> Result<(), Fail> {
    expect_examples(&rt, rt.alloc(), PIECE_SIZES, EXAMPLES)
}

// A line of two fields, the first of `length` bytes, and then a short line that ends in its delimiter.
fn two_lines(alloc: Global, length: usize, terminator: u8, byte: u8) -> Result<Vec<u8>, Fail> {
    let mut text = Vec::new(alloc);
    for _ in 0..length {
        text.push(byte)?;
    }
    text.extend_from_slice(&[b'\t', byte, terminator])?;
    text.extend_from_slice(b"c\td\t")?;
    Ok(text)
}

fn cut_across_blocks(
    rt: &impl Abort,
    alloc: Global,
    length: usize,
    (terminator, other, option): (u8, u8, &str),
) -> Result<(), Fail> {
    let text = two_lines(alloc, length, terminator, other)?;
    let words = ["cut", option, "2,3"];
    let longest = length.saturating_add(2).max(4) as u128;
    let cut = [other, terminator, b'd', b'\t', terminator];
    expect_long(rt, alloc, &words, (length, &text), &cut, longest)
}

// The terminator, the other byte as data, and the option that asks for this terminator.
const TERMINATORS: &[(u8, u8, &str)] = &[(b'\n', 0, "-f"), (0, b'\n', "-zf")];

const LENGTHS: &[usize] = &[
    0,
    1,
    BLOCK - 4,
    BLOCK - 3,
    BLOCK - 2,
    BLOCK - 1,
    BLOCK,
    BLOCK + 1,
    19998,
    20000,
];

#[test]
fn fields_across_blocks(rt: HostRuntime) -> Result<(), Fail> {
    for terminator in TERMINATORS {
        for length in LENGTHS {
            cut_across_blocks(&rt, rt.alloc(), *length, *terminator)?;
        }
    }
    Ok(())
}

const WORDS: &[&str] = &["cut", "-d", ":", "-f", "2", "f", "g"];

const F: &[u8] = b"a:b\nc\n";

const G: &[u8] = b":d\ne:f:g";

const CUT: &str = "b\nc\nd\nf\n";

const F_READ_FAILED: &str = "cut: f: read failed\n";

const G_READ_FAILED: &str = "cut: g: read failed\n";

// A read of seven bytes succeeds, and the next one fails in the middle of a line.
const MID_LINE: &[Example] = &[(
    &["cut", "-d", ":", "-f", "1"],
    Failing(b"a:b\nc:d", 1),
    &[],
    "a\n",
    "cut: standard input: read failed\n",
)];

// With reads of four bytes.
const READS: &[Example] = &[
    (
        WORDS,
        Text(b""),
        &[Failing(F, 0), Failing(G, 0)],
        "",
        F_READ_FAILED,
    ),
    (
        WORDS,
        Text(b""),
        &[Failing(F, 1), Failing(G, 0)],
        "b\n",
        F_READ_FAILED,
    ),
    (
        WORDS,
        Text(b""),
        &[Failing(F, 2), Failing(G, 0)],
        "b\nc\n",
        F_READ_FAILED,
    ),
    (
        WORDS,
        Text(b""),
        &[Failing(F, 3), Failing(G, 0)],
        "b\nc\n",
        G_READ_FAILED,
    ),
    (
        WORDS,
        Text(b""),
        &[Failing(F, 3), Failing(G, 1)],
        "b\nc\nd\n",
        G_READ_FAILED,
    ),
    (
        WORDS,
        Text(b""),
        &[Failing(F, 3), Failing(G, 2)],
        "b\nc\nd\n",
        G_READ_FAILED,
    ),
];

const SHORT: Case = Case {
    words: WORDS,
    files: &[Text(F), Text(G)],
    ..DEFAULT
};

// All output that is decided is sent before a file is read to its end.
const WRITE_FAILURES: &[WriteFailures] = &[(
    SHORT,
    "cut: output: write failed\n",
    &[
        (3, usize::MAX, 0, ""),
        (3, usize::MAX, 1, "b\nc"),
        (3, usize::MAX, 2, "b\nc\n"),
        (3, usize::MAX, 3, "b\nc\nd\n"),
        (3, usize::MAX, 4, CUT),
        (1, usize::MAX, 5, "b\nc\nd"),
        (1, usize::MAX, 8, CUT),
        (usize::MAX, 5, u64::MAX, "b\nc\nd"),
    ],
)];

const GROWTH_FAILURES: &[GrowthFailures] = &[(SHORT, CUT, "", "cut: out of memory\n", false)];

#[test]
fn each_call_and_each_growth_fails(rt: HostRuntime) -> Result<(), Fail> {
    expect_examples(&rt, rt.alloc(), &[7], MID_LINE)?;
    expect_examples(&rt, rt.alloc(), &[4], READS)?;
    expect_write_failures(&rt, rt.alloc(), WRITE_FAILURES)?;
    expect_growth_failures(&rt, rt.alloc(), GROWTH_FAILURES)
}
