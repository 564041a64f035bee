//! Tests of whole runs of `tr`: bytes that are translated, deleted and squeezed, and a read or a write that fails.

use crate::harness::Input::{Failing, Text};
use crate::harness::{
    Case, DEFAULT, Example, PIECE_SIZES, WriteFailures, expect_examples, expect_write_failures,
};
use std::test::Fail;

const EXAMPLES: &[Example] = &[
    // Bytes are translated.
    (&["tr", "a-c", "x-y"], Text(b"abcd"), &[], "xyyd", ""),
    (&["tr", "a-c-e", "1-5"], Text(b"a-e"), &[], "145", ""),
    (&["tr", "aab", "xyz"], Text(b"ab"), &[], "yz", ""),
    (&["tr", "\\0012", "ab"], Text(b"2"), &[], "b", ""),
    (
        &["tr", "\\055a-b", "x[y*02]z"],
        Text(b"-ab"),
        &[],
        "xyy",
        "",
    ),
    (&["tr", "[a-c]", "<1-3>"], Text(b"[ab]"), &[], "<12>", ""),
    (&["tr", "0-9", "[x*5]y"], Text(b"0459"), &[], "xxyy", ""),
    (&["tr", "0-9", "a[b*]c"], Text(b"0189"), &[], "abbc", ""),
    (
        &["tr", "[:lower:]", "[:upper:]"],
        Text(b"ab1z\n"),
        &[],
        "AB1Z\n",
        "",
    ),
    (
        &["tr", "[:lower:]1", "[:upper:]"],
        Text(b"a1"),
        &[],
        "AZ",
        "",
    ),
    (
        &["tr", "-c", "\\000-\\377", "[x*]"],
        Text(b"ab"),
        &[],
        "ab",
        "",
    ),
    (&["tr", "--", "-a", "+b"], Text(b"a-c"), &[], "b+c", ""),
    (&["tr", "a", "b"], Text(b""), &[], "", ""),
    // One range of bytes is shifted, then four, three, five and none.
    (
        &["tr", "a-z", "A-Z"],
        Text(b"Hello, world\n"),
        &[],
        "HELLO, WORLD\n",
        "",
    ),
    (
        &["tr", "a-zA-Z", "n-za-mN-ZA-M"],
        Text(b"Hello"),
        &[],
        "Uryyb",
        "",
    ),
    (&["tr", "abc", "x"], Text(b"abcd"), &[], "xxxd", ""),
    (
        &["tr", "acegi", "12345"],
        Text(b"abcdefghij"),
        &[],
        "1b2d3f4h5j",
        "",
    ),
    (&["tr", "ab", "ab"], Text(b"cab"), &[], "cab", ""),
    // Bytes are deleted.
    (&["tr", "-d", "a-c"], Text(b"abcabd\n"), &[], "d\n", ""),
    (&["tr", "-cd", "0-9"], Text(b"a1b2\n"), &[], "12", ""),
    (&["tr", "-dC", "0-9"], Text(b"a1b2\n"), &[], "12", ""),
    (&["tr", "-d", "[=a=]b"], Text(b"abc"), &[], "c", ""),
    (&["tr", "-d", "--", "--/"], Text(b"+,-./0"), &[], "+,0", ""),
    (&["tr", "-d", "[==]"], Text(b"[a=]b"), &[], "ab", ""),
    (&["tr", "-d", "[::]"], Text(b"[a:]b"), &[], "ab", ""),
    (&["tr", "-d", "\\08"], Text(b"8a9"), &[], "a9", ""),
    (&["tr", "-d", "[a*x]"], Text(b"[a*x]b"), &[], "b", ""),
    (
        &["tr", "-d", "+-[:digit:]"],
        Text(b"*+0Z[\\]:digit9"),
        &[],
        "*\\",
        "",
    ),
    // Repeats are squeezed.
    (&["tr", "-s", "a"], Text(b"aabaa"), &[], "aba", ""),
    (&["tr", "-s", "ab", "x"], Text(b"abba"), &[], "x", ""),
    (&["tr", "-cs", "a", "x"], Text(b"abba\n"), &[], "axax", ""),
    (
        &["tr", "-cs", "[:alpha:]", "[\\n*]"],
        Text(b"one, two.\n"),
        &[],
        "one\ntwo\n",
        "",
    ),
    (&["tr", "-ds", "0-9", "ab"], Text(b"a1ab2bb"), &[], "ab", ""),
    (
        &["tr", "-ds", "[:digit:]", "[:space:]"],
        Text(b"1  2\n\n"),
        &[],
        " \n",
        "",
    ),
];

// A repeat across the boundary of two reads, at each offset.
const CUT: &[Example] = &[(&["tr", "-s", "a"], Text(b"aabaa"), &[], "aba", "")];

#[test]
fn bytes_are_translated_deleted_and_squeezed(rt: HostRuntime) -> Result<(), Fail> {
    expect_examples(&rt, rt.alloc(), PIECE_SIZES, EXAMPLES)?;
    expect_examples(&rt, rt.alloc(), &[1, 2, 3, 4, 5], CUT)
}

const SQUEEZE: &[&str] = &["tr", "-s", "a"];

const READ_FAILED: &str = "tr: standard input: read failed\n";

// With reads of two bytes.
const READS: &[Example] = &[
    (SQUEEZE, Failing(b"aabaa", 0), &[], "", READ_FAILED),
    (SQUEEZE, Failing(b"aabaa", 1), &[], "a", READ_FAILED),
    (SQUEEZE, Failing(b"aabaa", 2), &[], "aba", READ_FAILED),
    (SQUEEZE, Failing(b"aabaa", 3), &[], "aba", READ_FAILED),
];

#[test]
fn a_read_that_fails(rt: HostRuntime) -> Result<(), Fail> {
    expect_examples(&rt, rt.alloc(), &[2], READS)
}

const WRITE_FAILURES: &[WriteFailures] = &[(
    Case {
        words: &["tr", "a", "x"],
        standard: Text(b"aba"),
        ..DEFAULT
    },
    "tr: output: write failed\n",
    &[
        (2, usize::MAX, 0, ""),
        (2, usize::MAX, 1, "xb"),
        (2, usize::MAX, 2, "xbx"),
    ],
)];

#[test]
fn a_write_that_fails(rt: HostRuntime) -> Result<(), Fail> {
    expect_write_failures(&rt, rt.alloc(), WRITE_FAILURES)
}
