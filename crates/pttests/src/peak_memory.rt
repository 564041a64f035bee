//! The memory of whole runs: inputs for which their bounds are reached, and runs whose last allocation fails, which
//! still write all output that was decided before.

use crate::asserts::assert_same_for;
use crate::harness::Input::Text;
use crate::harness::{Case, PIECE_SIZES, allocations, case_over, run_in_store, run_over};
use ptfakes::{FailingAlloc, VecSink};
use ptlines::Store;
use ptrun::Report;
use std::alloc::Global;
use std::process::Abort;
use std::test::Fail;

// A prefix, a byte, the number of times that it is repeated, and a suffix.
type Part = (&'static str, u8, usize, &'static str);

fn text_of(alloc: Global, parts: &[Part]) -> Result<Vec<u8>, Fail> {
    let mut text = Vec::new(alloc);
    for (front, byte, length, behind) in parts {
        text.extend_from_slice(front.as_bytes())?;
        for _ in 0..*length {
            text.push(*byte)?;
        }
        text.extend_from_slice(behind.as_bytes())?;
    }
    Ok(text)
}

// Runs a command with its own store and with a lent one: both report this peak, and the lent store has it.
fn expect_peak(
    rt: &impl Abort,
    test_alloc: Global,
    case: &Case<'_>,
    peak: u128,
) -> Result<(), Fail> {
    let report = run_over(rt, test_alloc, test_alloc, case)?;
    expect_same_in_store(rt, test_alloc, case, &report, peak)
}

// Runs a command with a lent store: its report is like `report`, and the store has this peak.
fn expect_same_in_store(
    rt: &impl Abort,
    test_alloc: Global,
    case: &Case<'_>,
    report: &Report<VecSink, VecSink>,
    peak: u128,
) -> Result<(), Fail> {
    let mut store = Store::empty(test_alloc);
    let lent = run_in_store(rt, &mut store, test_alloc, test_alloc, case)?;
    let held = (store.peak(), store.denied());
    assert_same_report(rt, case.words, report, &lent, held, peak);
    Ok(())
}

fn assert_same_report(
    rt: &impl Abort,
    words: &[&str],
    report: &Report<VecSink, VecSink>,
    lent: &Report<VecSink, VecSink>,
    held: (u128, bool),
    peak: u128,
) {
    let left = (report.status, report.peak, report.denied);
    assert_same_for(rt, &words, &left, &(0, peak, false));
    let left = (lent.status, lent.peak, lent.denied);
    assert_same_for(rt, &words, &left, &(0, peak, false));
    assert_same_for(rt, &words, &held, &(peak, false));
    assert_same_for(rt, &words, &lent.out.bytes(), &report.out.bytes());
}

// The arguments, one file or two, and the peak. Long lines are longer than a block, so that they are held wherever
// reads end.
type Peak = (&'static [&'static str], &'static [&'static [Part]], u128);

// Runs a command over its files, with reads of each size.
fn expect_peaks(
    rt: &impl Abort,
    test_alloc: Global,
    (words, files, peak): &Peak,
) -> Result<(), Fail> {
    let first = text_of(test_alloc, files.first().unwrap_or(&NO_PARTS))?;
    let second = text_of(test_alloc, files.get(1).unwrap_or(&NO_PARTS))?;
    let texts = [Text(&first), Text(&second)];
    for size in PIECE_SIZES {
        let case = case_over(words, Text(b""), &texts[..files.len().min(2)], *size);
        expect_peak(rt, test_alloc, &case, *peak)?;
    }
    Ok(())
}

const NO_PARTS: &[Part] = &[];

const PEAKS: &[Peak] = &[
    // The longest line.
    (
        &["cut", "-f", "2", "f", "g"],
        &[
            &[("c\td\n", b'a', 9000, "\tb\ne\n")],
            &[("shorter\t", b'b', 8500, "\n")],
        ],
        9002,
    ),
    // The longest line of each column; here both are in one row.
    (
        &["paste", "f", "g"],
        &[
            &[("b\n", b'a', 9000, "\nb\n")],
            &[("d\n", b'c', 10000, "\nd\n")],
        ],
        19000,
    ),
    // Twice the longest line of each input: its current line and the one before. The inputs take turns, so that both
    // reach their second line.
    (
        &["comm", "f", "g"],
        &[
            &[("", b'a', 9000, "\n"), ("", b'c', 9000, "\n")],
            &[("", b'b', 10000, "\n"), ("", b'd', 10000, "\n")],
        ],
        38000,
    ),
    // In the same way 2 * 9002 + 2 * 10002, and the second input's two lines with the key a, which are 20004 bytes.
    (
        &["join", "f", "g"],
        &[
            &[("a ", b'1', 9000, "\n"), ("b ", b'2', 9000, "\n")],
            &[
                ("a ", b'x', 10000, "\n"),
                ("a ", b'y', 10000, "\n"),
                ("b ", b'z', 10000, "\n"),
            ],
        ],
        58012,
    ),
    // Twice the longest line: the first line of the run, and the line that is compared with it.
    (
        &["uniq", "-c", "f"],
        &[&[("", b'a', 9000, "\n"), ("", b'a', 9000, "\nb\n")]],
        18000,
    ),
];

#[test]
fn memory_bounds_are_reached(rt: HostRuntime) -> Result<(), Fail> {
    for peak in PEAKS {
        expect_peaks(&rt, rt.alloc(), peak)?;
    }
    Ok(())
}

// The output of a command has this prefix.
fn expect_prefix(
    rt: &impl Abort,
    test_alloc: Global,
    case: &Case<'_>,
    prefix: &str,
) -> Result<(), Fail> {
    let report = run_over(rt, test_alloc, test_alloc, case)?;
    assert!(rt; report.out.bytes().starts_with(prefix.as_bytes()));
    Ok(())
}

// Lets the last allocation of a command fail: the output decided before it is written, though no block of output was
// full.
fn expect_flushed(
    rt: &impl Abort,
    test_alloc: Global,
    case: &Case<'_>,
    decided: &str,
    message: &str,
) -> Result<(), Fail> {
    expect_prefix(rt, test_alloc, case, decided)?;
    let last = allocations(rt, test_alloc, case)?.saturating_sub(1);
    let alloc = FailingAlloc::after(test_alloc, last);
    let mut store = Store::empty(&alloc);
    let report = run_in_store(rt, &mut store, &alloc, test_alloc, case)?;
    let held = (store.peak(), store.denied());
    assert_flushed(rt, case.words, &report, held, (decided, message));
    Ok(())
}

fn assert_flushed(
    rt: &impl Abort,
    words: &[&str],
    report: &Report<VecSink, VecSink>,
    (peak, denied): (u128, bool),
    (decided, message): (&str, &str),
) {
    assert_same_for(rt, &words, &report.out.bytes(), &decided.as_bytes());
    assert_same_for(rt, &words, &report.messages.bytes(), &message.as_bytes());
    let left = (report.status, report.denied, denied);
    assert_same_for(rt, &words, &left, &(1, true, true));
    assert_same_for(rt, &words, &report.peak, &peak);
}

// The arguments, the first file (empty if there is one file only), the text before a long line in the last file, the
// output that this text decides, and the message.
type Flushed = (
    &'static [&'static str],
    &'static str,
    &'static str,
    &'static str,
    &'static str,
);

const FLUSHED: &[Flushed] = &[
    (
        &["cut", "-f", "1", "f"],
        "",
        "a\tb\n",
        "a\n",
        "cut: out of memory\n",
    ),
    (
        &["uniq", "-c", "f"],
        "",
        "a\nb\n",
        "1 a\n",
        "uniq: out of memory\n",
    ),
    (
        &["paste", "f", "g"],
        "a\nb\n",
        "c\n",
        "a\tc\n",
        "paste: out of memory\n",
    ),
    (
        &["comm", "f", "g"],
        "a\nd\n",
        "a\nb\n",
        "\t\ta\n\tb\n",
        "comm: out of memory\n",
    ),
    (
        &["join", "f", "g"],
        "a 1\nb 2\n",
        "a x\nb y\nb ",
        "a 1 x\n",
        "join: out of memory\n",
    ),
];

fn expect_buffered_flushed(
    rt: &impl Abort,
    test_alloc: Global,
    (words, first, front, decided, message): &Flushed,
) -> Result<(), Fail> {
    let text = text_of(test_alloc, &[(*front, b'z', 9000, "\n")])?;
    let files = [Text(first.as_bytes()), Text(&text)];
    let alone = usize::from(first.is_empty());
    let case = case_over(words, Text(b""), &files[alone.min(2)..], usize::MAX);
    expect_flushed(rt, test_alloc, &case, decided, message)
}

#[test]
fn buffered_output_is_flushed(rt: HostRuntime) -> Result<(), Fail> {
    for flushed in FLUSHED {
        expect_buffered_flushed(&rt, rt.alloc(), flushed)?;
    }
    Ok(())
}
