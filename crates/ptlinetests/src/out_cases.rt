//! Tests of `Out` and of `write_out` with sinks that accept few bytes at a time, run out of room, or fail.

use crate::asserts::{holds_of, same, same_of};
use ptfakes::texts::{is_line, text_of};
use ptfakes::{ArraySink, VecSink};
use ptlines::{BLOCK, Out, WriteFault, write_out};
use std::alloc::{AllocError, Global};
use std::process::Abort;
use std::test::Fail;

// The lengths of the slices pushed, which name the case; how many bytes the sink has before `finish`; and the number of
// its calls in all, including one flush. A slice that does not fit fills the block of 8,192 bytes, unless it is empty, and
// the block is written; of the rest half a block or more is written directly.
const PUSHES: &[(&[usize], usize, u64)] = &[
    (&[], 0, 1),
    (&[0], 0, 1),
    (&[1], 0, 2),
    (&[3, 0, 4], 0, 2),
    (&[BLOCK - 1], 0, 2),
    (&[BLOCK], 0, 2),
    (&[BLOCK + 1], BLOCK + 1, 2),
    (&[20000], 20000, 2),
    (&[BLOCK - 1, 1], 0, 2),
    (&[BLOCK, 1], BLOCK, 3),
    (&[BLOCK - 1, 2], BLOCK, 3),
    (&[1, BLOCK], BLOCK, 3),
    (&[4000, BLOCK - 4000, 1], BLOCK, 3),
    (&[5, 20000, 0, 5], 20005, 4),
    (&[5, 20000, 5], 20005, 4),
    (&[3000, 3000, 3000, 3000, 3000, 3000], 2 * BLOCK, 4),
];

// Pushes slices of these lengths, which together are one line of `text`, and returns how many were pushed without
// error.
fn push_all(rt: &impl Abort, out: &mut Out<VecSink>, text: &[u8], lengths: &[usize]) -> usize {
    let mut from = 0usize;
    for (number, length) in lengths.iter().enumerate() {
        let to = from.saturating_add(*length);
        assert!(rt; from <= to && to <= text.len());
        if out.push(&text[from..to]).is_err() {
            return number;
        }
        from = to;
    }
    lengths.len()
}

const FAULT: Result<(), WriteFault> = Err(WriteFault::Write);

// Whether all calls succeed, with `finish` or without it. After a failed write every call fails and nothing is written.
fn writes_all(
    rt: &impl Abort,
    out: &mut Out<VecSink>,
    text: &[u8],
    lengths: &[usize],
    ends: bool,
) -> bool {
    let are_pushed = push_all(rt, out, text, lengths) == lengths.len();
    let is_well = are_pushed && (!ends || out.finish().is_ok());
    if !is_well {
        assert!(rt; out.has_failed());
        for more in [b"more".as_slice(), b""] {
            same(rt, &out.push(more), &FAULT);
        }
        same(rt, &out.finish(), &FAULT);
    }
    is_well
}

// The limits of a sink: bytes per call, bytes in all, and calls that succeed.
type Limits = (usize, usize, u64);

// After a case: whether all calls succeeded, the sink's calls, its flushes that succeeded, and how many bytes it has.
type Left = (bool, u64, u64, usize);

// Pushes a text to an output with a limited sink, which must have a prefix of the text afterwards.
fn written(
    rt: &impl Abort,
    alloc: Global,
    text: &[u8],
    lengths: &[usize],
    (size, room, ok_calls): Limits,
    ends: bool,
) -> Left {
    let mut out = Out::new(VecSink::limited(alloc, size, room, ok_calls));
    let writes_all = writes_all(rt, &mut out, text, lengths, ends);
    let kept = out.into_sink();
    let accepted = kept.bytes().len();
    holds_of(rt, &lengths, is_line(kept.bytes(), accepted));
    (writes_all, kept.calls(), kept.flushes(), accepted)
}

// A sink that accepts `size` bytes a call has all bytes at the end, with one flush. Before `finish` it has those that
// are not buffered. A sink that has no more room returns 0, which is a failure, and has the bytes that fit.
fn is_written_at_end(
    rt: &impl Abort,
    alloc: Global,
    text: &[u8],
    (lengths, before, calls): (&[usize], usize, u64),
) {
    for size in [1, 7, BLOCK, usize::MAX] {
        let limits = (size, usize::MAX, u64::MAX);
        let (writes_all, made, flushes, accepted) = written(rt, alloc, text, lengths, limits, true);
        let left = (writes_all, flushes, accepted);
        same_of(rt, &(lengths, size), &left, &(true, 1, text.len()));
        if size == usize::MAX {
            same_of(rt, &lengths, &made, &calls);
        }
    }
    let limits = (usize::MAX, usize::MAX, u64::MAX);
    let (writes_all, _, flushes, accepted) = written(rt, alloc, text, lengths, limits, false);
    let left = (writes_all, flushes, accepted);
    same_of(rt, &lengths, &left, &(true, 0, before));
    for room in [0, 1, BLOCK - 1, BLOCK, BLOCK + 1, 19999] {
        let limits = (3000, room, u64::MAX);
        let (writes_all, _, _, accepted) = written(rt, alloc, text, lengths, limits, true);
        let wanted = (text.len() <= room, text.len().min(room));
        same_of(rt, &(lengths, room), &(writes_all, accepted), &wanted);
    }
}

// Lets each call of the sink fail in turn, up to the first that is not reached. No call is made after the failed one.
fn fails(rt: &impl Abort, alloc: Global, text: &[u8], lengths: &[usize], size: usize) {
    for ok_calls in 0..40000u64 {
        let limits = (size, usize::MAX, ok_calls);
        let (passes, calls, _, accepted) = written(rt, alloc, text, lengths, limits, true);
        let of = (lengths, ok_calls);
        same_of(
            rt,
            &of,
            &calls,
            &ok_calls.saturating_add(u64::from(!passes)),
        );
        let is_whole = accepted == text.len();
        let is_part = !passes && accepted < text.len();
        holds_of(rt, &of, is_whole || is_part);
        if passes {
            return;
        }
    }
    holds_of(rt, &lengths, false);
}

fn is_pushed(
    rt: &impl Abort,
    alloc: Global,
    (lengths, before, calls): (&[usize], usize, u64),
) -> Result<(), AllocError> {
    let mut total = 0usize;
    for length in lengths {
        total = total.saturating_add(*length);
    }
    let text = text_of(alloc, &[total], b'\n', false)?;
    is_written_at_end(rt, alloc, &text, (lengths, before, calls));
    fails(rt, alloc, &text, lengths, usize::MAX);
    fails(rt, alloc, &text, lengths, 1000);
    // With few bytes, also one byte a call.
    if text.len() < 8 {
        fails(rt, alloc, &text, lengths, 1);
    }
    Ok(())
}

#[test]
fn long_slices_are_pushed(rt: HostRuntime) -> Result<(), Fail> {
    for row in PUSHES {
        is_pushed(&rt, rt.alloc(), *row)?;
    }
    Ok(())
}

// A text, the room of the sink, how many of its calls succeed, the result, the bytes of the sink, and the number of its
// calls.
type WrittenOut = (
    &'static [u8],
    usize,
    u64,
    Result<(), WriteFault>,
    &'static [u8],
    u64,
);

const WRITTEN_OUT: &[WrittenOut] = &[
    (b"abcde", 9, 9, Ok(()), b"abcde", 3),
    (b"abcde", 5, 3, Ok(()), b"abcde", 3),
    (b"abcde", 4, 9, FAULT, b"abcd", 3),
    (b"abcde", 9, 2, FAULT, b"abcd", 3),
    (b"abcde", 9, 0, FAULT, b"", 1),
    (b"abcde", 0, 9, FAULT, b"", 1),
    (b"", usize::MAX, u64::MAX, Ok(()), b"", 0),
];

fn is_written_at_once(rt: &impl Abort, alloc: Global, row: &WrittenOut) {
    let (text, room, ok_calls, answer, accepted, calls) = *row;
    let mut sink = VecSink::limited(alloc, 2, room, ok_calls);
    same_of(rt, &(room, ok_calls), &write_out(&mut sink, text), &answer);
    holds_of(rt, &(room, ok_calls), sink.bytes() == accepted);
    let counts = (sink.calls(), sink.flushes());
    same_of(rt, &(room, ok_calls), &counts, &(calls, 0));
}

// Slices pushed to an output over an `ArraySink`, and the result of `finish` after each.
const BLOCKS: &[(&[u8], Result<(), WriteFault>)] = &[
    (b"0123456789", Ok(())),
    (b"abcdef", Ok(())),
    (b"!", FAULT),
];

#[test]
fn bytes_are_written_at_once_without_memory(rt: HostRuntime) {
    for row in WRITTEN_OUT {
        is_written_at_once(&rt, rt.alloc(), row);
    }
    let mut out = Out::new(ArraySink::<16>::new(5, u64::MAX));
    for (bytes, outcome) in BLOCKS {
        same(&rt, &out.push(bytes), &Ok(()));
        assert!(rt; !out.has_failed());
        same(&rt, &out.finish(), outcome);
    }
    let fixed = out.into_sink();
    assert!(rt; fixed.bytes() == b"0123456789abcdef".as_slice());
    // Writes of 5 and 5 bytes, of 5 and 1, of none, and two flushes.
    same(&rt, &(fixed.calls(), fixed.flushes()), &(7, 2));
}
