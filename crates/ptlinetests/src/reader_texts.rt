//! Tests of a reader over texts of known lengths: lines and blocks in chunks, a very long line, and a line that
//! grows while each request for memory fails in turn.

use crate::asserts::{holds_of, same, same_of};
use crate::reader_steps::{Input, Reader, SIZES, current, ends, next, reader_of, shows};
use ptfakes::texts::{is_line, line_lengths, text_of};
use ptfakes::{FailingAlloc, RepeatedByte};
use ptlines::{BLOCK, LineFault, LineReader, Store};
use std::alloc::{AllocError, Global};
use std::cell::Cell;
use std::process::Abort;
use std::test::Fail;

const LENGTHS: &[&[usize]] = &[
    &[],
    &[0],
    &[1],
    &[BLOCK - 1],
    &[BLOCK],
    &[BLOCK + 1],
    &[20000],
    &[0, 0, 0],
    &[0, 1, BLOCK - 1, BLOCK, BLOCK + 1, 20000],
    &[20000, BLOCK + 1, BLOCK, BLOCK - 1, 1, 0],
];

// The number of reads of a text in chunks of this size: one for each chunk, and one for the end of input.
fn pulls_of(text: &[u8], size: usize) -> u64 {
    (text.len().div_ceil(size.clamp(1, BLOCK)) as u64).saturating_add(1)
}

// Reads the lines of a text in chunks of this size, and then twice the end of input.
fn reads(
    rt: &impl Abort,
    reader: &mut Reader<'_>,
    store: &mut Store,
    pulls: &Cell<u64>,
    (text, size): (&[u8], usize),
    lengths: &[usize],
) {
    for length in lengths {
        let of = (*length, size);
        same_of(rt, &of, &next(rt, reader, store), &Ok(true));
        holds_of(rt, &of, is_line(current(rt, store), *length));
    }
    for _ in 0..2 {
        ends(rt, &("lengths", size), reader, store);
        same_of(rt, &size, &pulls.get(), &pulls_of(text, size));
    }
}

// Reads a text of these lengths, whose last line has a terminator or not.
fn reads_text(
    rt: &impl Abort,
    alloc: Global,
    lengths: &[usize],
    (zero, terminated): (bool, bool),
) -> Result<(), Fail> {
    let text = text_of(alloc, lengths, if zero { 0 } else { b'\n' }, terminated)?;
    for size in SIZES {
        let mut store = Store::new(alloc, 1)?;
        let pulls = Cell::new(0);
        let mut reader = reader_of(&Input::Standard, &text, (*size, u64::MAX), &pulls);
        if zero {
            reader.set_ending(true);
        }
        let lengths = line_lengths(lengths, terminated);
        reads(rt, &mut reader, &mut store, &pulls, (&text, *size), lengths);
    }
    Ok(())
}

fn is_repeated(line: &[u8], byte: u8) -> bool {
    line.iter().all(|other| *other == byte)
}

// One line of a million bytes.
fn has_long(rt: &impl Abort, store: &mut Store) {
    let source = RepeatedByte::new(b'a', 1_000_000, usize::MAX, u64::MAX);
    let mut reader: LineReader<RepeatedByte, RepeatedByte> = LineReader::file(source);
    same(rt, &next(rt, &mut reader, store), &Ok(true));
    same(rt, &current(rt, store).len(), &1_000_000);
    assert!(rt; is_repeated(current(rt, store), b'a'));
    ends(rt, &("long", 0), &mut reader, store);
    same(rt, &(store.peak(), store.now()), &(1_000_000, 0));
}

#[test]
fn lines_in_pieces_and_a_very_long_one(rt: HostRuntime) -> Result<(), Fail> {
    for lengths in LENGTHS {
        for kind in [(false, true), (false, false), (true, true), (true, false)] {
            reads_text(&rt, rt.alloc(), lengths, kind)?;
        }
    }
    let mut store = Store::new(rt.alloc(), 1)?;
    has_long(&rt, &mut store);
    Ok(())
}

// Consumes a text block by block, at most `step` bytes at a time.
fn pass_all(
    rt: &impl Abort,
    of: &(&str, usize),
    reader: &mut Reader<'_>,
    step: usize,
    text: &[u8],
) -> Result<(), LineFault> {
    let mut left = text;
    for _ in 0..100_000 {
        let expected = &left[..step.min(left.len())];
        let length = shows(rt, of, reader, expected, step)?;
        let count = length.min(step);
        if count == 0 {
            break;
        }
        assert!(rt; length <= BLOCK && count <= left.len());
        left = &left[count..];
    }
    assert!(rt; left.is_empty());
    Ok(())
}

// Expects a text in chunks to be returned whole by `block`, with one read for each chunk.
fn shows_all(rt: &impl Abort, text: &[u8], size: usize, step: usize) {
    let pulls = Cell::new(0);
    let mut reader = reader_of(&Input::Standard, text, (size, u64::MAX), &pulls);
    let of = ("blocks", size);
    same_of(
        rt,
        &of,
        &pass_all(rt, &of, &mut reader, step, text),
        &Ok(()),
    );
    same_of(rt, &of, &shows(rt, &of, &mut reader, b"", 0), &Ok(0));
    same_of(rt, &of, &pulls.get(), &pulls_of(text, size));
}

// A line of this length without a terminator.
fn shows_line(rt: &impl Abort, alloc: Global, length: usize) -> Result<(), AllocError> {
    let text = text_of(alloc, &[length], b'\n', false)?;
    holds_of(rt, &length, is_line(&text, length));
    for size in SIZES {
        for step in [1, 5, usize::MAX] {
            shows_all(rt, &text, *size, step);
        }
    }
    Ok(())
}

#[test]
fn blocks_in_pieces(rt: HostRuntime) -> Result<(), Fail> {
    for length in [0, 1, BLOCK - 1, BLOCK, BLOCK + 1, 20000] {
        shows_line(&rt, rt.alloc(), length)?;
    }
    Ok(())
}

// Reads a line of 20,000 bytes, or a prefix of it if a request for memory fails; then nothing more is read. Returns
// whether a request failed.
fn reads_while_it_grows(
    rt: &impl Abort,
    reader: &mut Reader<'_>,
    store: &mut Store<&FailingAlloc<Global>>,
    pulls: &Cell<u64>,
) -> bool {
    let filled = next(rt, reader, store);
    let count = current(rt, store).len();
    assert!(rt; is_line(current(rt, store), count));
    if !store.denied() {
        same(rt, &(filled, count), &(Ok(true), 20000));
        return false;
    }
    let pulled = pulls.get();
    same(
        rt,
        &(filled, count < 20000),
        &(Err(LineFault::Memory), true),
    );
    for _ in 0..2 {
        same(rt, &next(rt, reader, store), &Err(LineFault::Memory));
        let shown = shows(rt, &("denied", count), reader, b"", 0);
        same(rt, &shown, &Err(LineFault::Memory));
    }
    let left = (current(rt, store).len(), pulls.get());
    same(rt, &left, &(count, pulled));
    true
}

// Reads such a line with an allocator of which at most one request fails. Returns whether that one was made for the
// line, or that memory ran out for the store.
fn reads_long(
    rt: &impl Abort,
    alloc: &FailingAlloc<Global>,
    text: &[u8],
) -> Result<bool, LineFault> {
    let mut store = Store::new(alloc, 1)?;
    let pulls = Cell::new(0);
    let mut reader = reader_of(&Input::Standard, text, (usize::MAX, u64::MAX), &pulls);
    Ok(reads_while_it_grows(rt, &mut reader, &mut store, &pulls))
}

// Lets each of the first requests fail in turn while a line is read, and returns how often the line was cut short.
fn count_failures(rt: &impl Abort, alloc: Global, text: &[u8]) -> u32 {
    let mut refused = 0u32;
    for ok_calls in 0..30 {
        let refusing = FailingAlloc::after(alloc, ok_calls);
        let denied = reads_long(rt, &refusing, text);
        same_of(rt, &ok_calls, &refusing.refused(), &(denied != Ok(false)));
        // The first two requests are for the slot and its buffer.
        let is_first = denied == Err(LineFault::Memory);
        same_of(rt, &ok_calls, &is_first, &(ok_calls < 2));
        if denied == Ok(true) {
            refused = refused.saturating_add(1);
        }
    }
    refused
}

#[test]
fn each_request_fails(rt: HostRuntime) -> Result<(), Fail> {
    let text = text_of(rt.alloc(), &[20000], b'\n', true)?;
    let refused = count_failures(&rt, rt.alloc(), &text);
    holds_of(&rt, &refused, refused > 1 && refused < 29);
    Ok(())
}
