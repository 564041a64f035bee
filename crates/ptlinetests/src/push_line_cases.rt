//! Tests of `push_line`: a line with a prefix and a terminator, at many fill levels of the block, and after
//! a failed write.

use crate::asserts::{holds_of, same};
use ptfakes::VecSink;
use ptfakes::texts::byte_at;
use ptlines::{BLOCK, Out, WriteFault};
use std::alloc::{AllocError, Global};
use std::process::Abort;
use std::test::Fail;

const PREFIXES: [&[u8]; 5] = [b"", b"\t", b"\t\t", b"a,b", b"0123456789abcdefghij"];

const LENGTHS: [usize; 20] = [
    0, 1, 2, 3, 4, 5, 7, 8, 9, 15, 16, 17, 31, 32, 33, 63, 64, 65, 100, 9000,
];

const FRONTS: [usize; 9] = [0, 5, 8100, 8127, 8128, 8180, BLOCK - 2, BLOCK - 1, BLOCK];

// 8,192 bytes and then a line of this length, surrounded by bytes that are not part of it.
fn text_of(alloc: Global, length: usize) -> Result<Vec<u8>, AllocError> {
    let mut bytes = vec![in alloc; b'.'; BLOCK]?;
    bytes.extend_from_slice(b"\n\t")?;
    for place in 0..length {
        bytes.push(byte_at(place))?;
    }
    bytes.extend_from_slice(b"\n\t\0")?;
    Ok(bytes)
}

// Whether the bytes are the concatenation of these parts.
fn is_of(bytes: &[u8], parts: [&[u8]; 4]) -> bool {
    let mut left = bytes;
    for part in parts {
        if left.len() < part.len() || !left.starts_with(part) {
            return false;
        }
        left = &left[part.len()..];
    }
    left.is_empty()
}

// Pushes bytes, then a line, and then others, and checks the bytes written in the end.
fn is_pushed(rt: &impl Abort, alloc: Global, front: &[u8], prefix: &[u8], line: &[u8]) {
    let mut out = Out::new(VecSink::new(alloc));
    same(rt, &out.push(front), &Ok(()));
    same(rt, &out.push_line(prefix, line, b"\n"), &Ok(()));
    same(rt, &out.push(b"next"), &Ok(()));
    same(rt, &out.finish(), &Ok(()));
    let parts = [front, prefix, line, b"\nnext"];
    let is_written = is_of(out.into_sink().bytes(), parts);
    holds_of(rt, &(front.len(), prefix.len(), line.len()), is_written);
}

// Pushes a line within a text after prefixes of that text of different lengths.
fn is_pushed_after(rt: &impl Abort, alloc: Global, text: &[u8], length: usize) {
    assert!(rt; text.len() == length.saturating_add(8197));
    let line = &text[8194..8194 + length];
    for prefix in PREFIXES {
        for front in FRONTS {
            assert!(rt; front <= text.len());
            is_pushed(rt, alloc, &text[..front], prefix, line);
        }
    }
}

#[test]
fn a_line_is_pushed_at_once(rt: HostRuntime) -> Result<(), Fail> {
    for length in LENGTHS {
        let text = text_of(rt.alloc(), length)?;
        is_pushed_after(&rt, rt.alloc(), &text, length);
    }
    Ok(())
}

// The number of bytes in the sink after `front` bytes and then a tab, a line of 4 bytes and its terminator were pushed.
fn written_out(rt: &impl Abort, alloc: Global, front: usize) -> Result<usize, AllocError> {
    let dots = vec![in alloc; b'.'; front]?;
    let mut out = Out::new(VecSink::new(alloc));
    same(rt, &out.push(&dots), &Ok(()));
    same(rt, &out.push_line(b"\t", b"line", b"\0"), &Ok(()));
    Ok(out.into_sink().bytes().len())
}

#[test]
fn a_line_is_buffered_or_not_pushed(rt: HostRuntime) {
    same(&rt, &written_out(&rt, rt.alloc(), 8186), &Ok(0));
    // The tab and the line are buffered before the terminator, which does not fit, is pushed.
    same(&rt, &written_out(&rt, rt.alloc(), 8187), &Ok(BLOCK));
    // After a failed write nothing is pushed.
    let mut out = Out::new(VecSink::limited(rt.alloc(), 3, 4, u64::MAX));
    let fault = Err(WriteFault::Write);
    same(&rt, &out.push_line(b"\t", b"line", b"\n"), &Ok(()));
    same(&rt, &out.finish(), &fault);
    same(&rt, &out.push_line(b"", b"more", b"\n"), &fault);
    assert!(rt; out.into_sink().bytes() == b"\tlin".as_slice());
}
