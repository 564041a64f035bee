//! Tests of the sources, the sinks and the allocator of `ptfakes`.

use crate::asserts::{holds_of, same, same_of};
use ptfakes::{ChunkedSource, CountedSource, FailingAlloc, RepeatedByte, VecSink};
use ptlines::{Failed, Sink, Source};
use std::alloc::Global;
use std::cell::Cell;
use std::process::Abort;

/// The result of a read, and the first bytes of the buffer after it.
pub type Pull = (Result<usize, Failed>, &'static [u8]);

/// Reads into four bytes, which are dashes before each read, and expects these results in order.
pub fn pulls<S: Source>(rt: &impl Abort, source: &mut S, answers: &[Pull]) {
    for (number, (answer, given)) in answers.iter().enumerate() {
        let mut into = [b'-'; 4];
        same_of(rt, &number, &source.pull(&mut into), answer);
        holds_of(rt, &number, into.starts_with(given));
    }
}

const IN_PIECES: &[Pull] = &[
    (Ok(2), b"ab"),
    (Ok(2), b"cd"),
    (Ok(1), b"e"),
    (Ok(0), b""),
    (Err(Failed), b""),
    (Err(Failed), b""),
];

const WHOLE: &[Pull] = &[(Ok(4), b"abcd"), (Ok(1), b"e"), (Ok(0), b"")];

const REPEATED: &[Pull] = &[
    (Ok(3), b"xxx"),
    (Ok(2), b"xx"),
    (Ok(0), b""),
    (Err(Failed), b""),
];

#[test]
fn pieces_of_a_text_and_one_byte_repeated(rt: HostRuntime) {
    let mut source = ChunkedSource::new(b"abcde", 2, 4);
    pulls(&rt, &mut source, IN_PIECES);
    same(&rt, &source.pulls(), &6);
    let mut whole = ChunkedSource::whole(b"abcde");
    pulls(&rt, &mut whole, WHOLE);
    same(&rt, &whole.pulls(), &3);
    let seen = Cell::new(0);
    let mut source = CountedSource::new(RepeatedByte::new(b'x', 5, 3, 3), &seen);
    pulls(&rt, &mut source, REPEATED);
    same(&rt, &seen.get(), &4);
    let mut other = RepeatedByte::new(b'y', 1, 0, 0);
    pulls(&rt, &mut other, &[(Err(Failed), b"")]);
    same(&rt, &other.pulls(), &1);
}

// A call of a sink with its expected result: a write or a flush.
enum Call {
    Put(&'static [u8], Result<usize, Failed>),
    Flush(Result<(), Failed>),
}

const LIMITED: &[Call] = &[
    Call::Put(b"abcd", Ok(3)),
    Call::Flush(Ok(())),
    Call::Put(b"defg", Ok(2)),
    Call::Put(b"f", Ok(0)),
    Call::Put(b"f", Err(Failed)),
    Call::Flush(Err(Failed)),
];

const WITHOUT_MEMORY: &[Call] = &[Call::Put(b"a", Err(Failed)), Call::Put(b"a", Ok(1))];

// Calls a sink, also after a failure, and expects all calls to be counted and the sink to have these bytes in the end.
fn answers(
    rt: &impl Abort,
    sink: &mut VecSink<&FailingAlloc<Global>>,
    calls: &[Call],
    (bytes, flushes): (&[u8], u64),
) {
    for (number, call) in calls.iter().enumerate() {
        match call {
            Call::Put(bytes, answer) => {
                assert!(rt; !bytes.is_empty());
                same_of(rt, &number, &sink.put(bytes), answer);
            }
            Call::Flush(answer) => same_of(rt, &number, &sink.flush(), answer),
        }
    }
    holds_of(rt, &bytes, sink.bytes() == bytes);
    let counts = (sink.calls(), sink.flushes());
    same_of(rt, &bytes, &counts, &(calls.len() as u64, flushes));
}

// Six lists allocate once each; the one after `ok_calls` fails.
fn one_of_six(rt: &impl Abort, alloc: Global, ok_calls: u64) {
    let alloc = FailingAlloc::after(alloc, ok_calls);
    for growth in 0..6u64 {
        let of = (growth, ok_calls);
        same_of(rt, &of, &alloc.refused(), &(growth > ok_calls));
        let mut list = Vec::new(&alloc);
        same_of(rt, &of, &list.push(7u8).is_ok(), &(growth != ok_calls));
    }
}

const DIGITS: &[u8] = b"0123456789";

// The second growth of a list fails.
fn keeps(rt: &impl Abort, alloc: &FailingAlloc<Global>, list: &mut Vec<u8, &FailingAlloc<Global>>) {
    let more = [b'x'; 100];
    assert!(rt; list.extend_from_slice(DIGITS).is_ok());
    same(rt, &alloc.left(), &0);
    assert!(rt; list.extend_from_slice(&more).is_err());
    assert!(rt; alloc.refused() && list.as_slice() == DIGITS);
    assert!(rt; list.extend_from_slice(&more).is_ok());
    same(rt, &list.len(), &110);
}

#[test]
fn sinks_with_limits_and_failed_requests(rt: HostRuntime) {
    let alloc = FailingAlloc::after(rt.alloc(), u64::MAX);
    let mut limited = VecSink::limited(&alloc, 3, 5, 4);
    answers(&rt, &mut limited, LIMITED, (b"abcde", 1));
    let alloc = FailingAlloc::after(rt.alloc(), 0);
    let mut without = VecSink::new(&alloc);
    answers(&rt, &mut without, WITHOUT_MEMORY, (b"a", 0));
    for ok_calls in 0..4u64 {
        one_of_six(&rt, rt.alloc(), ok_calls);
    }
    let alloc = FailingAlloc::after(rt.alloc(), 1);
    keeps(&rt, &alloc, &mut Vec::new(&alloc));
}
