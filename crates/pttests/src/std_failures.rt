//! Readers and writers of std that fail once and would succeed again: the failure is returned, and the call is not
//! retried.

use crate::asserts::{assert_same, assert_same_for};
use ptfakes::VecSink;
use ptlines::{Failed, FromRead, FromWrite, LineFault, LineReader, Out, Sink, Source, Store};
use ptopts::Command;
use ptrun::{Report, run};
use std::alloc::Global;
use std::cell::Cell;
use std::io::{self, ErrorKind, Read, Write};
use std::process::Abort;
use std::test::Fail;

// Counts the calls of a reader or a writer. The call with the number `failing`, counted from 0, fails, and all others
// succeed.
#[derive(Drop)]
struct CallCounter {
    calls_made: Cell<u64>,
    flushes: Cell<u64>,
    failing: u64,
}

impl CallCounter {
    fn failing_at(failing: u64) -> Self {
        CallCounter {
            calls_made: Cell::new(0),
            flushes: Cell::new(0),
            failing,
        }
    }

    // Counts a call. The one that fails returns `Interrupted`, after which many callers retry.
    fn call(&self) -> io::Result<()> {
        let calls_made = self.calls_made.get();
        self.calls_made.set(calls_made.saturating_add(1));
        if calls_made == self.failing {
            return Err(io::Error::from(ErrorKind::Interrupted));
        }
        Ok(())
    }
}

// Reads a text, two bytes per call.
#[derive(Drop)]
struct FailingReader<'a> {
    text: &'a [u8],
    calls: &'a CallCounter,
}

impl Read for FailingReader<'_> {
    fn read(&mut self, buf: &mut [u8]) -> io::Result<usize> {
        self.calls.call()?;
        let count = self.text.len().min(2).min(buf.len());
        buf[..count].copy_from_slice(&self.text[..count]);
        self.text = &self.text[count..];
        Ok(count)
    }
}

// Takes one byte per call.
#[derive(Drop)]
struct FailingWriter<'a> {
    bytes: &'a mut Vec<u8>,
    calls: &'a CallCounter,
}

impl Write for FailingWriter<'_> {
    fn write(&mut self, buf: &[u8]) -> io::Result<usize> {
        self.calls.call()?;
        match buf.first() {
            Some(byte) => {
                self.bytes.push(*byte).map_err(|_| ErrorKind::OutOfMemory)?;
                Ok(1)
            }
            None => Ok(0),
        }
    }

    fn flush(&mut self) -> io::Result<()> {
        let flushes = self.calls.flushes.get();
        self.calls.flushes.set(flushes.saturating_add(1));
        self.calls.call()
    }
}

// Compares the number of calls, and of those that are flushes.
fn assert_calls(rt: &impl Abort, calls: &CallCounter, calls_made: u64, flushes: u64) {
    assert_same(rt, &calls.calls_made.get(), &calls_made);
    assert_same(rt, &calls.flushes.get(), &flushes);
}

#[test]
fn a_pull_is_one_read(rt: HostRuntime) {
    let mut into = [0u8; 4];
    let calls = CallCounter::failing_at(1);
    let mut source = FromRead::new(FailingReader {
        text: b"abcd",
        calls: &calls,
    });
    assert_same(&rt, &source.pull(&mut into), &Ok(2));
    assert_calls(&rt, &calls, 1, 0);
    assert_same(&rt, &source.pull(&mut into), &Err(Failed));
    assert_calls(&rt, &calls, 2, 0);
    assert_same(&rt, &into, &*b"ab\0\0");
}

#[test]
fn the_end_is_read_once(rt: HostRuntime) {
    let mut into = [0u8; 4];
    let calls = CallCounter::failing_at(9);
    let mut source = FromRead::new(FailingReader {
        text: b"ab",
        calls: &calls,
    });
    assert_same(&rt, &source.pull(&mut into), &Ok(2));
    assert_same(&rt, &source.pull(&mut into), &Ok(0));
    assert_calls(&rt, &calls, 2, 0);
}

#[test]
fn a_put_is_one_write_and_a_flush_one_flush(rt: HostRuntime) {
    let mut bytes = Vec::new(rt.alloc());
    {
        let calls = CallCounter::failing_at(1);
        let mut sink = FromWrite::new(FailingWriter {
            bytes: &mut bytes,
            calls: &calls,
        });
        assert_eq!(rt; sink.put(b"ab"), Ok(1));
        assert_calls(&rt, &calls, 1, 0);
        assert_same(&rt, &sink.put(b"b"), &Err(Failed));
        assert_calls(&rt, &calls, 2, 0);
    }
    let calls = CallCounter::failing_at(1);
    let mut sink = FromWrite::new(FailingWriter {
        bytes: &mut bytes,
        calls: &calls,
    });
    assert_eq!(rt; sink.flush(), Ok(()));
    assert_calls(&rt, &calls, 1, 1);
    assert_same(&rt, &sink.flush(), &Err(Failed));
    assert_calls(&rt, &calls, 2, 2);
}

type Lines<'a> = LineReader<FromRead<FailingReader<'a>>, FromRead<FailingReader<'a>>>;

fn fill_line(
    rt: &impl Abort,
    reader: &mut Lines<'_>,
    store: &mut Store,
) -> Result<bool, LineFault> {
    assert!(rt; store.slots() == 1);
    reader.fill(store, 0)
}

#[test]
fn lines_end_at_a_failed_read(rt: HostRuntime) -> Result<(), Fail> {
    for failing in 0..4u64 {
        let calls = CallCounter::failing_at(failing);
        let mut reader: Lines<'_> = LineReader::standard(FromRead::new(FailingReader {
            text: b"a\nb\nc\n",
            calls: &calls,
        }));
        let mut store = Store::new(rt.alloc(), 1)?;
        for _line in 0..failing {
            assert_same(&rt, &fill_line(&rt, &mut reader, &mut store), &Ok(true));
        }
        for _again in 0..3 {
            let fault = Err(LineFault::Read);
            assert_same(&rt, &fill_line(&rt, &mut reader, &mut store), &fault);
            assert_calls(&rt, &calls, failing.saturating_add(1), 0);
        }
    }
    Ok(())
}

// Pushes five bytes and finishes, twice, and returns whether the first finish succeeded.
fn push_and_finish(rt: &impl Abort, bytes: &mut Vec<u8>, calls: &CallCounter) -> bool {
    let mut out = Out::new(FromWrite::new(FailingWriter { bytes, calls }));
    assert!(rt; out.push(b"abcde").is_ok());
    let flushed = out.finish().is_ok();
    if !flushed {
        let calls_made = calls.calls_made.get();
        assert!(rt; out.push(b"f").is_err());
        assert!(rt; out.finish().is_err());
        assert_same(rt, &calls.calls_made.get(), &calls_made);
    }
    flushed
}

#[test]
fn output_ends_at_a_failed_call(rt: HostRuntime) {
    // The sixth call is the flush.
    for failing in 0..7u64 {
        let calls = CallCounter::failing_at(failing);
        let mut bytes = Vec::new(rt.alloc());
        assert_same(
            &rt,
            &push_and_finish(&rt, &mut bytes, &calls),
            &(failing == 6),
        );
        assert_calls(
            &rt,
            &calls,
            failing.saturating_add(1).min(6),
            u64::from(failing >= 5),
        );
        assert!(rt; bytes.as_slice() == &b"abcde"[..bytes.len().min(5)]);
        assert_same(&rt, &(bytes.len() as u64), &failing.min(5));
    }
}

// Runs `tr a-f A-F` over six bytes.
fn translate<'a>(
    alloc: Global,
    reads: &'a CallCounter,
    bytes: &'a mut Vec<u8>,
    writes: &'a CallCounter,
) -> Report<FromWrite<FailingWriter<'a>>, VecSink> {
    let words = &["tr", "a-f", "A-F"];
    let standard: Lines<'a> = LineReader::standard(FromRead::new(FailingReader {
        text: b"abcdef",
        calls: reads,
    }));
    let out = FromWrite::new(FailingWriter {
        bytes,
        calls: writes,
    });
    let command = Command::read(alloc, words);
    run(
        alloc,
        command,
        words,
        &mut [standard],
        out,
        VecSink::new(alloc),
    )
}

// Runs it, compares its message, and returns its status.
fn status_of_run(
    rt: &impl Abort,
    alloc: Global,
    reads: &CallCounter,
    bytes: &mut Vec<u8>,
    writes: &CallCounter,
    said: &[u8],
) -> u8 {
    let report = translate(alloc, reads, bytes, writes);
    assert_same(rt, &report.messages.bytes(), &said);
    report.status
}

// The number of the read and of the write that fails, the message, the number of reads, of writes and flushes, of
// flushes alone, and of bytes written.
type Failure = (u64, u64, &'static [u8], u64, u64, u64, u64);

const NO_FAILURE: u64 = u64::MAX;

const READ_FAILED: &[u8] = b"tr: standard input: read failed\n";

const WRITE_FAILED: &[u8] = b"tr: output: write failed\n";

const FAILURES: &[Failure] = &[
    // All bytes received are written, one per call, and flushed once.
    (0, NO_FAILURE, READ_FAILED, 1, 1, 1, 0),
    (1, NO_FAILURE, READ_FAILED, 2, 3, 1, 2),
    (2, NO_FAILURE, READ_FAILED, 3, 5, 1, 4),
    (3, NO_FAILURE, READ_FAILED, 4, 7, 1, 6),
    // A read returns two bytes, which are sent, one per call, before the next read. The seventh call is the flush.
    (NO_FAILURE, 0, WRITE_FAILED, 1, 1, 0, 0),
    (NO_FAILURE, 1, WRITE_FAILED, 1, 2, 0, 1),
    (NO_FAILURE, 2, WRITE_FAILED, 2, 3, 0, 2),
    (NO_FAILURE, 3, WRITE_FAILED, 2, 4, 0, 3),
    (NO_FAILURE, 4, WRITE_FAILED, 3, 5, 0, 4),
    (NO_FAILURE, 5, WRITE_FAILED, 3, 6, 0, 5),
    (NO_FAILURE, 6, WRITE_FAILED, 4, 7, 1, 6),
];

#[test]
fn a_run_ends_at_a_failed_call(rt: HostRuntime) {
    for (read, write, said, pulls, calls, flushes, written) in FAILURES {
        let (reads, writes) = (
            CallCounter::failing_at(*read),
            CallCounter::failing_at(*write),
        );
        let mut bytes = Vec::new(rt.alloc());
        let status = status_of_run(&rt, rt.alloc(), &reads, &mut bytes, &writes, said);
        assert_same_for(&rt, &(*read, *write), &status, &1);
        assert_calls(&rt, &reads, *pulls, 0);
        assert_calls(&rt, &writes, *calls, *flushes);
        assert!(rt; bytes.as_slice() == &b"ABCDEF"[..bytes.len().min(6)]);
        assert_same_for(&rt, &(*read, *write), &(bytes.len() as u64), written);
    }
}
