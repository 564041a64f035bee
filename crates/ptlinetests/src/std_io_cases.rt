//! Tests of the adapters `FromRead` and `FromWrite`, with readers and writers of the standard library.

use crate::asserts::{holds_of, same, same_of};
use crate::fake_cases::{Pull, pulls};
use crate::reader_steps::{END, FAULT, LINE, Step, run_steps};
use ptlines::{Failed, FromRead, FromWrite, LineReader, Out, Sink, Store, WriteFault};
use std::alloc::Global;
use std::cell::Cell;
use std::io::{self, ErrorKind, Read, Write};
use std::process::Abort;
use std::test::Fail;

// A reader that returns a text two bytes at a time, and then fails.
#[derive(Drop)]
struct Broken<'a>(&'a [u8]);

impl Read for Broken<'_> {
    fn read(&mut self, buf: &mut [u8]) -> io::Result<usize> {
        if self.0.is_empty() {
            return Err(io::Error::from(ErrorKind::BrokenPipe));
        }
        let count = self.0.len().min(2).min(buf.len());
        buf[..count].copy_from_slice(&self.0[..count]);
        self.0 = &self.0[count..];
        Ok(count)
    }
}

// A writer that accepts one byte at a time, up to a limit.
#[derive(Drop)]
struct Narrow<'a> {
    bytes: &'a mut Vec<u8>,
    room: usize,
    flushes: bool,
}

impl Write for Narrow<'_> {
    fn write(&mut self, buf: &[u8]) -> io::Result<usize> {
        if self.bytes.len() >= self.room {
            return Ok(0);
        }
        match buf.first() {
            Some(byte) => {
                self.bytes.push(*byte).map_err(|_| ErrorKind::OutOfMemory)?;
                Ok(1)
            }
            None => Ok(0),
        }
    }

    fn flush(&mut self) -> io::Result<()> {
        if self.flushes {
            Ok(())
        } else {
            Err(io::Error::from(ErrorKind::BrokenPipe))
        }
    }
}

type Through<R> = LineReader<FromRead<R>, FromRead<R>>;

const TO_THE_END: &[Step<'_>] = &[
    Step {
        bytes: b"ab",
        ..LINE
    },
    LINE,
    Step {
        bytes: b"cd",
        ..LINE
    },
    END,
    END,
];

const TO_A_FAULT: &[Step<'_>] = &[
    Step {
        bytes: b"ab",
        ..LINE
    },
    Step {
        bytes: b"cd",
        ..FAULT
    },
    Step {
        bytes: b"cd",
        ..FAULT
    },
];

const OF_BROKEN: &[Pull] = &[(Ok(2), b"ab--"), (Ok(1), b"c---"), (Err(Failed), b"----")];

const OF_SLICE: &[Pull] = &[(Ok(1), b"x---"), (Ok(0), b"----")];

// Covers each kind of result of a reader: bytes, the end of input, and a failure.
#[test]
fn readers_of_std_are_sources(rt: HostRuntime) -> Result<(), Fail> {
    let mut store = Store::new(rt.alloc(), 1)?;
    let mut other = Store::new(rt.alloc(), 1)?;
    let uncounted = Cell::new(0);
    let mut reader: Through<&[u8]> = LineReader::standard(FromRead::new(b"ab\n\ncd".as_slice()));
    run_steps(
        &rt,
        "to the end",
        &mut reader,
        &mut store,
        &uncounted,
        TO_THE_END,
    );
    let mut reader: Through<Broken<'_>> = LineReader::file(FromRead::new(Broken(b"ab\ncd")));
    run_steps(
        &rt,
        "to a fault",
        &mut reader,
        &mut other,
        &uncounted,
        TO_A_FAULT,
    );
    pulls(&rt, &mut FromRead::new(Broken(b"abc")), OF_BROKEN);
    pulls(&rt, &mut FromRead::new(b"x".as_slice()), OF_SLICE);
    Ok(())
}

// Pushes two slices and finishes, with a writer that has room for `room` bytes.
fn writes(bytes: &mut Vec<u8>, room: usize, flushes: bool) -> Result<(), WriteFault> {
    let writer = Narrow {
        bytes,
        room,
        flushes,
    };
    let mut out = Out::new(FromWrite::new(writer));
    out.push(b"ab")?;
    out.push(b"cde")?;
    out.finish()
}

// Checks the bytes written to a writer with this room, whose flush succeeds or fails.
fn is_written(
    rt: &impl Abort,
    alloc: Global,
    room: usize,
    flushes: bool,
    wanted: Result<(), WriteFault>,
) {
    let mut bytes = Vec::new(alloc);
    same_of(rt, &room, &writes(&mut bytes, room, flushes), &wanted);
    let count = room.min(5);
    holds_of(rt, &room, bytes.as_slice() == &b"abcde"[..count]);
}

// A writer with room for one byte accepts one, and then none. A flush fails.
fn fails(rt: &impl Abort, bytes: &mut Vec<u8>) {
    let mut sink = FromWrite::new(Narrow {
        bytes,
        room: 1,
        flushes: false,
    });
    // (the next call requires that it has not failed)
    assert_eq!(rt; sink.put(b"ab"), Ok(1));
    same(rt, &sink.put(b"b"), &Ok(0));
    let mut sink = FromWrite::new(Narrow {
        bytes,
        room: 0,
        flushes: false,
    });
    same(rt, &sink.flush(), &Err(Failed));
}

// Covers each kind of result of a writer.
#[test]
fn writers_of_std_are_sinks(rt: HostRuntime) {
    let mut bytes = Vec::new(rt.alloc());
    fails(&rt, &mut bytes);
    for room in 0..8usize {
        let wanted = if room < 5 {
            Err(WriteFault::Write)
        } else {
            Ok(())
        };
        is_written(&rt, rt.alloc(), room, true, wanted);
    }
    is_written(&rt, rt.alloc(), 9, false, Err(WriteFault::Write));
}
