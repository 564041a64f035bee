//! `Caller`, the host whose streams are those of the caller of `ptext_run_streams`.
//!
//! The reads and writes that the crate `io` asks the C library for are bound to two functions of bindings/c/stream.c
//! when the library is built. These find the run of their thread, and the number of a descriptor is that of a stream. The number
//! with all bits changed is a question about it: a write there succeeds if no read of the stream has failed, or if it is
//! flushed.

ghost use Rattle.std.specs.Prelude.{None};
ghost use Rattle.ptrunc.specs.Calls.Streams.{unwritten};

use io::{read_full, write_all};
use ptfiles::Host;
use ptlines::{FromRead, FromWrite};
use std::io::{ErrorKind, Read, Result, Write};

/// The caller, of whose streams nothing is known.
pub struct Caller;

impl Host for Caller {
    type Input = FromRead<CallerStream>;

    type Output = FromWrite<CallerStream>;

    ghost content = { λ host number. None };

    ghost output = { λ number. unwritten };

    fn input(&self, number: usize) -> FromRead<CallerStream> {
        FromRead::new(CallerStream::new(number))
    }

    fn output(&self, number: usize) -> FromWrite<CallerStream> {
        FromWrite::new(CallerStream::new(number))
    }
}

/// A stream of the caller.
#[derive(Drop)]
pub struct CallerStream {
    number: i32,
}

impl CallerStream {
    /// The stream with this number. (bindings/c/stream.c refuses a call with more files than there are numbers.)
    pub fn new(number: usize) -> Self {
        CallerStream {
            number: i32::try_from(number).unwrap_or(i32::MAX),
        }
    }

    // Asks about the stream. Returns whether it is as it should be.
    fn is_sound(&self) -> bool {
        write_all(!self.number, b"?")
    }
}

// The end of a stream and a failed read are both no bytes.
impl Read for CallerStream {
    fn read(&mut self, buf: &mut [u8]) -> Result<usize> {
        match read_full(self.number, buf) {
            0 if !self.is_sound() => Err(ErrorKind::Other.into()),
            count => Ok(count),
        }
    }
}

impl Write for CallerStream {
    fn write(&mut self, buf: &[u8]) -> Result<usize> {
        match write_all(self.number, buf) {
            true => Ok(buf.len()),
            false => Err(ErrorKind::Other.into()),
        }
    }

    fn flush(&mut self) -> Result<()> {
        match self.is_sound() {
            true => Ok(()),
            false => Err(ErrorKind::Other.into()),
        }
    }
}
