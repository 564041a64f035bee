//! Adapters by which a reader of the standard library is a source, and a writer is a sink. The program uses them for
//! the standard streams and for files.

ghost use Rattle.std.specs.Prelude.{◌≡◌, false};

use crate::sink::{Failed, Sink};
use crate::source::Source;
use std::io::{Read, Write};
use std::marker::Model;

/// A reader of the standard library as a source. It records whether the end of input was reached or a read has failed.
/// The contract of the trait says nothing of the bytes that are read; the clause `bytes` of `pull` passes on what the
/// contract of the standard library says of them.
#[derive(Drop)]
pub struct FromRead<R: Read> {
    reader: R,
    eof: bool,
    failed: bool,
}

impl<R: Read> Model for FromRead<R> {
    ghost use Rattle.ptlines.specs.Sources.{SourceState};

    ghost Value = { SourceState };

    ghost view = { λ s. record { left = R.remaining s.reader; eof = s.eof; failed = s.failed } };
}

impl<R: Read> FromRead<R> {
    /// Creates a source that has neither reached its end nor failed.
    pub fn new(reader: R) -> Self
        ensures { result ≡ record { left = R.remaining reader; eof = false; failed = false } }
    {
        FromRead {
            reader,
            eof: false,
            failed: false,
        }
    }
}

impl<R: Read + Drop> Source for FromRead<R> {
    ghost use Rattle.std.specs.Prelude.{◌<◌, length};
    ghost use Rattle.std.specs.Io.KnownBytes.{ReadConsumes};
    ghost use Rattle.ptlines.specs.Private.Sources.{PullPost, hide_left};

    ghost state = { hide_left };

    fn pull(&mut self, into: &mut [u8]) -> Result<usize, Failed>
        requires { 0 < length into.old }
        ensures pulled { PullPost (hide_left self.old) (hide_left self.new) into.new result }
        ensures bytes { ReadConsumes self.old.left self.new.left result into.new }
    {
        match self.reader.read(into) {
            Ok(count) => {
                if count == 0 {
                    self.eof = true;
                }
                Ok(count)
            }
            Err(_) => {
                self.failed = true;
                Err(Failed)
            }
        }
    }
}

/// A writer of the standard library as a sink. It records whether a call has failed, whether bytes were written and not
/// flushed yet, and how many flushes succeeded. The contract of the trait says nothing of the bytes that are written;
/// the clauses `bytes` of `put` and `flush` pass on what the contract of the standard library says of them.
#[derive(Drop)]
pub struct FromWrite<W: Write> {
    writer: W,
    failed: bool,
    unflushed: bool,
    flushes: u64,
}

impl<W: Write> Model for FromWrite<W> {
    ghost use Rattle.ptlines.specs.Sinks.{SinkState};

    ghost Value = { SinkState };

    ghost view = { λ s. record {
      accepted = W.contents s.writer;
      failed = s.failed;
      unflushed = s.unflushed;
      flushes = s.flushes;
    } };
}

impl<W: Write> FromWrite<W> {
    /// Creates a sink that has not failed and was not flushed, and has no unflushed bytes.
    pub fn new(writer: W) -> Self
        ensures { result ≡ record { accepted = W.contents writer; failed = false; unflushed = false; flushes = 0 } }
    {
        FromWrite {
            writer,
            failed: false,
            unflushed: false,
            flushes: 0,
        }
    }
}

impl<W: Write + Drop> Sink for FromWrite<W> {
    ghost use Rattle.std.specs.Prelude.{◌≡◌, ◌<◌, false, length};
    ghost use Rattle.std.specs.Io.KnownBytes.{Keeps, WriteAppends};
    ghost use Rattle.ptlines.specs.Private.Sinks.{PutPost, hide_accepted};
    ghost use Rattle.ptlines.specs.Calls.Sinks.{FlushPost};

    ghost state = { hide_accepted };

    fn put(&mut self, bytes: &[u8]) -> Result<usize, Failed>
        requires some { 0 < length bytes.now }
        requires unfailed { self.old.failed ≡ false }
        ensures put { PutPost (hide_accepted self.old) (hide_accepted self.new) bytes.now result }
        ensures bytes { WriteAppends self.old.accepted self.new.accepted result bytes.now }
    {
        match self.writer.write(bytes) {
            Ok(count) => {
                if count == 0 {
                    self.failed = true;
                } else {
                    self.unflushed = true;
                }
                Ok(count)
            }
            Err(_) => {
                self.failed = true;
                Err(Failed)
            }
        }
    }

    fn flush(&mut self) -> Result<(), Failed>
        requires { self.old.failed ≡ false }
        ensures flushed { FlushPost (hide_accepted self.old) (hide_accepted self.new) result }
        ensures bytes { Keeps self.old.accepted self.new.accepted }
    {
        match self.writer.flush() {
            Ok(()) => {
                self.unflushed = false;
                self.flushes = self.flushes.saturating_add(1);
                Ok(())
            }
            Err(_) => {
                self.failed = true;
                Err(Failed)
            }
        }
    }
}
