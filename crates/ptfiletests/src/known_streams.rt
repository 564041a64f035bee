//! `KnownStreams`, a host whose streams are bytes in memory, and `NumberedSink`, its outputs.

ghost use Rattle.std.specs.Prelude.{◌≡◌};
ghost use Rattle.ptfiletests.specs.KnownStreams.{new_output, numbered_state};

use ptfakes::VecSink;
use ptfiles::{Bytes, Host};
use ptlines::{Failed, Sink};
use std::alloc::Global;

/// A sink that collects its bytes, and knows the number of its stream.
#[derive(Drop)]
pub struct NumberedSink {
    number: usize,
    sink: VecSink,
}

impl NumberedSink {
    /// No byte was written yet.
    pub fn new(alloc: Global, number: usize) -> Self
        ensures { numbered_state result ≡ new_output number }
    {
        NumberedSink {
            number,
            sink: VecSink::new(alloc),
        }
    }

    /// Returns the number of the stream.
    pub fn number(&self) -> usize {
        self.number
    }

    /// Returns the bytes that were written.
    pub fn bytes(&self) -> &[u8] {
        self.sink.bytes()
    }
}

impl Sink for NumberedSink {
    ghost use Rattle.ptfiletests.specs.KnownStreams.{numbered_state};

    ghost state = { numbered_state };

    fn put(&mut self, bytes: &[u8]) -> Result<usize, Failed> {
        self.sink.put(bytes)
    }

    fn flush(&mut self) -> Result<(), Failed> {
        self.sink.flush()
    }
}

/// A host that has the bytes of each stream. A stream that is not given is empty.
#[derive(Drop)]
pub struct KnownStreams<'a> {
    alloc: Global,
    streams: &'a [&'a [u8]],
}

impl<'a> KnownStreams<'a> {
    pub fn new(alloc: Global, streams: &'a [&'a [u8]]) -> Self
        ensures { result ≡ record { alloc = alloc; streams = streams.entry } }
    {
        KnownStreams { alloc, streams }
    }
}

impl<'a> Host for KnownStreams<'a> {
    ghost use Rattle.std.specs.Prelude.{Some};
    ghost use Rattle.ptfiletests.specs.KnownStreams.{bytes_of, new_output};

    type Input = Bytes<'a>;

    type Output = NumberedSink;

    ghost content = { λ host number. Some (bytes_of host.streams.now number) };

    ghost output = { new_output };

    fn input(&self, number: usize) -> Bytes<'a> {
        match self.streams.get(number) {
            Some(bytes) => Bytes::new(bytes),
            None => Bytes::new(&[]),
        }
    }

    fn output(&self, number: usize) -> NumberedSink {
        NumberedSink::new(self.alloc, number)
    }
}
