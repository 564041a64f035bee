//! `ArraySink`, a sink that collects what is written in an array, up to given limits. Used by tests that must allocate
//! nothing.

ghost use Rattle.std.specs.Prelude.{◌≡◌, ◌<◌, length};
ghost use Rattle.ptlines.specs.Private.Sinks.{PutPost};
ghost use Rattle.ptlines.specs.Calls.Sinks.{FlushPost};
ghost use Rattle.ptfakes.specs.FakeSink.{FakeFlushPost, FakePutPost, new_fake_sink, sink_state};

use crate::call_limit::CallLimit;
use arrayvec::ArrayVec;
use ptlines::{Failed, Sink};
use std::marker::Model;

/// A sink that collects the accepted bytes in an array of `N` bytes. Its model has these bytes. It allocates nothing.
#[derive(Drop)]
pub struct ArraySink<const N: usize> {
    bytes: ArrayVec<u8, N>,
    size: usize,
    calls: CallLimit,
    flushes: u64,
    failed: bool,
    unflushed: bool,
}

impl<const N: usize> Model for ArraySink<N> {
    ghost use Rattle.ptfakes.specs.FakeSink.{FakeSink};

    ghost Value = { FakeSink };

    ghost view = { λ s. record {
      accepted = s.bytes.items;
      size = s.size;
      room = N;
      ok_calls = s.calls.ok_calls;
      calls = s.calls.made;
      flushes = s.flushes;
      failed = s.failed;
      unflushed = s.unflushed;
    } };
}

impl<const N: usize> ArraySink<N> {
    /// Accepts at most `size` bytes a call and `N` bytes in all; when none fit it returns `Ok(0)` and has failed. The
    /// first `ok_calls` calls, of `put` and `flush`, succeed, and every later one fails; with `u64::MAX` none fails.
    pub fn new(size: usize, ok_calls: u64) -> Self
        ensures { result ≡ new_fake_sink size N ok_calls }
    {
        ArraySink {
            bytes: ArrayVec::new(),
            size,
            calls: CallLimit::new(ok_calls),
            flushes: 0,
            failed: false,
            unflushed: false,
        }
    }

    /// Returns the accepted bytes.
    pub fn bytes(&self) -> &[u8]
        ensures { result.now ≡ self.now.accepted }
    {
        self.bytes.as_slice()
    }

    /// Returns the number of calls of `put` and `flush`, including the failed ones.
    pub fn calls(&self) -> u64
        ensures { result ≡ self.now.calls }
    {
        self.calls.made
    }

    /// Returns the number of calls of `flush` that succeeded.
    pub fn flushes(&self) -> u64
        ensures { result ≡ self.now.flushes }
    {
        self.flushes
    }
}

impl<const N: usize> Sink for ArraySink<N> {
    ghost use Rattle.std.specs.Prelude.{length, ◌<◌, ◌≤◌, OnErr};
    ghost use Rattle.ptlines.specs.Private.Sinks.{PutPost};
    ghost use Rattle.ptlines.specs.Calls.Sinks.{FlushPost};
    ghost use Rattle.ptfakes.specs.FakeSink.{FakeFlushPost, FakePutPost, sink_state};

    ghost state = { sink_state };

    fn put(&mut self, bytes: &[u8]) -> Result<usize, Failed>
        requires { 0 < length bytes.now }
        ensures put { PutPost (sink_state self.old) (sink_state self.new) bytes.now result }
        ensures kept { FakePutPost self.old self.new bytes.now result }
        ensures fails { OnErr result (self.old.ok_calls ≤ self.old.calls) }
    {
        if !self.calls.next_succeeds() {
            self.failed = true;
            return Err(Failed);
        }
        let room = self.bytes.remaining_capacity();
        let count = bytes.len().min(self.size).min(room);
        let _ = self.bytes.try_extend_from_slice(&bytes[..count]);
        self.failed = self.failed || count == 0;
        self.unflushed = self.unflushed || count > 0;
        Ok(count)
    }

    fn flush(&mut self) -> Result<(), Failed>
        ensures flushed { FlushPost (sink_state self.old) (sink_state self.new) result }
        ensures kept { FakeFlushPost self.old self.new result }
    {
        if !self.calls.next_succeeds() {
            self.failed = true;
            return Err(Failed);
        }
        self.flushes = self.flushes.saturating_add(1);
        self.unflushed = false;
        Ok(())
    }
}
