//! `VecSink`, a sink that collects what is written in a vector, up to given limits. Used by most test crates.

ghost use Rattle.std.specs.Prelude.{◌≡◌, ◌<◌, length};
ghost use Rattle.ptlines.specs.Private.Sinks.{PutPost};
ghost use Rattle.ptlines.specs.Calls.Sinks.{FlushPost};
ghost use Rattle.ptfakes.specs.FakeSink.{FakeFlushPost, FakePutPost, new_fake_sink, sink_state};

use crate::call_limit::CallLimit;
use ptlines::{Failed, Sink};
use std::alloc::{Allocator, Global};
use std::marker::Model;

/// A sink that collects the accepted bytes in a vector. Its model has these bytes.
#[derive(Drop)]
pub struct VecSink<A: Allocator = Global> {
    bytes: Vec<u8, A>,
    size: usize,
    room: usize,
    calls: CallLimit,
    flushes: u64,
    failed: bool,
    unflushed: bool,
}

impl<A: Allocator> Model for VecSink<A> {
    ghost use Rattle.ptfakes.specs.FakeSink.{FakeSink};

    ghost Value = { FakeSink };

    ghost view = { λ s. record {
      accepted = s.bytes.items;
      size = s.size;
      room = s.room;
      ok_calls = s.calls.ok_calls;
      calls = s.calls.made;
      flushes = s.flushes;
      failed = s.failed;
      unflushed = s.unflushed;
    } };
}

impl<A: Allocator> VecSink<A> {
    /// Accepts all bytes, and fails only if memory cannot be allocated.
    pub fn new(alloc: A) -> Self
        ensures { result ≡ new_fake_sink usize.MAX usize.MAX u64.MAX }
    {
        VecSink::limited(alloc, usize::MAX, usize::MAX, u64::MAX)
    }

    /// Accepts at most `size` bytes a call and `room` bytes in all; when none fit it returns `Ok(0)` and has failed.
    /// The first `ok_calls` calls, of `put` and `flush`, succeed, and every later one fails; with `u64::MAX` none
    /// fails.
    pub fn limited(alloc: A, size: usize, room: usize, ok_calls: u64) -> Self
        ensures { result ≡ new_fake_sink size room ok_calls }
    {
        VecSink {
            bytes: Vec::new(alloc),
            size,
            room,
            calls: CallLimit::new(ok_calls),
            flushes: 0,
            failed: false,
            unflushed: false,
        }
    }

    /// Returns the accepted bytes.
    pub fn bytes(&self) -> &[u8]
        ensures { result.now ≡ self.now.accepted }
    {
        self.bytes.as_slice()
    }

    /// Returns the number of calls of `put` and `flush`, including the failed ones.
    pub fn calls(&self) -> u64
        ensures { result ≡ self.now.calls }
    {
        self.calls.made
    }

    /// Returns the number of calls of `flush` that succeeded.
    pub fn flushes(&self) -> u64
        ensures { result ≡ self.now.flushes }
    {
        self.flushes
    }
}

impl<A: Allocator + Drop> Sink for VecSink<A> {
    ghost use Rattle.std.specs.Prelude.{length, ◌<◌};
    ghost use Rattle.ptlines.specs.Private.Sinks.{PutPost};
    ghost use Rattle.ptlines.specs.Calls.Sinks.{FlushPost};
    ghost use Rattle.ptfakes.specs.FakeSink.{sink_state, FakePutPost, FakeFlushPost};

    ghost state = { sink_state };

    fn put(&mut self, bytes: &[u8]) -> Result<usize, Failed>
        requires { 0 < length bytes.now }
        ensures put { PutPost (sink_state self.old) (sink_state self.new) bytes.now result }
        ensures kept { FakePutPost self.old self.new bytes.now result }
    {
        if !self.calls.next_succeeds() {
            self.failed = true;
            return Err(Failed);
        }
        let room = self.room.saturating_sub(self.bytes.len());
        let count = bytes.len().min(self.size).min(room);
        if self.bytes.extend_from_slice(&bytes[..count]).is_err() {
            self.failed = true;
            return Err(Failed);
        }
        self.failed = self.failed || count == 0;
        self.unflushed = self.unflushed || count > 0;
        Ok(count)
    }

    fn flush(&mut self) -> Result<(), Failed>
        ensures flushed { FlushPost (sink_state self.old) (sink_state self.new) result }
        ensures kept { FakeFlushPost self.old self.new result }
    {
        if !self.calls.next_succeeds() {
            self.failed = true;
            return Err(Failed);
        }
        self.flushes = self.flushes.saturating_add(1);
        self.unflushed = false;
        Ok(())
    }
}
