//! `RepeatedByte`, a source of one byte repeated many times. Used by tests with very long lines.

ghost use Rattle.std.specs.Prelude.{◌≡◌, ◌<◌, length, replicate};
ghost use Rattle.ptlines.specs.Private.Sources.{PullPost};
ghost use Rattle.ptfakes.specs.FakeSource.{FakePullPost, new_fake_source, source_state};

use crate::call_limit::CallLimit;
use ptlines::{Failed, Source};
use std::marker::Model;

/// A source of one byte, repeated. Its model has the bytes left. It allocates nothing.
#[derive(Drop)]
pub struct RepeatedByte {
    byte: u8,
    left: usize,
    size: usize,
    calls: CallLimit,
    eof: bool,
    failed: bool,
}

impl Model for RepeatedByte {
    ghost use Rattle.std.specs.Prelude.{◌<◌, replicate};
    ghost use Rattle.ptfakes.specs.FakeSource.{FakeSource};

    ghost Value = { FakeSource };

    ghost view = { λ s. record {
      left = replicate s.left s.byte;
      size = s.size;
      ok_calls = s.calls.ok_calls;
      pulls = s.calls.made;
      eof = s.eof;
      failed = s.failed;
    } };

    ghost invariant = { λ s. 0 < s.size };
}

impl RepeatedByte {
    /// Gives `byte` repeated `count` times, in chunks of at most `size` bytes (of one byte if `size` is 0). The first
    /// `ok_calls` reads succeed, and every later one fails; with `u64::MAX` none fails.
    pub fn new(byte: u8, count: usize, size: usize, ok_calls: u64) -> Self
        ensures { result ≡ new_fake_source (replicate count byte) size ok_calls }
    {
        RepeatedByte {
            byte,
            left: count,
            size: size.max(1),
            calls: CallLimit::new(ok_calls),
            eof: false,
            failed: false,
        }
    }

    /// Returns the number of reads, including the failed ones.
    pub fn pulls(&self) -> u64
        ensures { result ≡ self.now.pulls }
    {
        self.calls.made
    }
}

impl Source for RepeatedByte {
    ghost use Rattle.std.specs.Prelude.{length, ◌<◌};
    ghost use Rattle.ptlines.specs.Private.Sources.{PullPost};
    ghost use Rattle.ptfakes.specs.FakeSource.{FakePullPost, source_state};

    ghost state = { source_state };

    fn pull(&mut self, into: &mut [u8]) -> Result<usize, Failed>
        requires { 0 < length into.old }
        ensures pulled { PullPost (source_state self.old) (source_state self.new) into.new result }
        ensures fed { FakePullPost self.old self.new into.new result }
    {
        into.fill(self.byte);
        if !self.calls.next_succeeds() {
            self.failed = true;
            return Err(Failed);
        }
        let count = self.left.min(self.size).min(into.len());
        self.left -= count;
        self.eof |= count == 0;
        Ok(count)
    }
}
