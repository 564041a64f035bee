//! `ChunkedSource`, a source that gives a text in chunks, and may fail. Used by most test crates.

ghost use Rattle.std.specs.Prelude.{◌≡◌, ◌<◌, length};
ghost use Rattle.ptlines.specs.Private.Sources.{PullPost};
ghost use Rattle.ptfakes.specs.FakeSource.{FakePullPost, new_fake_source, source_state};

use crate::call_limit::CallLimit;
use ptlines::{Failed, Source};
use std::marker::Model;

/// A source that gives a text in chunks. Its model has the bytes left. It overwrites the beginning of every buffer that
/// it is given, also if it returns fewer bytes or fails.
#[derive(Drop)]
pub struct ChunkedSource<'a> {
    left: &'a [u8],
    size: usize,
    calls: CallLimit,
    eof: bool,
    failed: bool,
}

impl<'a> Model for ChunkedSource<'a> {
    ghost use Rattle.std.specs.Prelude.{◌<◌};
    ghost use Rattle.ptfakes.specs.FakeSource.{FakeSource};

    ghost Value = { FakeSource };

    ghost view = { λ s. record {
      left = s.left.now;
      size = s.size;
      ok_calls = s.calls.ok_calls;
      pulls = s.calls.made;
      eof = s.eof;
      failed = s.failed;
    } };

    ghost invariant = { λ s. 0 < s.size };
}

impl<'a> ChunkedSource<'a> {
    /// Gives a text in chunks of at most `size` bytes (of one byte if `size` is 0). The first `ok_calls` reads succeed,
    /// and every later one fails; with `u64::MAX` none fails.
    pub fn new(text: &'a [u8], size: usize, ok_calls: u64) -> Self
        ensures { result ≡ new_fake_source text.now size ok_calls }
    {
        ChunkedSource {
            left: text,
            size: size.max(1),
            calls: CallLimit::new(ok_calls),
            eof: false,
            failed: false,
        }
    }

    /// Gives a text in chunks as large as the buffers. No read fails.
    pub fn whole(text: &'a [u8]) -> Self
        ensures { result ≡ new_fake_source text.now usize.MAX u64.MAX }
    {
        ChunkedSource::new(text, usize::MAX, u64::MAX)
    }

    /// Returns the number of reads, including the failed ones.
    pub fn pulls(&self) -> u64
        ensures { result ≡ self.now.pulls }
    {
        self.calls.made
    }
}

impl Source for ChunkedSource<'_> {
    ghost use Rattle.std.specs.Prelude.{length, ◌<◌};
    ghost use Rattle.ptlines.specs.Private.Sources.{PullPost};
    ghost use Rattle.ptfakes.specs.FakeSource.{FakePullPost, source_state};

    ghost state = { source_state };

    fn pull(&mut self, into: &mut [u8]) -> Result<usize, Failed>
        requires { 0 < length into.old }
        ensures pulled { PullPost (source_state self.old) (source_state self.new) into.new result }
        ensures fed { FakePullPost self.old self.new into.new result }
    {
        let front = into.len().min(16);
        into[..front].fill(b'?');
        if !self.calls.next_succeeds() {
            self.failed = true;
            return Err(Failed);
        }
        let count = self.left.len().min(self.size).min(into.len());
        into[..count].copy_from_slice(&self.left[..count]);
        self.left = &self.left[count..];
        self.eof = self.eof || count == 0;
        Ok(count)
    }
}
