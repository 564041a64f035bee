//! `CountedSource`, a source whose reads are counted outside of it. Used by tests that must know when input is read.

ghost use Rattle.std.specs.Prelude.{◌≡◌};

use ptlines::{Failed, Source};
use std::cell::Cell;
use std::marker::Model;

/// A source whose reads are counted in a cell, so that a test sees the count while a reader owns the source.
#[derive(Drop)]
pub struct CountedSource<'a, S: Source> {
    source: S,
    pulls: &'a Cell<u64>,
}

impl<'a, S: Source> Model for CountedSource<'a, S> {
    ghost use Rattle.ptlines.specs.Sources.{SourceState};

    ghost Value = { SourceState };

    ghost view = { λ w. S.state w.source };
}

impl<'a, S: Source> CountedSource<'a, S> {
    /// Wraps a source. Each read adds one to `pulls`.
    pub fn new(source: S, pulls: &'a Cell<u64>) -> Self
        ensures { result ≡ S.state source }
    {
        CountedSource { source, pulls }
    }
}

impl<'a, S: Source> Source for CountedSource<'a, S> {
    ghost state = { λ s. s };

    fn pull(&mut self, into: &mut [u8]) -> Result<usize, Failed> {
        self.pulls.set(self.pulls.get().saturating_add(1));
        self.source.pull(into)
    }
}
