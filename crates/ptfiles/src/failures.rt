//! A law: a reader fails only if a source of its type can fail. Its function does nothing; `shell` calls it.

ghost use Rattle.std.specs.Prelude.{All};
ghost use Rattle.ptfiles.specs.Private.Failures.{FailedAsSource};

use ptlines::{LineReader, Source};

/// States that an opened reader has failed only if a source of its type can fail. Does nothing at run time.
pub fn failures_are_of_sources<S: Source, R: Source>(readers: &[LineReader<S, R>])
    ensures { All (FailedAsSource S.state R.state) readers.now }
{}
