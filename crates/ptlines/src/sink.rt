//! The trait `Sink` for everything that bytes are written to, and `Failed`, the error of a read, a write or a flush.

ghost use Rattle.std.specs.Prelude.{◌≡◌, false, length, ◌<◌};
ghost use Rattle.ptlines.specs.Sinks.{SinkState};
ghost use Rattle.ptlines.specs.Private.Sinks.{PutPost};
ghost use Rattle.ptlines.specs.Calls.Sinks.{FlushPost};

/// A read, a write or a flush failed.
#[derive(Clone, Copy, Debug, PartialEq, Eq)]
pub struct Failed;

/// A sink for bytes, such as a file or a pipe. It must not be called again after a call has failed.
pub trait Sink: Drop {
    /// The model of a sink in contracts: the bytes that it has accepted (unknown for a real file), whether a call has
    /// failed, whether some accepted bytes were not flushed yet, and how many flushes succeeded.
    ghost state: { Self → SinkState };

    /// Writes the first of these bytes, of which there must be at least one, and returns how many were accepted. 0
    /// counts as a failure.
    /// # Errors
    /// `Failed` if the write failed. No byte was accepted then.
    fn put(&mut self, bytes: &[u8]) -> Result<usize, Failed>
        requires some { 0 < length bytes.now }
        requires unfailed { (state self.old).failed ≡ false }
        ensures { PutPost (state self.old) (state self.new) bytes.now result };

    /// Flushes all accepted bytes.
    /// # Errors
    /// `Failed` if the flush failed. The same bytes may be unflushed as before.
    fn flush(&mut self) -> Result<(), Failed>
        requires { (state self.old).failed ≡ false }
        ensures { FlushPost (state self.old) (state self.new) result };
}
