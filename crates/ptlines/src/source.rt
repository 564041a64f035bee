//! The trait `Source` for everything that bytes are read from, and the three kinds of input that a reader may have.

ghost use Rattle.std.specs.Prelude.{length, ◌<◌};
ghost use Rattle.ptlines.specs.Sources.{SourceState};
ghost use Rattle.ptlines.specs.Private.Sources.{PullPost};

use crate::sink::Failed;

/// A source of bytes, such as a file or a pipe.
pub trait Source: Drop {
    /// The model of a source in contracts: the bytes that it has left (unknown for a real file), whether the end of
    /// input was reached, and whether a read has failed.
    ghost state: { Self → SourceState };

    /// Reads the next bytes into the beginning of `into`, which must not be empty, and returns how many they are: at
    /// least one, or 0 at the end of input.
    /// # Errors
    /// `Failed` if the read failed. No byte of the source is lost, but `into` may have been written to.
    fn pull(&mut self, into: &mut [u8]) -> Result<usize, Failed>
        requires { 0 < length into.old }
        ensures pulled { PullPost (state self.old) (state self.new) into.new result };
}

/// The input of a reader: standard input, a file, or a file that could not be opened, of which every read fails.
#[derive(Drop)]
pub enum InputSource<S: Source, R: Source> {
    Standard(S),
    File(R),
    Unopened,
}
