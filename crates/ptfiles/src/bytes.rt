//! `Bytes`, a source of bytes in memory.

ghost use Rattle.std.specs.Prelude.{◌≡◌, ◌<◌, ◌^◌, length};
ghost use Rattle.ptfiles.specs.Calls.Bytes.{bytes_state};
ghost use Rattle.ptfiles.specs.Files.{source_of};

use ptlines::{Failed, Source};

/// A source that gives bytes from memory. No read fails.
#[derive(Drop)]
pub struct Bytes<'a> {
    left: &'a [u8],
    eof: bool,
}

impl<'a> Bytes<'a> {
    /// Gives all of these bytes.
    pub fn new(bytes: &'a [u8]) -> Self
        ensures all { bytes_state result ≡ source_of bytes.entry.now }
        ensures short { length bytes.entry.now < 2 ^ 63 }
    {
        Bytes {
            left: bytes,
            eof: false,
        }
    }
}

impl Source for Bytes<'_> {
    ghost use Rattle.ptfiles.specs.Calls.Bytes.{bytes_state};

    ghost state = { λ s. bytes_state s };

    fn pull(&mut self, into: &mut [u8]) -> Result<usize, Failed> {
        let count = self.left.len().min(into.len());
        into[..count].copy_from_slice(&self.left[..count]);
        self.left = &self.left[count..];
        self.eof = self.eof || count == 0;
        Ok(count)
    }
}
