//! `Output`, the sink of a run: standard output, the file that the command names, or none. Used by `shell`.

ghost use Rattle.std.specs.Prelude.{◌≡◌, None, []};
ghost use Rattle.ptfiles.specs.Private.Outputs.{AreParts, IsStandard};

use crate::ghost_bytes::GhostBytes;
use ptlines::{Failed, Sink};

/// Where a run writes.
#[derive(Drop)]
pub enum Target<W: Sink, F: Sink> {
    /// To standard output.
    Standard(W),
    /// To the output file that the command names.
    File(F),
    /// Nowhere: a write or a flush fails, and whether one has failed is recorded.
    Nowhere { failed: bool },
}

/// The sink of a run. It is one type, so that the program contains each tool once.
#[derive(Drop)]
pub struct Output<W: Sink, F: Sink> {
    target: Target<W, F>,
    written: GhostBytes,
}

impl<W: Sink, F: Sink> Output<W, F> {
    /// Nothing was written to this target yet.
    pub fn new(target: Target<W, F>) -> Self
        ensures { (result.target ≡ target) × (result.written.items ≡ []) }
    {
        Output {
            target,
            written: GhostBytes::new(),
        }
    }

    /// Returns standard output, which is `unused` if this is another target, and the file.
    pub fn into_parts(self, unused: Option<W>) -> (W, Option<F>)
        requires { unused ≡ None → IsStandard self.target }
        ensures { AreParts self.target unused result.0 result.1 }
    {
        match self.target {
            Target::Standard(out) => (out, None),
            Target::File(file) => (unused.unwrap(), Some(file)),
            Target::Nowhere { .. } => (unused.unwrap(), None),
        }
    }
}

impl<W: Sink, F: Sink> Sink for Output<W, F> {
    ghost use Rattle.ptfiles.specs.Private.Outputs.{output_state};

    ghost state = { output_state W.state F.state };

    fn put(&mut self, bytes: &[u8]) -> Result<usize, Failed> {
        let count = match &mut self.target {
            Target::Standard(out) => out.put(bytes)?,
            Target::File(file) => file.put(bytes)?,
            Target::Nowhere { failed } => {
                *failed = true;
                return Err(Failed);
            }
        };
        self.written = self.written.with(&bytes[..count]);
        Ok(count)
    }

    fn flush(&mut self) -> Result<(), Failed> {
        match &mut self.target {
            Target::Standard(out) => out.flush(),
            Target::File(file) => file.flush(),
            Target::Nowhere { failed } => {
                *failed = true;
                Err(Failed)
            }
        }
    }
}
