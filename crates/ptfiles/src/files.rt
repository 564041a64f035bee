//! The trait `Files` for everything that has files under names.

ghost use Rattle.ptfiles.specs.Files.{FilesState, created_state};
ghost use Rattle.ptfiles.specs.Private.Files.{OpenPost, CreatePost, opened_state};

use ptlines::{Sink, Source};

/// Files under names, such as those of the system.
pub trait Files {
    /// An opened file to read from.
    type Input: Source;

    /// A created file to write to.
    type Output: Sink;

    /// The model in contracts: which names were opened and created so far, what these calls returned, and what is known
    /// of the files.
    ghost state: { Self → FilesState };

    /// Opens the file with this name, to read from its beginning. Returns `None` if it cannot be opened.
    fn open(&mut self, name: &str) -> Option<Self::Input>
        ensures { OpenPost (state self.old) (state self.new) name.now (opened_state Self.Input.state result) };

    /// Creates the file with this name, or empties it if it exists. Returns `None` if it cannot be written.
    fn create(&mut self, name: &str) -> Option<Self::Output>
        ensures { CreatePost (state self.old) (state self.new) name.now (created_state Self.Output.state result) };
}
