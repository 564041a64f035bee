//! Files in memory, which a run opens instead of those of the system. Used by `running`.

ghost use Rattle.std.specs.Prelude.{◌≡◌, All, Some, drop, length, option_map};
ghost use Rattle.ptfiles.specs.Calls.Bytes.{bytes_state};
ghost use Rattle.ptfiles.specs.Files.{IsContent};
ghost use Rattle.ptrunc.specs.Inputs.{files_view};
ghost use Rattle.ptrunc.specs.Private.Files.{IsNewFile, unopened_files};
ghost use Rattle.ptrun.specs.Files.{at};

use crate::memory::Kept;
use ptfiles::{Bytes, Calls, Files};
use std::alloc::Allocator;

/// Files in memory, in the order in which they are opened: each call of `open` opens the next one, regardless of its
/// name. `None` is a file that cannot be opened, and so is one that is not given. A created file keeps its bytes.
#[derive(Drop)]
pub struct MemoryFiles<'a, 'b, A: Allocator> {
    files: &'b [Option<&'a [u8]>],
    left: &'b [Option<&'a [u8]>],
    opens: Calls<Option<Bytes<'a>>>,
    creates: Calls<Option<Kept<A>>>,
    alloc: A,
    ghost left_is: { left.now ≡ drop (length opens.names) files.now },
    ghost all_new: { All IsNewFile creates.results },
}

impl<'a, 'b, A: Allocator + Copy + Drop> MemoryFiles<'a, 'b, A> {
    /// No file was opened or created yet.
    pub fn new(alloc: A, files: &'b [Option<&'a [u8]>]) -> Self
        ensures { ⟦<MemoryFiles<'a, 'b, A> as Files>⟧.state result ≡ unopened_files (files_view files.entry.now) }
    {
        MemoryFiles {
            files,
            left: files,
            opens: Calls::new(),
            creates: Calls::new(),
            alloc,
        }
    }
}

impl<'a, A: Allocator + Copy + Drop> Files for MemoryFiles<'a, '_, A> {
    ghost use Rattle.ptrunc.specs.Private.MemoryFiles.{memory_state};

    type Input = Bytes<'a>;

    type Output = Kept<A>;

    ghost state = { λ s. memory_state s };

    fn open(&mut self, name: &str) -> Option<Bytes<'a>> {
        let file = first_source(self.left);
        self.left = &self.left[self.left.len().min(1)..];
        self.opens = self.opens.with(name, &file);
        file
    }

    fn create(&mut self, name: &str) -> Option<Kept<A>> {
        let file = Some(Kept::new(self.alloc));
        self.creates = self.creates.with(name, &file);
        file
    }
}

// Returns the source of the first of these files, unless it cannot be opened or is not given.
fn first_source<'a>(files: &[Option<&'a [u8]>]) -> Option<Bytes<'a>>
    ensures { IsContent (Some (at (files_view files.now) 0)) (option_map bytes_state result) }
{
    match files.first() {
        Some(Some(bytes)) => Some(Bytes::new(bytes)),
        _ => None,
    }
}
