//! `NamedFiles`, files in memory by their names.

ghost use Rattle.std.specs.Prelude.{◌≡◌, Some, option_map};
ghost use Rattle.ptfiles.specs.Calls.Bytes.{bytes_state};
ghost use Rattle.ptfiles.specs.Files.{IsContent};
ghost use Rattle.ptfiletests.specs.NamedFiles.{content_of, unopened_files};

use ptfakes::VecSink;
use ptfiles::{Bytes, Calls, Files};
use std::alloc::Global;

/// Files in memory, by their names. Any other name cannot be opened, and only `out` can be created.
#[derive(Drop)]
pub struct NamedFiles<'a> {
    files: &'a [(&'a str, &'a [u8])],
    alloc: Global,
    opens: Calls<Option<Bytes<'a>>>,
    creates: Calls<Option<VecSink>>,
}

impl<'a> NamedFiles<'a> {
    pub fn new(alloc: Global, files: &'a [(&'a str, &'a [u8])]) -> Self
        ensures { ⟦<NamedFiles<'a> as Files>⟧.state result ≡ unopened_files files.entry.now }
    {
        NamedFiles {
            files,
            alloc,
            opens: Calls::new(),
            creates: Calls::new(),
        }
    }
}

impl<'a> Files for NamedFiles<'a> {
    ghost use Rattle.std.specs.Prelude.{Some, map, option_map};
    ghost use Rattle.ptfakes.specs.FakeSink.{sink_state};
    ghost use Rattle.ptfiles.specs.Calls.Bytes.{bytes_state};
    ghost use Rattle.ptfiletests.specs.NamedFiles.{content_of};

    type Input = Bytes<'a>;

    type Output = VecSink;

    ghost state = { λ s. record {
      opened = s.opens.names;
      inputs = map (option_map bytes_state) s.opens.results;
      created = s.creates.names;
      outputs = map (option_map sink_state) s.creates.results;
      content = λ count name. Some (content_of s.files.now name);
    } };

    fn open(&mut self, name: &str) -> Option<Bytes<'a>> {
        let file = find(self.files, name);
        self.opens = self.opens.with(name, &file);
        file
    }

    fn create(&mut self, name: &str) -> Option<VecSink> {
        let file = if name == "out" {
            Some(VecSink::new(self.alloc))
        } else {
            None
        };
        self.creates = self.creates.with(name, &file);
        file
    }
}

// Opens the file with this name.
fn find<'a>(files: &[(&'a str, &'a [u8])], name: &str) -> Option<Bytes<'a>>
    ensures { IsContent (Some (content_of files.now name.now)) (option_map bytes_state result) }
{
    for file in files {
        if file.0 == name {
            return Some(Bytes::new(file.1));
        }
    }
    None
}
