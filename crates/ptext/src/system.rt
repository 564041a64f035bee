//! `SystemFiles`, the files of the system, over which `perform` runs commands, and `open_file`, by which each file is
//! opened.

ghost use Rattle.std.specs.Prelude.{◌≡◌, true};
ghost use Rattle.std.specs.Fs.{new_options, with_create, with_read, with_truncate, with_write};
ghost use Rattle.ptext.specs.Perform.{no_calls};

use ptfiles::{Calls, Files};
use ptlines::{FromRead, FromWrite};
use std::fs;
use std::fs::OpenOptions;

/// The files of the system. Which names were opened and created is recorded for contracts alone.
#[derive(Drop)]
pub struct SystemFiles<'a, R: fs::Files> {
    rt: &'a R,
    opens: Calls<Option<FromRead<R::File>>>,
    creates: Calls<Option<FromWrite<R::File>>>,
}

impl<'a, R: fs::Files> SystemFiles<'a, R> {
    /// No file was opened or created yet.
    pub fn new(rt: &'a R) -> Self
        ensures { ⟦<SystemFiles<'a, R> as Files>⟧.state result ≡ no_calls }
    {
        SystemFiles {
            rt,
            opens: Calls::new(),
            creates: Calls::new(),
        }
    }
}

/// Opens a file, or returns `None` if it cannot be opened. The standard library is asked to open one only here, and
/// this is not inlined: so the texts of its errors, and what makes these, are no part of the program.
#[inline(never)]
pub fn open_file<R: fs::Files>(rt: &R, options: &OpenOptions, name: &str) -> Option<R::File> {
    options.open(rt, name).ok()
}

/// The options of a file that is read.
pub fn reading() -> OpenOptions
    ensures { result ≡ with_read new_options true }
{
    let mut options = OpenOptions::new();
    options.read(true);
    options
}

// The options of an output file: it is created, or truncated if it exists.
fn writing() -> OpenOptions
    ensures { result ≡ with_truncate (with_create (with_write new_options true) true) true }
{
    let mut options = OpenOptions::new();
    options.write(true).create(true).truncate(true);
    options
}

impl<R: fs::Files> Files for SystemFiles<'_, R> {
    ghost use Rattle.std.specs.Prelude.{None, map, option_map};
    ghost use Rattle.ptlines.specs.Private.Sinks.{hide_accepted};
    ghost use Rattle.ptlines.specs.Private.Sources.{hide_left};

    type Input = FromRead<R::File>;

    type Output = FromWrite<R::File>;

    ghost state = { λ s. record {
      opened = s.opens.names;
      inputs = map (option_map hide_left) s.opens.results;
      created = s.creates.names;
      outputs = map (option_map hide_accepted) s.creates.results;
      content = λ count name. None;
    } };

    fn open(&mut self, name: &str) -> Option<FromRead<R::File>> {
        let file = open_file(self.rt, &reading(), name).map(FromRead::new);
        self.opens = self.opens.with(name, &file);
        file
    }

    fn create(&mut self, name: &str) -> Option<FromWrite<R::File>> {
        let file = open_file(self.rt, &writing(), name).map(FromWrite::new);
        self.creates = self.creates.with(name, &file);
        file
    }
}
