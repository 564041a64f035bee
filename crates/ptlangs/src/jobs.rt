//! The options of the five line tools as plain values, with their defaults. `ptopts` makes a job from a command line;
//! `ptflow` and `ptmerge` run it.
ghost use Rattle.std.specs.Prelude.{◌≡◌, IfOk};
ghost use Rattle.ptlangs.specs.Jobs.{paste_job, join_job};
ghost use Rattle.ptlangs.specs.Calls.Jobs.{default_paste, default_join};

use crate::delims::Delims;
use crate::outlist::OutList;
use crate::ranges::Ranges;
use std::alloc::{AllocError, Allocator, Global};

/// The options of `cut`.
#[derive(Drop)]
pub struct CutJob<A: Allocator = Global> {
    /// Select fields (`-f`) instead of bytes or characters.
    pub fields: bool,
    /// The numbers of the selected bytes or fields, counted from 1.
    pub list: Ranges<A>,
    /// The delimiter between fields (`-d`). The default is a tab.
    pub delim: u8,
    /// Drop lines without the delimiter (`-s`) instead of passing them through.
    pub only: bool,
    /// Lines end with NUL (`-z`) instead of newline. POSIX does not have this option.
    pub zero: bool,
}

/// The options of `paste`.
#[derive(Drop)]
pub struct PasteJob<A: Allocator = Global> {
    /// Join the lines of one file at a time (`-s`), instead of one line of each file.
    pub serial: bool,
    /// The delimiters between columns (`-d`). The default is a tab.
    pub delims: Delims<A>,
    /// Lines end with NUL (`-z`) instead of newline. POSIX does not have this option.
    pub zero: bool,
}

impl<A: Allocator> PasteJob<A> {
    /// The job of `paste` without options: one line of each file, joined by tabs.
    ///
    /// # Errors
    ///
    /// An allocation failed.
    pub fn new(alloc: A) -> Result<PasteJob<A>, AllocError>
        ensures { IfOk result (λ job. paste_job job ≡ default_paste) }
    {
        Ok(PasteJob {
            serial: false,
            delims: Delims::tab(alloc)?,
            zero: false,
        })
    }
}

/// The lines that `uniq` writes.
#[derive(Clone, Copy, Debug, PartialEq, Eq)]
pub enum Show {
    /// One line for each run of equal lines.
    All,
    /// One line for each run, after the length of the run (`-c`).
    Counts,
    /// One line for each run of two lines or more (`-d`).
    Repeated,
    /// The lines that are not repeated (`-u`).
    Single,
}

/// The options of `uniq`.
#[derive(Clone, Copy, Debug, PartialEq, Eq)]
pub struct UniqJob {
    /// The lines that are written.
    pub show: Show,
    /// The number of fields at the start of a line that are ignored in comparisons (`-f`). The default is 0.
    pub fields: u64,
    /// The number of bytes after these fields that are ignored too (`-s`). The default is 0.
    pub chars: u64,
    /// Lines end with NUL (`-z`) instead of newline. POSIX does not have this option.
    pub zero: bool,
}

impl Default for UniqJob {
    ghost use Rattle.std.specs.Prelude.{◌≡◌};
    ghost use Rattle.ptlangs.specs.Jobs.{uniq_job};
    ghost use Rattle.ptlangs.specs.Private.Jobs.{default_uniq};

    ghost is_default = { λ job. uniq_job job ≡ default_uniq };

    fn default() -> UniqJob {
        UniqJob {
            show: Show::All,
            fields: 0,
            chars: 0,
            zero: false,
        }
    }
}

/// The options of `comm`.
#[derive(Clone, Copy, Debug, PartialEq, Eq)]
pub struct CommJob {
    /// For each of the three columns, whether it is suppressed (`-1`, `-2`, `-3`). By default none is.
    pub hide: [bool; 3],
    /// Lines end with NUL (`-z`) instead of newline. POSIX does not have this option.
    pub zero: bool,
    /// The lines are in descending order (`-r`) instead of ascending order. POSIX does not have this option.
    pub descending: bool,
}

impl Default for CommJob {
    ghost use Rattle.std.specs.Prelude.{◌≡◌};
    ghost use Rattle.ptlangs.specs.Jobs.{comm_job};
    ghost use Rattle.ptlangs.specs.Private.Jobs.{default_comm};

    ghost is_default = { λ job. comm_job job ≡ default_comm };

    fn default() -> CommJob {
        CommJob {
            hide: [false; 3],
            zero: false,
            descending: false,
        }
    }
}

/// The options of `join`.
#[derive(Drop)]
pub struct JoinJob<A: Allocator = Global> {
    /// Write the pairs of lines with equal join fields. This is the default; `-v` turns it off.
    pub pairs: bool,
    /// For each of the two files, whether its unpairable lines are written (`-a`, `-v`). By default they are not.
    pub unpaired: [bool; 2],
    /// The text for an empty field that the output list names (`-e`). The default is the empty string.
    pub empty: Vec<u8, A>,
    /// The fields that are written (`-o`); `None` for the join field and then the other fields of each line.
    pub list: Option<OutList<A>>,
    /// The field separator (`-t`); `None` for runs of blanks in the input and one space in the output.
    pub sep: Option<u8>,
    /// The number of the join field in each of the two files (`-1`, `-2`). The default is 1.
    pub field: [u64; 2],
    /// Lines end with NUL (`-z`) instead of newline. POSIX does not have this option.
    pub zero: bool,
    /// The join fields are in descending order (`-r`) instead of ascending order. POSIX does not have this option.
    pub descending: bool,
}

impl<A: Allocator> JoinJob<A> {
    /// The job of `join` without options: the pairs of lines with equal first fields.
    pub fn new(alloc: A) -> JoinJob<A>
        ensures { join_job result ≡ default_join }
    {
        JoinJob {
            pairs: true,
            unpaired: [false; 2],
            empty: Vec::new(alloc),
            list: None,
            sep: None,
            field: [1; 2],
            zero: false,
            descending: false,
        }
    }
}
