//! Reads the job of `comm` from parsed options. `command` calls `comm_job`.

ghost use Rattle.std.specs.Prelude.{◌≡◌};
ghost use Rattle.ptlangs.specs.Jobs as jobs;
ghost use Rattle.ptopts.specs.Private.Jobs as made;
ghost use Rattle.ptopts.specs.Private.ParseSteps.{options_of};

use crate::parsing::ParsedArgs;
use ptlangs::jobs::CommJob;
use std::alloc::Allocator;

impl<'a, A: Allocator + Copy> ParsedArgs<'a, A> {
    /// The job of `comm`.
    pub(crate) fn comm_job(&self) -> CommJob
        ensures { jobs.comm_job result ≡ made.comm_from_options (options_of self.now) }
    {
        CommJob {
            hide: [self.has(b'1'), self.has(b'2'), self.has(b'3')],
            zero: self.has(b'z'),
            descending: self.has(b'r'),
        }
    }
}
