//! Reads the job of `uniq` from parsed options. `command` calls `uniq_job`.

ghost use Rattle.std.specs.Prelude.{◌≡◌, IfOk};
ghost use Rattle.ptlangs.specs.Jobs as jobs;
ghost use Rattle.ptopts.specs.declared.tool.Tool.TheVariants.{Uniq};
ghost use Rattle.ptopts.specs.Commands as commands;
ghost use Rattle.ptopts.specs.Private.Jobs as made;
ghost use Rattle.ptopts.specs.Private.Jobs.{values_fault};
ghost use Rattle.ptopts.specs.Private.ParseSteps.{CheckPost, options_of};

use crate::fault::UseFault;
use crate::parsing::ParsedArgs;
use ptlangs::jobs::{Show, UniqJob};
use std::alloc::Allocator;

impl<'a, A: Allocator + Copy> ParsedArgs<'a, A> {
    /// The lines that are written.
    fn show(&self) -> Show
        ensures { result ≡ commands.show (options_of self.now) }
    {
        if self.has(b'c') {
            Show::Counts
        } else if self.has(b'd') {
            Show::Repeated
        } else if self.has(b'u') {
            Show::Single
        } else {
            Show::All
        }
    }

    /// The job of `uniq`.
    pub(crate) fn uniq_job(&self) -> Result<UniqJob, UseFault<'a>>
        ensures fault { CheckPost result (values_fault Uniq (options_of self.now)) }
        ensures job { IfOk result (λ j. jobs.uniq_job j ≡ made.uniq_from_options (options_of self.now)) }
    {
        let fields = self.number(b'f')?.unwrap_or(0);
        let chars = self.number(b's')?.unwrap_or(0);
        Ok(UniqJob {
            show: self.show(),
            fields,
            chars,
            zero: self.has(b'z'),
        })
    }
}
