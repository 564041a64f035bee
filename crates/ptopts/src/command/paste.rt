//! Reads the job of `paste` from parsed options. `command` calls `paste_job`.

ghost use Rattle.std.specs.Prelude.{◌≡◌, IfOk, option_map};
ghost use Rattle.std.specs.Str.{byte};
ghost use Rattle.ptlangs.specs.Jobs as jobs;
ghost use Rattle.ptopts.specs.declared.tool.Tool.TheVariants.{Paste};
ghost use Rattle.ptopts.specs.Args.{value_of};
ghost use Rattle.ptopts.specs.Private.Faults.{value_fault, is_delimiter_list};
ghost use Rattle.ptopts.specs.Private.Jobs as made;
ghost use Rattle.ptopts.specs.Private.Jobs.{delimiters_of, values_fault};
ghost use Rattle.ptopts.specs.Private.ParseSteps.{CheckThenMemoryPost, options_of};

use crate::fault::UseFault;
use crate::parsing::ParsedArgs;
use ptlangs::delims::{DelimFault, Delims};
use ptlangs::jobs::PasteJob;
use std::alloc::Allocator;

impl<'a, A: Allocator + Copy> ParsedArgs<'a, A> {
    /// The delimiter list, if there is one.
    fn delimiter_list(&self, alloc: A) -> Result<Option<Delims<A>>, UseFault<'a>>
        ensures fault { CheckThenMemoryPost result
            (value_fault (options_of self.now) (byte "d", is_delimiter_list)) }
        ensures list { IfOk result
            (λ l. l ≡ option_map delimiters_of (value_of (byte "d") (options_of self.now))) }
    {
        let Some(text) = self.value(b'd') else {
            return Ok(None);
        };
        match Delims::read(alloc, text.as_bytes()) {
            Ok(delims) => Ok(Some(delims)),
            Err(DelimFault::Memory) => Err(UseFault::Memory),
            Err(_) => Err(UseFault::Value(b'd', text)),
        }
    }

    /// The job of `paste`.
    pub(crate) fn paste_job(&self, alloc: A) -> Result<PasteJob<A>, UseFault<'a>>
        ensures fault { CheckThenMemoryPost result (values_fault Paste (options_of self.now)) }
        ensures job { IfOk result (λ j. jobs.paste_job j ≡ made.paste_from_options (options_of self.now)) }
    {
        let delims = match self.delimiter_list(alloc)? {
            Some(delims) => delims,
            None => Delims::tab(alloc)?,
        };
        Ok(PasteJob {
            serial: self.has(b's'),
            delims,
            zero: self.has(b'z'),
        })
    }
}
