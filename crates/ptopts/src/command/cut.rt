//! Reads the job of `cut` from parsed options. `command` calls `cut_job`.

ghost use Rattle.std.specs.Prelude.{◌≡◌, None, Err, All, IfOk, IsSome, codes, option_map};
ghost use Rattle.ptlangs.specs.CutLists.{is_selected};
ghost use Rattle.ptlangs.specs.Jobs as jobs;
ghost use Rattle.ptopts.specs.declared.tool.Tool.TheVariants.{Cut};
ghost use Rattle.ptopts.specs.Args.{value_of};
ghost use Rattle.ptopts.specs.Private.Faults.{value_fault, constraints_fault, is_cut_list};
ghost use Rattle.ptopts.specs.Private.Jobs as made;
ghost use Rattle.ptopts.specs.Private.Jobs.{selected_set, values_fault};
ghost use Rattle.ptopts.specs.Private.ParseSteps.{CheckThenMemoryPost, CheckOrMemoryPost, options_of};

use crate::fault::UseFault;
use crate::parsing::ParsedArgs;
use ptlangs::jobs::CutJob;
use ptlangs::ranges::{ListFault, Ranges};
use std::alloc::Allocator;

impl<'a, A: Allocator + Copy> ParsedArgs<'a, A> {
    /// The list that is the value of this option, if it is present.
    fn cut_list(&self, alloc: A, letter: u8) -> Result<Option<Ranges<A>>, UseFault<'a>>
        ensures fault { CheckThenMemoryPost result (value_fault (options_of self.now) (letter, is_cut_list)) }
        ensures given { result ≡ Err UseFault.Memory → IsSome (value_of letter (options_of self.now)) }
        ensures list { IfOk result
            (λ r. option_map is_selected r ≡ option_map selected_set (value_of letter (options_of self.now))) }
    {
        let Some(text) = self.value(letter) else {
            return Ok(None);
        };
        match Ranges::read(alloc, text.as_bytes()) {
            Ok(ranges) => Ok(Some(ranges)),
            Err(ListFault::Memory) => Err(UseFault::Memory),
            Err(_) => Err(UseFault::Value(letter, text)),
        }
    }

    /// The job of `cut`.
    pub(crate) fn cut_job(&self, alloc: A) -> Result<CutJob<A>, UseFault<'a>>
        requires { constraints_fault Cut (options_of self.now) ≡ None }
        ensures fault { CheckOrMemoryPost result (values_fault Cut (options_of self.now)) }
        ensures memory { result ≡ Err UseFault.Memory
            → All (λ letter. value_fault (options_of self.now) (letter, is_cut_list) ≡ None) (codes "bcf") }
        ensures job { IfOk result (λ j. jobs.cut_job j ≡ made.cut_from_options (options_of self.now)) }
    {
        let bytes = self.cut_list(alloc, b'b')?;
        let characters = self.cut_list(alloc, b'c')?;
        let fields = self.cut_list(alloc, b'f')?;
        let delim = self.delimiter(b'd')?.unwrap_or(b'\t');
        Ok(CutJob {
            fields: self.has(b'f'),
            list: bytes.or(characters).or(fields).unwrap(),
            delim,
            only: self.has(b's'),
            zero: self.has(b'z'),
        })
    }
}
