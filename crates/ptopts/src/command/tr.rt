//! Reads the plan of `tr`, which is its job, from parsed options and operands. `command` calls `char_plan`.

ghost use Rattle.std.specs.Prelude.{◌≡◌, IfOk, None, slice_get, option_copied};
ghost use Rattle.ptopts.specs.declared.tool.Tool.TheVariants.{Tr};
ghost use Rattle.ptopts.specs.Private.Faults as faults;
ghost use Rattle.ptopts.specs.Private.Faults.{form_of_options, operands_fault, strings_fault};
ghost use Rattle.ptlangs.specs.TrTables.{byte_map_of};
ghost use Rattle.ptopts.specs.Private.Jobs.{char_map};
ghost use Rattle.ptopts.specs.Private.ParseSteps.{CheckPost, options_of, operands_of};

use crate::fault::UseFault;
use crate::parsing::ParsedArgs;
use ptlangs::{CharPlan, Form};
use std::alloc::Allocator;

impl<'a, A: Allocator + Copy> ParsedArgs<'a, A> {
    /// The form of `tr`, from its options and the number of its strings (POSIX.1-2017, XCU, `tr`, the synopsis).
    fn form(&self) -> Form
        ensures { result ≡ form_of_options (options_of self.now) (operands_of self.now) }
    {
        match (self.has(b'd'), self.has(b's')) {
            (false, false) => Form::Translate,
            (false, true) if self.operands.len() == 1 => Form::Squeeze,
            (false, true) => Form::TranslateSqueeze,
            (true, false) => Form::Delete,
            (true, true) => Form::DeleteSqueeze,
        }
    }

    /// Whether the first string is complemented.
    fn is_complemented(&self) -> bool
        ensures { result ≡ faults.is_complemented (options_of self.now) }
    {
        self.has(b'c') || self.has(b'C')
    }

    /// The second string, if there is one.
    fn second(&self) -> Option<&'a [u8]>
        ensures { option_copied result ≡ slice_get (operands_of self.now) 1 }
    {
        match self.operands {
            [_, second, ..] => Some(second.as_bytes()),
            _ => None,
        }
    }

    /// The plan for each byte.
    pub(crate) fn char_plan(&self) -> Result<CharPlan, UseFault<'a>>
        requires { operands_fault Tr (options_of self.now) (operands_of self.now) ≡ None }
        ensures fault { CheckPost result (strings_fault Tr (options_of self.now) (operands_of self.now)) }
        ensures plan { IfOk result (λ p. byte_map_of p ≡ char_map (options_of self.now) (operands_of self.now)) }
    {
        let plan = CharPlan::read(
            self.form(),
            self.is_complemented(),
            self.operands[0].as_bytes(),
            self.second(),
        )?;
        Ok(plan)
    }
}
