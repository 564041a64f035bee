//! Checks the operands of a tool: that their number is valid, and that `comm` or `join` does not have standard input
//! twice. `command` calls `check_operands`; `command` and `inputs` call `is_standard` to find the operands that
//! mean standard input.

ghost use Rattle.std.specs.Prelude.{◌≡◌, length};
ghost use Rattle.std.specs.List.{list_all};
ghost use Rattle.ptopts.specs.Faults as faults;
ghost use Rattle.ptopts.specs.Private.Faults as checks;
ghost use Rattle.ptopts.specs.Private.Faults.{operands_fault};
ghost use Rattle.ptopts.specs.Commands.{words_view};
ghost use Rattle.ptopts.specs.Private.ParseSteps.{CheckPost, options_of, operands_of};

use crate::fault::UseFault;
use crate::parsing::ParsedArgs;
use crate::tool::Tool;
use std::alloc::Allocator;

impl<'a, A: Allocator> ParsedArgs<'a, A> {
    /// Checks the operands of the tool.
    ///
    /// # Errors
    ///
    /// `Operands` if their number is wrong, `StandardTwice` if both are standard input.
    pub(crate) fn check_operands(&self, tool: Tool) -> Result<(), UseFault<'a>>
        ensures { CheckPost result (operands_fault tool (options_of self.now) (operands_of self.now)) }
    {
        if !self.has_valid_count(tool) {
            return Err(UseFault::Operands);
        }
        if tool.syntax().stdin_once && all_standard(self.operands) {
            return Err(UseFault::StandardTwice);
        }
        Ok(())
    }

    /// Whether the tool accepts the number of operands.
    fn has_valid_count(&self, tool: Tool) -> bool
        ensures { result ≡ checks.has_valid_count tool (options_of self.now) (length (operands_of self.now)) }
    {
        let syntax = tool.syntax();
        let count = self.operands.len();
        syntax.min_operands <= count && count <= syntax.max_operands && self.fits_form(tool)
    }

    /// Whether `tr` accepts the number of its strings with these options; true for the other tools.
    fn fits_form(&self, tool: Tool) -> bool
        ensures { result ≡ checks.fits_form tool (options_of self.now) (length (operands_of self.now)) }
    {
        if !matches!(tool, Tool::Tr) {
            return true;
        }
        let count = self.operands.len();
        match (self.has(b'd'), self.has(b's')) {
            (true, false) => count == 1,
            (false, true) => true,
            _ => count == 2,
        }
    }
}

/// Whether the operand means standard input.
pub(crate) fn is_standard(operand: &str) -> bool
    ensures { result ≡ faults.is_standard operand.now }
{
    operand == "-"
}

/// Whether each operand means standard input.
fn all_standard(operands: &[&str]) -> bool
    ensures { result ≡ list_all faults.is_standard (words_view operands.now) }
{
    operands.iter().all(|operand| is_standard(operand))
}
