//! Constraints between options: pairs that conflict, and options of which one is required. `command` checks them.

ghost use Rattle.std.specs.Prelude.{is_some, ◌≡◌, ◌∷◌, []};
ghost use Rattle.ptopts.specs.Private.Faults.{first_some, constraint_fault, constraints_fault, first_value};
ghost use Rattle.ptopts.specs.Private.ParseSteps.{CheckPost, options_of};

use crate::fault::UseFault;
use crate::parsing::ParsedArgs;
use crate::tool::{Constraint, Tool};
use std::alloc::Allocator;

impl<'a, A: Allocator> ParsedArgs<'a, A> {
    /// Checks the constraints of the tool.
    ///
    /// # Errors
    ///
    /// The fault of the first constraint that the options do not meet, in the order of the tool's syntax.
    pub(crate) fn check_constraints(&self, tool: Tool) -> Result<(), UseFault<'a>>
        ensures { CheckPost result (constraints_fault tool (options_of self.now)) }
    {
        let constraints = tool.syntax().constraints;
        for constraint in constraints {
            self.check_constraint(*constraint)?;
        }
        Ok(())
    }

    /// Checks one constraint.
    fn check_constraint(&self, constraint: Constraint) -> Result<(), UseFault<'a>>
        ensures { CheckPost result (constraint_fault (options_of self.now) constraint) }
    {
        match constraint {
            Constraint::Conflict(a, b) if self.has(a) && self.has(b) => {
                Err(UseFault::Together(a, b))
            }
            Constraint::Required(a, b, c) if !self.has_value(a, b, c) => {
                Err(UseFault::NeedsList)
            }
            _ => Ok(()),
        }
    }

    /// Whether one of the three options has a value.
    fn has_value(&self, a: u8, b: u8, c: u8) -> bool
        ensures { result ≡ is_some (first_value (a ∷ b ∷ c ∷ []) (options_of self.now)) }
    {
        self.value(a).is_some() || self.value(b).is_some() || self.value(c).is_some()
    }
}
