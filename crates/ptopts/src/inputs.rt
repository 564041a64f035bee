//! The inputs of a command, in the order of its operands. `command` makes them, `ptfiles` opens them, and `ptrun` reads
//! them.

ghost use Rattle.std.specs.Prelude.{IfOk, [], ◌∷◌, codes, option_map};
ghost use Rattle.ptopts.specs.Commands.{words_view};
ghost use Rattle.ptopts.specs.Private.ParseSteps.{AreInputs};

use crate::operand_checks::is_standard;
use std::alloc::{AllocError, Allocator, Global};

/// One input.
#[derive(Clone, Copy, Debug, PartialEq, Eq)]
pub enum Input {
    /// Standard input.
    Standard,
    /// The file with this index in the names.
    File(usize),
}

/// The inputs of a command, and the output of `uniq`.
#[derive(Drop)]
pub struct Inputs<'a, A: Allocator = Global> {
    /// The inputs in operand order; standard input alone if there is no operand and the tool reads standard input then.
    pub order: Vec<Input, A>,
    /// The names of the input files: one for each operand that names a file, in order.
    pub names: Vec<&'a str, A>,
    /// The name of the output file of `uniq`; `None` for standard output.
    pub output: Option<&'a str>,
}

impl<'a, A: Allocator + Copy> Inputs<'a, A> {
    /// The inputs of these operands, with this output.
    pub(crate) fn of(
        alloc: A,
        operands: &[&'a str],
        output: Option<&'a str>,
    ) -> Result<Inputs<'a, A>, AllocError>
        ensures { IfOk result (AreInputs (words_view operands.now) (option_map (λ w. w.now) output.entry)) }
    {
        let mut order = Vec::new(alloc);
        let mut names = Vec::new(alloc);
        for operand in operands {
            if is_standard(operand) {
                order.push(Input::Standard)?;
            } else {
                order.push(Input::File(names.len()))?;
                names.push(*operand)?;
            }
        }
        Ok(Inputs {
            order,
            names,
            output,
        })
    }

    /// Standard input alone.
    pub(crate) fn standard(alloc: A) -> Result<Inputs<'a, A>, AllocError>
        ensures { IfOk result (AreInputs (codes "-" ∷ []) None) }
    {
        let mut order = Vec::new(alloc);
        order.push(Input::Standard)?;
        Ok(Inputs {
            order,
            names: Vec::new(alloc),
            output: None,
        })
    }
}
