//! The command of a command line: the job of a tool, which the module of that tool gives, and its inputs. `ptfiles`,
//! `ptrun` and `ptrunc` use it.

ghost use Rattle.std.specs.Prelude.{◌≡◌, IfOk, None, option_map};
ghost use Rattle.ptopts.specs.Private.Faults.{constraints_fault, operands_fault};
ghost use Rattle.ptopts.specs.Private.Commands.{allowed_command};
ghost use Rattle.ptopts.specs.Commands.{command_of_args, input_operands, output};
ghost use Rattle.ptopts.specs.Commands.{words_view, command_view};
ghost use Rattle.ptopts.specs.View.{CommandPost, HasToolName};
ghost use Rattle.ptopts.specs.Private.ParseSteps.{CheckThenMemoryPost, AreInputs, options_of, operands_of};

mod comm;
mod cut;
mod join;
mod paste;
mod tr;
mod uniq;

use crate::fault::UseFault;
use crate::inputs::Inputs;
use crate::operand_checks::is_standard;
use crate::parsing::{ParsedArgs, read_words};
use crate::tool::Tool;
use ptlangs::CharPlan;
use ptlangs::jobs::{CommJob, CutJob, JoinJob, PasteJob, UniqJob};
use std::alloc::{AllocError, Allocator, Global};

/// The job of a tool, with its inputs and its output.
#[derive(Drop)]
pub enum Command<'a, A: Allocator = Global> {
    /// `cut`, with any number of inputs.
    Cut(CutJob<A>, Inputs<'a, A>),
    /// `paste`, with one input or more.
    Paste(PasteJob<A>, Inputs<'a, A>),
    /// `uniq`, with one input, and a file as its output if one is named.
    Uniq(UniqJob, Inputs<'a, A>),
    /// `comm`, with two inputs, at most one of which is standard input.
    Comm(CommJob, Inputs<'a, A>),
    /// `join`, with two inputs, at most one of which is standard input.
    Join(JoinJob<A>, Inputs<'a, A>),
    /// `tr`, with the plan for each byte of standard input.
    Tr(CharPlan, Inputs<'a, A>),
}

impl<'a, A: Allocator + Copy> Command<'a, A> {
    /// Parses a command line, the name of the tool first (POSIX.1-2017, XBD 12.2, and XCU, the page of each tool). The
    /// first fault is reported: first one of parsing from left to right, then of the constraints between options, of
    /// the values, of the operands, and last of the strings of `tr`. POSIX leaves this order unspecified.
    ///
    /// # Errors
    ///
    /// The first fault, or `Memory` if an allocation failed. `Memory` is returned only if the first word names a tool.
    pub fn read(alloc: A, words: &'a [&'a str]) -> Result<Command<'a, A>, UseFault<'a>>
        ensures parsed { CommandPost result (command_of_args (words_view words.now)) }
        ensures memory { result ≡ Err UseFault.Memory → HasToolName (words_view words.now) }
    {
        let Some((name, rest)) = words.split_first() else {
            return Err(UseFault::Tool);
        };
        let Some(tool) = Tool::from_name(name) else {
            return Err(UseFault::Tool);
        };
        let args = read_words(alloc, tool, rest)?;
        args.check_constraints(tool)?;
        args.read_command(alloc, tool)
    }
}

impl<'a, A: Allocator> Command<'a, A> {
    /// The inputs, and the output of `uniq`.
    pub fn inputs(&self) -> &Inputs<'a, A>
        ensures order { result.now.order.items ≡ (command_view self.now).order }
        ensures names { words_view result.now.names.items ≡ (command_view self.now).names }
        ensures output { option_map (λ w. w.now) result.now.output ≡ (command_view self.now).output }
    {
        match self {
            Command::Cut(_, inputs)
            | Command::Paste(_, inputs)
            | Command::Uniq(_, inputs)
            | Command::Comm(_, inputs)
            | Command::Join(_, inputs)
            | Command::Tr(_, inputs) => inputs,
        }
    }

    /// The names of the input files, in the order in which they are opened: one for each operand that names a file,
    /// without `-` and the output of `uniq`.
    pub fn names(&self) -> &[&'a str]
        ensures { words_view result.now ≡ (command_view self.now).names }
    {
        self.inputs().names.as_slice()
    }

    /// The output file of `uniq`, if one is named and it is not `-`.
    pub fn output(&self) -> Option<&'a str>
        ensures { option_map (λ w. w.now) result ≡ (command_view self.now).output }
    {
        self.inputs().output
    }
}

impl<'a, A: Allocator + Copy> ParsedArgs<'a, A> {
    /// Makes the command of a tool. Its values are checked first, then its operands, then the strings of `tr`.
    fn read_command(&self, alloc: A, tool: Tool) -> Result<Command<'a, A>, UseFault<'a>>
        requires { constraints_fault tool (options_of self.now) ≡ None }
        ensures { CommandPost result (allowed_command tool (options_of self.now) (operands_of self.now)) }
    {
        Ok(match tool {
            Tool::Cut => Command::Cut(self.cut_job(alloc)?, self.read_inputs(alloc, tool)?),
            Tool::Paste => Command::Paste(self.paste_job(alloc)?, self.read_inputs(alloc, tool)?),
            Tool::Uniq => Command::Uniq(self.uniq_job()?, self.read_inputs(alloc, tool)?),
            Tool::Comm => Command::Comm(self.comm_job(), self.read_inputs(alloc, tool)?),
            Tool::Join => Command::Join(self.join_job(alloc)?, self.read_inputs(alloc, tool)?),
            Tool::Tr => {
                let inputs = self.read_inputs(alloc, tool)?;
                Command::Tr(self.char_plan()?, inputs)
            }
        })
    }

    /// Checks the operands, and makes the inputs of the tool.
    fn read_inputs(&self, alloc: A, tool: Tool) -> Result<Inputs<'a, A>, UseFault<'a>>
        ensures fault { CheckThenMemoryPost result
            (operands_fault tool (options_of self.now) (operands_of self.now)) }
        ensures inputs { IfOk result
            (AreInputs (input_operands tool (operands_of self.now)) (output tool (operands_of self.now))) }
    {
        self.check_operands(tool)?;
        Ok(self.build_inputs(alloc, tool)?)
    }

    /// Makes the inputs of a tool and the output of `uniq`. Without an operand the input is standard input
    /// (POSIX.1-2017, XCU, `cut` and `uniq`). An output `-` is standard output.
    fn build_inputs(&self, alloc: A, tool: Tool) -> Result<Inputs<'a, A>, AllocError>
        ensures { IfOk result
            (AreInputs (input_operands tool (operands_of self.now)) (output tool (operands_of self.now))) }
    {
        match (tool, self.operands) {
            (Tool::Tr, _) | (Tool::Cut | Tool::Uniq, []) => Inputs::standard(alloc),
            (Tool::Uniq, [input, output, ..]) if !is_standard(output) => {
                Inputs::of(alloc, &[*input], Some(*output))
            }
            (Tool::Uniq, [input, ..]) => Inputs::of(alloc, &[*input], None),
            _ => Inputs::of(alloc, self.operands, None),
        }
    }
}
