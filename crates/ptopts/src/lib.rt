//! The command line: the tool that it names, its options and its operands. `ptfiles` parses words with it, and
//! `ptrun` runs the command.
#![tactic(auto)]

mod command;
mod constraints;
mod fault;
mod grammar;
mod inputs;
mod operand_checks;
mod parsing;
mod tool;
mod values;

pub use command::Command;
pub use fault::UseFault;
pub use grammar::{commands_are_spelled, words_have_one_reading};
pub use inputs::{Input, Inputs};
pub use tool::TOOLS;
