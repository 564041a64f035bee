//! The values of options. `constraints` asks whether they are there, and the modules of `command` check them.

ghost use Rattle.std.specs.Prelude.{◌≡◌, IfOk, option_map};
ghost use Rattle.ptopts.specs.Args.{value_of};
ghost use Rattle.ptopts.specs.Private.Faults.{value_fault, is_delimiter_value, is_count};
ghost use Rattle.ptopts.specs.Faults.{terminator_of};
ghost use Rattle.ptopts.specs.Commands.{byte_value};
ghost use Rattle.ptopts.specs.Private.Jobs.{number_value};
ghost use Rattle.ptopts.specs.Private.ParseSteps.{CheckPost, options_of};

use crate::fault::UseFault;
use crate::parsing::ParsedArgs;
use ptlangs::numbers;
use std::alloc::Allocator;

impl<'a, A: Allocator> ParsedArgs<'a, A> {
    /// The value of an option that is present once.
    pub(crate) fn value(&self, letter: u8) -> Option<&'a str>
        ensures { option_map (λ v. v.now) result ≡ value_of letter (options_of self.now) }
    {
        self.options
            .iter()
            .find(|option| option.letter == letter)?
            .value
    }

    /// The line terminator: NUL with `-z`, else newline.
    fn terminator(&self) -> u8
        ensures { result ≡ terminator_of (options_of self.now) }
    {
        if self.has(b'z') { 0 } else { b'\n' }
    }

    /// The value of an option that must be one byte other than the line terminator.
    pub(crate) fn delimiter(&self, letter: u8) -> Result<Option<u8>, UseFault<'a>>
        ensures fault { let os = options_of self.now in
            CheckPost result (value_fault os (letter, is_delimiter_value (terminator_of os))) }
        ensures byte { IfOk result (λ b. b ≡ byte_value letter (options_of self.now)) }
    {
        let Some(text) = self.value(letter) else {
            return Ok(None);
        };
        match text.as_bytes() {
            [byte] if *byte != self.terminator() => Ok(Some(*byte)),
            _ => Err(UseFault::Value(letter, text)),
        }
    }

    /// The value of an option that must be a number, which may be 0.
    pub(crate) fn number(&self, letter: u8) -> Result<Option<u64>, UseFault<'a>>
        ensures fault { CheckPost result (value_fault (options_of self.now) (letter, is_count)) }
        ensures number { IfOk result (λ n. n ≡ number_value letter (options_of self.now)) }
    {
        let Some(text) = self.value(letter) else {
            return Ok(None);
        };
        match numbers::decimal(text.as_bytes()) {
            Some(number) => Ok(Some(number)),
            None => Err(UseFault::Value(letter, text)),
        }
    }
}
