//! Reads the job of `join` from parsed options. `command` calls `join_job`.

ghost use Rattle.std.specs.Prelude.{◌≡◌, None, IfOk, slice_index_or, false, unwrap_or, codes, option_map, []};
ghost use Rattle.std.specs.Str.{byte};
ghost use Rattle.ptlangs.specs.Jobs as jobs;
ghost use Rattle.ptopts.specs.declared.tool.Tool.TheVariants.{Join};
ghost use Rattle.ptopts.specs.Args.{value_of};
ghost use Rattle.ptopts.specs.Private.Faults.{value_fault, each_value_fault, is_file_number, is_field_number, is_output_list};
ghost use Rattle.ptopts.specs.Private.Jobs as made;
ghost use Rattle.ptopts.specs.Private.Jobs.{names_file, number_value, fields_of, values_fault};
ghost use Rattle.ptopts.specs.Private.ParseSteps.{CheckPost, CheckThenMemoryPost, CheckOrMemoryPost, options_of};
ghost use Rattle.ptopts.specs.Private.ParseSteps.{options_view};

use crate::fault::UseFault;
use crate::parsing::{ParsedArgs, ParsedOption};
use ptlangs::jobs::JoinJob;
use ptlangs::numbers;
use ptlangs::outlist::{OutFault, OutList};
use std::alloc::{AllocError, Allocator};

/// For each of the two files, whether a value of this option names it.
fn selected_files<'a>(options: &[ParsedOption<'a>], letter: u8) -> Result<[bool; 2], UseFault<'a>>
    ensures fault { CheckPost result (each_value_fault (options_view options.now) (letter, is_file_number)) }
    ensures first { IfOk result
        (λ named. slice_index_or named 0 false ≡ names_file (codes "1") letter (options_view options.now)) }
    ensures second { IfOk result
        (λ named. slice_index_or named 1 false ≡ names_file (codes "2") letter (options_view options.now)) }
{
    let mut first = false;
    let mut second = false;
    for option in options {
        if option.letter != letter {
            continue;
        }
        match option.value {
            None => {}
            Some("1") => first = true,
            Some("2") => second = true,
            Some(text) => return Err(UseFault::Value(letter, text)),
        }
    }
    Ok([first, second])
}

impl<'a, A: Allocator + Copy> ParsedArgs<'a, A> {
    /// The number of a join field, counted from 1. The default is 1.
    fn field_number(&self, letter: u8) -> Result<u64, UseFault<'a>>
        ensures fault { CheckPost result (value_fault (options_of self.now) (letter, is_field_number)) }
        ensures number { IfOk result (λ n. n ≡ unwrap_or (number_value letter (options_of self.now)) 1) }
    {
        let Some(text) = self.value(letter) else {
            return Ok(1);
        };
        match numbers::decimal(text.as_bytes()) {
            None | Some(0) => Err(UseFault::Value(letter, text)),
            Some(number) => Ok(number),
        }
    }

    /// The output list, if there is one.
    fn output_list(&self, alloc: A) -> Result<Option<OutList<A>>, UseFault<'a>>
        ensures fault { CheckThenMemoryPost result (value_fault (options_of self.now) (byte "o", is_output_list)) }
        ensures list { IfOk result (λ l. l ≡ option_map fields_of (value_of (byte "o") (options_of self.now))) }
    {
        let Some(text) = self.value(b'o') else {
            return Ok(None);
        };
        match OutList::read(alloc, text.as_bytes()) {
            Ok(list) => Ok(Some(list)),
            Err(OutFault::Memory) => Err(UseFault::Memory),
            Err(_) => Err(UseFault::Value(b'o', text)),
        }
    }

    /// The text for empty fields. The default is the empty string.
    fn empty_field(&self, alloc: A) -> Result<Vec<u8, A>, AllocError>
        ensures { IfOk result (λ v. v.items ≡ unwrap_or (value_of (byte "e") (options_of self.now)) []) }
    {
        match self.value(b'e') {
            None => Ok(Vec::new(alloc)),
            Some(text) => text.as_bytes().to_vec(alloc),
        }
    }

    /// The job of `join`.
    pub(crate) fn join_job(&self, alloc: A) -> Result<JoinJob<A>, UseFault<'a>>
        ensures fault { CheckOrMemoryPost result (values_fault Join (options_of self.now)) }
        ensures memory { result ≡ Err UseFault.Memory
            → value_fault (options_of self.now) (byte "o", is_output_list) ≡ None }
        ensures job { IfOk result (λ j. jobs.join_job j ≡ made.join_from_options (options_of self.now)) }
    {
        let [also1, also2] = selected_files(&self.options, b'a')?;
        let [only1, only2] = selected_files(&self.options, b'v')?;
        let list = self.output_list(alloc)?;
        let sep = self.delimiter(b't')?;
        let field1 = self.field_number(b'1')?;
        let field2 = self.field_number(b'2')?;
        Ok(JoinJob {
            pairs: !self.has(b'v'),
            unpaired: [also1 | only1, also2 | only2],
            empty: self.empty_field(alloc)?,
            list,
            sep,
            field: [field1, field2],
            zero: self.has(b'z'),
            descending: self.has(b'r'),
        })
    }
}
