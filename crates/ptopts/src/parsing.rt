//! Parses the words of a command line from left to right into options and operands (POSIX.1-2017, XBD 12.2). `command`
//! calls `read_words`. The modules that check options and operands have methods of its result, `ParsedArgs`.

ghost use Rattle.std.specs.Prelude.{◌≡◌, ◌<◌, length, IfOk, IfErr};
ghost use Rattle.ptopts.specs.Args.{is_option_arg, has_option, is_flag};
ghost use Rattle.ptopts.specs.Faults.{is_repeated};
ghost use Rattle.ptopts.specs.Private.Tokens.{Valid, token_fault};
ghost use Rattle.ptopts.specs.Commands.{words_view};
ghost use Rattle.ptopts.specs.Private.ParseSteps.{CheckPost, option_view, options_view, next_view, token_at};
ghost use Rattle.ptopts.specs.Private.ParseSteps.{words_after_value};
ghost use Rattle.ptopts.specs.Private.ParseSteps.{GroupPost, GroupFaultPost, ArgsPost, ArgsFaultPost, options_of};
ghost use Rattle.ptopts.specs.Private.ParseSteps.{operands_of};

use crate::fault::UseFault;
use crate::tool::Tool;
use std::alloc::{Allocator, Global};

/// An option, with its value if it has one.
#[derive(Clone, Copy)]
pub(crate) struct ParsedOption<'a> {
    pub letter: u8,
    pub value: Option<&'a str>,
}

/// Whether the option is present.
fn has_letter(options: &[ParsedOption], letter: u8) -> bool
    ensures { result ≡ has_option letter (options_view options.now) }
{
    options.iter().any(|option| option.letter == letter)
}

/// Whether the option is present and must not be repeated.
fn is_repeated(tool: Tool, options: &[ParsedOption], letter: u8) -> bool
    ensures { result ≡ is_repeated tool (options_view options.now) letter }
{
    has_letter(options, letter) && !tool.may_repeat(letter)
}

/// Whether the word is a dash and at least one more character.
fn is_option_word(word: &str) -> bool
    ensures { result ≡ is_option_arg word.now }
{
    word.len() > 1 && word.as_bytes()[0] == b'-'
}

/// The option with a value at this index of the word. The value is the rest of the word, or `next` if there is no rest.
///
/// # Errors
///
/// The letter is not an option, the option must not be repeated, or there is no value.
fn valued_option<'a>(
    tool: Tool,
    options: &[ParsedOption],
    word: &'a str,
    index: usize,
    next: Option<&'a str>,
) -> Result<ParsedOption<'a>, UseFault<'a>>
    requires { index < length word.now }
    ensures fault { CheckPost result
        (token_fault tool (options_view options.now) (token_at tool word.now index (next_view next.entry))) }
    ensures read { IfOk result
        (λ o. token_at tool word.now index (next_view next.entry) ≡ Valid (option_view o)) }
{
    let letter = word.as_bytes()[index];
    if !tool.takes_value(letter) {
        return Err(UseFault::Unknown(word));
    }
    if is_repeated(tool, options, letter) {
        return Err(UseFault::Twice(letter));
    }
    let attached = &word[index + 1..];
    let value = if attached.is_empty() {
        next.ok_or(UseFault::NeedsValue(letter))?
    } else {
        attached
    };
    Ok(ParsedOption {
        letter,
        value: Some(value),
    })
}

/// Reads the options of one word, and appends them. Returns whether the next word is the value of the last option.
fn read_group<'a, A: Allocator + Copy>(
    tool: Tool,
    word: &'a str,
    next: Option<&'a str>,
    options: &mut Vec<ParsedOption<'a>, A>,
) -> Result<bool, UseFault<'a>>
    ensures ok { let next = next_view next.entry in IfOk result
        (GroupPost tool word.now next (options_view options.old.items) (options_view options.new.items)) }
    ensures err { IfErr result
        (GroupFaultPost tool word.now (next_view next.entry) (options_view options.old.items)) }
{
    let letters = word.as_bytes();
    for index in 1..letters.len() {
        let letter = letters[index];
        if !tool.has_flag(letter) {
            let option = valued_option(tool, options, word, index, next)?;
            options.push(option)?;
            return Ok(index + 1 == letters.len());
        }
        options.push(ParsedOption {
            letter,
            value: None,
        })?;
    }
    Ok(false)
}

/// The words after a word of options, without the next word if that is a value.
fn after_group<'a>(words: &'a [&'a str], takes_next: bool) -> &'a [&'a str]
    ensures { words_view result.now ≡ words_after_value takes_next (words_view words.now) }
{
    match words {
        [_, rest @ ..] if takes_next => rest,
        _ => words,
    }
}

/// The options and operands of a command line.
#[derive(Drop)]
pub(crate) struct ParsedArgs<'a, A: Allocator = Global> {
    pub options: Vec<ParsedOption<'a>, A>,
    pub operands: &'a [&'a str],
}

impl<'a, A: Allocator> ParsedArgs<'a, A> {
    /// Whether the option is present.
    pub(crate) fn has(&self, letter: u8) -> bool
        ensures { result ≡ has_option letter (options_of self.now) }
    {
        has_letter(&self.options, letter)
    }
}

/// Parses the words after the name of the tool.
pub(crate) fn read_words<'a, A: Allocator + Copy>(
    alloc: A,
    tool: Tool,
    words: &'a [&'a str],
) -> Result<ParsedArgs<'a, A>, UseFault<'a>>
    ensures ok { IfOk result
        (λ r. ArgsPost tool (words_view words.now) (options_of r) (operands_of r)) }
    ensures err { IfErr result (ArgsFaultPost tool (words_view words.now)) }
{
    let mut options = Vec::new(alloc);
    let mut rest = words;
    while let Some((word, more)) = rest.split_first() {
        if *word == "--" {
            return Ok(ParsedArgs {
                options,
                operands: more,
            });
        }
        if !is_option_word(word) {
            break;
        }
        let takes_next = read_group(tool, word, more.first().copied(), &mut options)?;
        rest = after_group(more, takes_next);
    }
    Ok(ParsedArgs {
        options,
        operands: rest,
    })
}
