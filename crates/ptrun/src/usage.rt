//! Messages about arguments that are no command. Used by `running`.

ghost use Rattle.std.specs.Prelude.{◌≡◌, ◌∷◌, [], encode_utf8};
ghost use Rattle.ptopts.specs.Faults.{Together};
ghost use Rattle.ptopts.specs.View.{fault_view};
ghost use Rattle.ptrun.specs.MessageWrites.{HasSaid, line_of};
ghost use Rattle.ptrun.specs.Messages as texts;
ghost use Rattle.ptrun.specs.Private.Messages.{string_fault_text};
ghost use Rattle.ptrun.specs.Calls.Runs.{usage_message, usage_status};

use crate::messages::Messages;
use ptlangs::{SetFault, SetFaultKind, SetString};
use ptlines::Sink;
use ptopts::{TOOLS, UseFault};

// Says why the arguments of `tool` are no command, and returns the exit status.
pub(crate) fn say_usage_fault<E: Sink>(
    tool: &str,
    fault: UseFault<'_>,
    messages: &mut Messages<E>,
) -> u8
    ensures message { HasSaid messages.old messages.new (usage_message tool.now (fault_view fault.entry)) }
    ensures status { result ≡ usage_status (fault_view fault.entry) }
{
    match fault {
        UseFault::Tool => messages.say(&["ptext: first word: ", TOOLS]),
        UseFault::Unknown(word) => messages.say(&[tool, ": unknown option in ", word]),
        UseFault::NeedsValue(letter) => {
            say_option(tool, ": option -", letter, " needs a value", "", messages);
        }
        UseFault::Twice(letter) => {
            say_option(tool, ": option -", letter, " is given twice", "", messages);
        }
        UseFault::Together(first, second) => say_conflict(tool, first, second, messages),
        UseFault::Value(letter, value) => {
            say_option(
                tool,
                ": wrong value for option -",
                letter,
                ": ",
                value,
                messages,
            );
        }
        UseFault::Operands => messages.say(&[tool, ": wrong number of operands"]),
        UseFault::StandardTwice => messages.say(&[tool, ": standard input is named twice"]),
        UseFault::NeedsList => messages.say(&["cut: one of -b, -c and -f is needed"]),
        UseFault::String(fault) => say_string_fault(fault, messages),
        UseFault::Memory => {
            messages.say(&[tool, ": out of memory"]);
            return 1;
        }
    }
    2
}

// Says `before`, the option's letter, `after` and `value`.
fn say_option<'a, E: Sink>(
    tool: &'a str,
    before: &'a str,
    letter: u8,
    after: &'a str,
    value: &'a str,
    messages: &mut Messages<E>,
)
    ensures { HasSaid messages.old messages.new
        (line_of (tool.now ∷ before.now ∷ encode_utf8 letter ∷ after.now ∷ value.now ∷ [])) }
{
    let mut room = [0; 4];
    let option = char::from(letter).encode_utf8(&mut room);
    messages.say(&[tool, before, option, after, value]);
}

// Says that two options conflict.
fn say_conflict<E: Sink>(tool: &str, first: u8, second: u8, messages: &mut Messages<E>)
    ensures { HasSaid messages.old messages.new (texts.usage_text tool.now (Together first second)) }
{
    let (mut room, mut more) = ([0; 4], [0; 4]);
    let one = char::from(first).encode_utf8(&mut room);
    let two = char::from(second).encode_utf8(&mut more);
    messages.say(&[
        tool,
        ": options -",
        one,
        " and -",
        two,
        " do not go together",
    ]);
}

// Says why a string operand of `tr` is invalid.
fn say_string_fault<E: Sink>(fault: SetFault, messages: &mut Messages<E>)
    ensures { HasSaid messages.old messages.new (string_fault_text fault) }
{
    let string = string_word(fault.string);
    let kind = kind_word(fault.kind);
    messages.say(&["tr: wrong ", string, ": ", kind]);
}

// The name of the string operand in the synopsis of `tr`.
fn string_word(string: SetString) -> &'static str
    ensures { result.now ≡ texts.string_word string }
{
    match string {
        SetString::First => "string1",
        SetString::Second => "string2",
    }
}

// The reason in one word.
fn kind_word(kind: SetFaultKind) -> &'static str
    ensures { result.now ≡ texts.kind_word kind }
{
    match kind {
        SetFaultKind::Empty => "empty",
        SetFaultKind::Octal => "octal",
        SetFaultKind::Escape => "escape",
        SetFaultKind::Descending => "descending",
        SetFaultKind::UnknownClass => "class",
        SetFaultKind::ClassPlace => "pairing",
        SetFaultKind::EquivPlace => "equivalence",
        SetFaultKind::RepeatPlace => "repeat",
        SetFaultKind::RepeatSize => "size",
        SetFaultKind::SecondFill => "fill",
        SetFaultKind::Memory => "memory",
    }
}
