//! The operands of a command: their positions among the inputs, their names, messages about those that could not be
//! opened, and failures of the others. Used by `driver` and `tools`.

ghost use Rattle.std.specs.Prelude.{◌≡◌, ◌<◌, ◌+◌, ◌≤◌, length, All};
ghost use Rattle.ptopts.specs.Commands.{words_view};
ghost use Rattle.ptrun.specs.Messages.{name_of, unopened_message};
ghost use Rattle.ptrun.specs.Operands.{position, positions};
ghost use Rattle.ptrun.specs.MessageWrites.{HasSaid};
ghost use Rattle.ptrun.specs.Private.Driver.{fault_at};

use crate::messages::Messages;
use arrayvec::ArrayVec;
use ptflow::FlowFault;
use ptlines::Sink;
use ptopts::Input;

// The position of the reader of `input`: 0 for standard input, followed by the files in order.
pub(crate) fn position_of(input: Input) -> usize
    requires { position input < usize.MAX }
    ensures { result ≡ position input }
{
    match input {
        Input::Standard => 0,
        Input::File(index) => index + 1,
    }
}

// The positions of the operands, in order.
pub(crate) fn positions_of(order: &[Input]) -> ArrayVec<usize, 512>
    requires few { length order.now ≤ 512 }
    requires in_range { All (λ o. position o < usize.MAX) order.now }
    ensures { result.items ≡ positions order.now }
{
    let mut operands = ArrayVec::new();
    for input in order {
        operands.push(position_of(*input));
    }
    operands
}

// The name of the input at `position`, for messages.
pub(crate) fn name_at<'a>(names: &[&'a str], position: usize) -> &'a str
    requires { position ≤ length names.now }
    ensures { result.now ≡ name_of (words_view names.now) position }
{
    if position == 0 {
        "standard input"
    } else {
        names[position - 1]
    }
}

// Reports that the file `name` could not be opened.
pub(crate) fn say_unopened<'a, E: Sink>(tool: &'a str, name: &'a str, messages: &mut Messages<E>)
    ensures { HasSaid messages.old messages.new (unopened_message tool.now name.now) }
{
    messages.say(&[tool, ": ", name, ": cannot be opened"]);
}

// The failure of a call over one reader, as that of the input at `position`.
pub(crate) fn fault_at(position: usize, fault: FlowFault) -> FlowFault
    ensures { result ≡ fault_at position fault }
{
    match fault {
        FlowFault::Read(_) => FlowFault::Read(position),
        other => other,
    }
}
