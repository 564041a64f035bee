//! Runs a tool over its operands, one after another or together: reports unopened files, processes the inputs, finishes
//! the output and says the last message. Used by `running`.

ghost use Rattle.std.specs.Prelude.{◌≡◌, ◌<◌, ◌+◌, false, [], length, All};
ghost use Rattle.ptopts.specs.Commands.{words_view};
ghost use Rattle.ptrun.specs.Private.Driver.{InputsPre, ReportUnopenedPost};
ghost use Rattle.ptrun.specs.Private.Driver.{FinishPost, EndRunPost, HasIndexBelow};
ghost use Rattle.ptrun.specs.Private.Driver.{result_message, result_status};
ghost use Rattle.ptrun.specs.Private.Driver.{spec_in_turn, spec_together};
ghost use Rattle.ptrun.specs.Operands.{positions};
ghost use Rattle.ptrun.specs.Calls.Runs.{RunPre, RunWithStorePost, outcome_of, sink_of};
ghost use Rattle.ptrun.specs.Runs.{sinks};
ghost use Rattle.ptrun.specs.MessageWrites.{HasSaid};

use crate::messages::Messages;
use crate::operands::{fault_at, name_at, position_of, positions_of, say_unopened};
use crate::tool::{Completion, Joint, Sequential};
use itoa::Buffer;
use ptflow::FlowFault;
use ptlines::{LineReader, Out, Sink, Source, Store};
use ptopts::{Input, Inputs};
use std::alloc::Allocator;

/// Runs the tool with this name over one operand after another, reports each one that could not be opened when its turn
/// comes, and returns the exit status. Not inlined, so that the code of each tool is a function of its own: an engine
/// of WebAssembly compiles it while it runs, and needs memory by the largest function.
#[inline(never)]
pub(crate) fn run_in_turn<A, B, T, S, R, W, E>(
    name: &str,
    tool: &T,
    operands: &Inputs<'_, B>,
    inputs: &mut [LineReader<S, R>],
    store: &mut Store<A>,
    out: &mut Out<W>,
    messages: &mut Messages<E>,
) -> u8
where
    A: Allocator + Copy,
    B: Allocator + Copy,
    T: Sequential<A>,
    S: Source,
    R: Source,
    W: Sink,
    E: Sink,
    requires given { InputsPre (spec_in_turn name.now (T.tool tool.now) operands.now) inputs.old }
    requires unused { RunPre store.old out.old }
    ensures run { RunWithStorePost (spec_in_turn name.now (T.tool tool.now) operands.now) inputs.old inputs.new
        (sinks (sink_of out.old) messages.old) (outcome_of out.new messages.new store.new result) store.old store.new }
    ensures emptied { out.new.write_failed ≡ false → out.new.buffered ≡ [] }
{
    let order: &[Input] = &operands.order;
    let names: &[&str] = &operands.names;
    let mut done = Completion::AllWritten;
    for input in order {
        let position = position_of(*input);
        if inputs[position].is_refused() {
            say_unopened(name, name_at(names, position), messages);
            done = Completion::Unopened;
        } else if let Err(fault) = tool.run_on_one(&mut inputs[position], store, out) {
            return end_run(name, names, Err(fault_at(position, fault)), out, messages);
        }
    }
    end_run(name, names, Ok(done), out, messages)
}

/// Runs the tool with this name over all its operands together, if each could be opened, and returns the exit status.
/// Not inlined, as above.
#[inline(never)]
pub(crate) fn run_together<A, B, T, S, R, W, E>(
    name: &str,
    tool: &T,
    operands: &Inputs<'_, B>,
    inputs: &mut [LineReader<S, R>],
    store: &mut Store<A>,
    out: &mut Out<W>,
    messages: &mut Messages<E>,
) -> u8
where
    A: Allocator + Copy,
    B: Allocator + Copy,
    T: Joint<A>,
    S: Source,
    R: Source,
    W: Sink,
    E: Sink,
    requires given { InputsPre (spec_together name.now (T.tool tool.now) operands.now) inputs.old }
    requires unused { RunPre store.old out.old }
    ensures run { RunWithStorePost (spec_together name.now (T.tool tool.now) operands.now) inputs.old inputs.new
        (sinks (sink_of out.old) messages.old) (outcome_of out.new messages.new store.new result) store.old store.new }
    ensures emptied { out.new.write_failed ≡ false → out.new.buffered ≡ [] }
{
    let order: &[Input] = &operands.order;
    let names: &[&str] = &operands.names;
    if report_unopened(name, order, names, inputs, messages) {
        return 1;
    }
    let found = tool.run_on_all(&positions_of(order), inputs, store, out);
    end_run(name, names, found, out, messages)
}

// Reports each operand that could not be opened, and returns whether there is one.
fn report_unopened<S: Source, R: Source, E: Sink>(
    name: &str,
    order: &[Input],
    names: &[&str],
    inputs: &[LineReader<S, R>],
    messages: &mut Messages<E>,
) -> bool
    requires in_range { All (λ p. p < length inputs.now) (positions order.now) }
    requires named { length inputs.now ≡ length (words_view names.now) + 1 }
    ensures { ReportUnopenedPost name.now (words_view names.now) (positions order.now) inputs.now
        messages.old messages.new result }
{
    let mut any = false;
    for input in order {
        let position = position_of(*input);
        if inputs[position].is_refused() {
            say_unopened(name, name_at(names, position), messages);
            any = true;
        }
    }
    any
}

// Sends and flushes the buffered output. A failed write is the result, instead of any other.
fn finish<W: Sink>(
    out: &mut Out<W>,
    run_result: Result<Completion, FlowFault>,
) -> Result<Completion, FlowFault>
    ensures { FinishPost out.old out.new run_result result }
{
    match out.finish() {
        Ok(()) => run_result,
        Err(_) => Err(FlowFault::Write),
    }
}

// Finishes the output, says the last message, and returns the exit status.
fn end_run<W: Sink, E: Sink>(
    name: &str,
    names: &[&str],
    run_result: Result<Completion, FlowFault>,
    out: &mut Out<W>,
    messages: &mut Messages<E>,
) -> u8
    requires { HasIndexBelow (length names.now + 1) run_result }
    ensures { EndRunPost name.now (words_view names.now) out.old out.new messages.old messages.new run_result result }
{
    let final_result = finish(out, run_result);
    say_final_message(name, names, final_result, messages)
}

// Says the last message of a run, if there is one, and returns the exit status.
fn say_final_message<E: Sink>(
    name: &str,
    names: &[&str],
    final_result: Result<Completion, FlowFault>,
    messages: &mut Messages<E>,
) -> u8
    requires { HasIndexBelow (length names.now + 1) final_result }
    ensures message { HasSaid messages.old messages.new (result_message name.now (words_view names.now) final_result) }
    ensures status { result ≡ result_status final_result }
{
    match final_result {
        Ok(Completion::AllWritten) => return 0,
        Ok(Completion::Unopened) => {}
        Ok(Completion::Disordered(position, line)) => {
            let mut digits = Buffer::new();
            messages.say(&[
                name,
                ": ",
                name_at(names, position),
                ": line ",
                digits.format(line),
                " is out of order",
            ]);
        }
        Err(FlowFault::Read(position)) => messages.say(&[
            name,
            ": ",
            name_at(names, position),
            ": read failed",
        ]),
        Err(FlowFault::Write) => messages.say(&[name, ": output: write failed"]),
        Err(FlowFault::Memory) => messages.say(&[name, ": out of memory"]),
    }
    1
}
