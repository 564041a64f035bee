//! Runs whole commands and compares the results: cases with their inputs and the limits of their sinks, and functions
//! that run tables of them, let each write or allocation fail in turn, count calls and allocations, or expect that
//! nothing is done. Used by most tests of the crate.

ghost use Rattle.std.specs.Prelude.{◌≡◌, ◌+◌, false, All, IfOk, IfSome, vec_len};
ghost use Rattle.ptrun.specs.SpecOfArgs.{file_count};
ghost use Rattle.ptrun.specs.Calls.Runs.{IsUnused};
ghost use Rattle.ptrun.specs.Files.{IsNewOrUnopened};

use crate::asserts::{assert_for, assert_same_for};
use ptfakes::{ChunkedSource, CountedSource, FailingAlloc, VecSink};
use ptlines::{LineReader, Out, Store};
use ptopts::{Command, UseFault};
use ptrun::{Messages, Report, report_of, report_refused, run, run_with_store};
use std::alloc::{AllocError, Allocator, Global};
use std::cell::Cell;
use std::process::Abort;
use std::test::Fail;

/// An input of a command.
#[derive(Clone, Copy)]
pub enum Input<'a> {
    /// All bytes of this text.
    Text(&'a [u8]),
    /// The bytes of this text, of which the given number of reads succeeds and every later one fails.
    Failing(&'a [u8], u64),
    /// A file that cannot be opened.
    Unopened,
}

/// Limits of a sink: the most bytes per call, the most bytes in all, and the number of calls that succeed.
#[derive(Clone, Copy)]
pub struct Limits {
    pub size: usize,
    pub room: usize,
    pub passing: u64,
}

/// A sink without limits.
pub const UNLIMITED: Limits = Limits {
    size: usize::MAX,
    room: usize::MAX,
    passing: u64::MAX,
};

/// A command with its inputs and the limits of its sinks. A read returns at most `size` bytes.
#[derive(Clone, Copy)]
pub struct Case<'a> {
    pub words: &'a [&'a str],
    pub standard: Input<'a>,
    pub files: &'a [Input<'a>],
    pub size: usize,
    pub out: Limits,
    pub messages: Limits,
}

/// Empty standard input and sinks without limits. Each case states how it differs.
pub const DEFAULT: Case<'static> = Case {
    words: &[],
    standard: Input::Text(b""),
    files: &[],
    size: usize::MAX,
    out: UNLIMITED,
    messages: UNLIMITED,
};

/// A command over these inputs, with sinks without limits.
pub fn case_over<'a>(
    words: &'a [&'a str],
    standard: Input<'a>,
    files: &'a [Input<'a>],
    size: usize,
) -> Case<'a> {
    Case {
        words,
        standard,
        files,
        size,
        out: UNLIMITED,
        messages: UNLIMITED,
    }
}

type Reader<'a> = LineReader<ChunkedSource<'a>, ChunkedSource<'a>>;

// The source of an input, and `None` for a file that cannot be opened.
fn source_of<'a>(input: Input<'a>, size: usize) -> Option<ChunkedSource<'a>>
    ensures not_eof { IfSome result (λ source. source.eof ≡ false) }
    ensures unfailed { IfSome result (λ source. source.failed ≡ false) }
{
    match input {
        Input::Text(text) => Some(ChunkedSource::new(text, size, u64::MAX)),
        Input::Failing(text, passing) => Some(ChunkedSource::new(text, size, passing)),
        Input::Unopened => None,
    }
}

fn file_of(input: Input<'_>, size: usize) -> Reader<'_>
    ensures { IsNewOrUnopened result }
{
    match source_of(input, size) {
        Some(source) => LineReader::file(source),
        None => LineReader::refused(),
    }
}

fn standard_of(input: Input<'_>, size: usize) -> Reader<'_>
    ensures { IsNewOrUnopened result }
{
    match source_of(input, size) {
        Some(source) => LineReader::standard(source),
        None => LineReader::refused(),
    }
}

/// The number of input files that a command names.
pub fn files_named<A: Allocator>(command: &Result<Command<'_, A>, UseFault<'_>>) -> usize
    ensures { IfSome (file_count command.now) (λ count. result ≡ count) }
{
    match command {
        Ok(command) => command.names().len(),
        Err(_) => 0,
    }
}

// The reader of the file with this index, and one that could not be opened after the last file.
fn file_at<'a>(files: &[Input<'a>], position: usize, size: usize) -> Reader<'a>
    ensures { IsNewOrUnopened result }
{
    match files.get(position) {
        Some(file) => file_of(*file, size),
        None => LineReader::refused(),
    }
}

// The readers of standard input and of `count` files.
fn readers<'a>(alloc: Global, case: &Case<'a>, count: usize) -> Result<Vec<Reader<'a>>, AllocError>
    ensures count { IfOk result (λ inputs. vec_len inputs ≡ count + 1) }
    ensures fresh { IfOk result (λ inputs. All IsNewOrUnopened inputs.items) }
{
    let mut inputs = Vec::new(alloc);
    inputs.push(standard_of(case.standard, case.size))?;
    for position in 0..count {
        inputs.push(file_at(case.files, position, case.size))?;
    }
    Ok(inputs)
}

fn sink_of(alloc: Global, limits: Limits) -> VecSink
    ensures { result.failed ≡ false }
{
    VecSink::limited(alloc, limits.size, limits.room, limits.passing)
}

/// Runs a command and returns its report. `alloc` is the allocator of the command, and `test_alloc` that of its inputs
/// and sinks.
pub fn run_over<A: Allocator + Copy>(
    rt: &impl Abort,
    alloc: A,
    test_alloc: Global,
    case: &Case<'_>,
) -> Result<Report<VecSink, VecSink>, Fail> {
    let command = Command::read(alloc, case.words);
    let count = files_named(&command);
    assert!(rt; command.is_err() || case.files.len() == count);
    let mut inputs = readers(test_alloc, case, count)?;
    let out = sink_of(test_alloc, case.out);
    let messages = sink_of(test_alloc, case.messages);
    Ok(run(alloc, command, case.words, &mut inputs, out, messages))
}

/// Runs a command with a lent store, whose allocator is `alloc`, and returns its report.
pub fn run_in_store<A: Allocator + Copy>(
    rt: &impl Abort,
    store: &mut Store<A>,
    alloc: A,
    test_alloc: Global,
    case: &Case<'_>,
) -> Result<Report<VecSink, VecSink>, Fail>
    requires { IsUnused store.old }
{
    let command = Command::read(alloc, case.words);
    let count = files_named(&command);
    assert!(rt; case.files.len() == count);
    let mut inputs = readers(test_alloc, case, count)?;
    let out = sink_of(test_alloc, case.out);
    let messages = sink_of(test_alloc, case.messages);
    let command = match command {
        Ok(command) => command,
        Err(fault) => return Ok(report_refused(case.words, fault, out, messages)),
    };
    let mut out = Out::new(out);
    let mut messages = Messages::new(messages);
    let status = run_with_store(store, &command, &mut inputs, &mut out, &mut messages);
    Ok(report_of(store, status, out.into_sink(), messages.into_sink()))
}

/// Runs a command and compares its output, messages and exit status. No growth may fail.
pub fn expect(
    rt: &impl Abort,
    alloc: Global,
    case: &Case<'_>,
    out: &[u8],
    messages: &str,
) -> Result<(), Fail> {
    let report = run_over(rt, alloc, alloc, case)?;
    assert_outcome(rt, case.words, &report, out, messages);
    assert_for(rt, &case.words, !report.denied);
    Ok(())
}

/// Runs a command while every allocation after the parsing of its arguments fails: it must not ask for one, must hold
/// no line, and must write `out`.
pub fn expect_no_allocation(
    rt: &impl Abort,
    alloc: Global,
    case: &Case<'_>,
    out: &[u8],
) -> Result<(), Fail> {
    let parsing_allocations = allocations_of_parsing(rt, alloc, case.words);
    let refusing = FailingAlloc::after(alloc, parsing_allocations);
    let report = run_over(rt, &refusing, alloc, case)?;
    assert_for(rt, &case.words, !refusing.refused());
    assert_for(rt, &case.words, !report.denied);
    assert_same_for(rt, &case.words, &report.peak, &0);
    assert_outcome(rt, case.words, &report, out, "");
    Ok(())
}

// The number of allocations that the parsing of `words` needs. They must be a command.
fn allocations_of_parsing(rt: &impl Abort, alloc: Global, words: &[&str]) -> u64 {
    let counted = FailingAlloc::after(alloc, u64::MAX);
    assert_for(rt, &words, is_command(&counted, &*words));
    u64::MAX - counted.left()
}

fn is_command<A: Allocator + Copy>(alloc: A, words: &[&str]) -> bool {
    Command::read(alloc, words).is_ok()
}

// A reader of standard input that counts the reads.
fn counting_input(
    pulls: &Cell<u64>,
) -> LineReader<CountedSource<'_, ChunkedSource<'_>>, ChunkedSource<'_>>
    ensures { IsNewOrUnopened result }
{
    LineReader::standard(CountedSource::new(ChunkedSource::whole(b"never read\n"), pulls))
}

/// Runs arguments that are no command: `message` is written, nothing is read, written to the output or flushed, and no
/// memory is requested.
pub fn expect_usage_error(
    rt: &impl Abort,
    alloc: Global,
    words: &[&str],
    message: &str,
) -> Result<(), Fail> {
    let command = Command::read(alloc, &*words);
    assert_for(rt, &words, command.is_err());
    let named = files_named(&command);
    assert!(rt; named == 0);
    let pulls = Cell::new(0);
    let standard = counting_input(&pulls);
    let (out, messages) = (VecSink::new(alloc), VecSink::new(alloc));
    let counted = FailingAlloc::after(alloc, u64::MAX);
    let report = run(&counted, command, &*words, &mut [standard], out, messages);
    assert_nothing_done(rt, &*words, &report, pulls.get(), (message, 2));
    assert_same_for(rt, &words, &counted.left(), &u64::MAX);
    Ok(())
}

/// Runs a command over standard input and a file that cannot be opened: `message` is written, and nothing is read,
/// written to the output or flushed.
pub fn expect_unopened(
    rt: &impl Abort,
    alloc: Global,
    words: &[&str],
    message: &str,
) -> Result<(), Fail> {
    let command = Command::read(alloc, &*words);
    let named = files_named(&command);
    assert!(rt; named == 1);
    let pulls = Cell::new(0);
    let standard = counting_input(&pulls);
    let (out, messages) = (VecSink::new(alloc), VecSink::new(alloc));
    let mut inputs = [standard, LineReader::refused()];
    let report = run(alloc, command, &*words, &mut inputs, out, messages);
    assert_nothing_done(rt, &*words, &report, pulls.get(), (message, 1));
    Ok(())
}

// This is the message, with this status, and nothing was read, written to the output or flushed.
fn assert_nothing_done(
    rt: &impl Abort,
    words: &[&str],
    report: &Report<VecSink, VecSink>,
    pulls: u64,
    (message, status): (&str, u8),
) {
    assert_same_for(rt, &words, &report.messages.bytes(), &message.as_bytes());
    assert_same_for(rt, &words, &report.status, &status);
    let calls = (report.out.calls(), report.messages.flushes(), pulls);
    assert_same_for(rt, &words, &calls, &(0, 0, 0));
}

// These are the output and the messages, and the status is 1 if there is a message.
fn assert_outcome(
    rt: &impl Abort,
    words: &[&str],
    report: &Report<VecSink, VecSink>,
    out: &[u8],
    messages: &str,
) {
    assert_same_for(rt, &words, &report.out.bytes(), &out);
    assert_same_for(rt, &words, &report.messages.bytes(), &messages.as_bytes());
    assert_same_for(rt, &words, &report.status, &u8::from(!messages.is_empty()));
}

/// The arguments, standard input, the files, the output, and the messages.
pub type Example = (
    &'static [&'static str],
    Input<'static>,
    &'static [Input<'static>],
    &'static str,
    &'static str,
);

/// The most bytes that a read returns, in turn.
pub const PIECE_SIZES: &[usize] = &[1, 7, usize::MAX];

/// Runs each example with reads of each of these sizes.
pub fn expect_examples(
    rt: &impl Abort,
    alloc: Global,
    sizes: &[usize],
    examples: &[Example],
) -> Result<(), Fail> {
    for (words, standard, files, out, messages) in examples {
        for size in sizes {
            let case = case_over(words, *standard, files, *size);
            expect(rt, alloc, &case, out.as_bytes(), messages)?;
        }
    }
    Ok(())
}

/// A command, its output, and its messages.
pub type CaseExample = (Case<'static>, &'static str, &'static str);

/// Runs each of these commands.
pub fn expect_cases(rt: &impl Abort, alloc: Global, runs: &[CaseExample]) -> Result<(), Fail> {
    for (case, out, messages) in runs {
        expect(rt, alloc, case, out.as_bytes(), messages)?;
    }
    Ok(())
}

/// A command, its message after a failed write, and the limits of its output in each run, with what is written: the
/// most bytes per call, the most bytes in all, and the number of calls that succeed. The last call is a flush.
pub type WriteFailures = (
    Case<'static>,
    &'static str,
    &'static [(usize, usize, u64, &'static str)],
);

/// Runs each of these commands over an output with limits.
pub fn expect_write_failures(
    rt: &impl Abort,
    alloc: Global,
    commands: &[WriteFailures],
) -> Result<(), Fail> {
    for (case, message, runs) in commands {
        for (size, room, passing, out) in *runs {
            let out_limits = Limits {
                size: *size,
                room: *room,
                passing: *passing,
            };
            let case = Case {
                out: out_limits,
                ..*case
            };
            expect(rt, alloc, &case, out.as_bytes(), message)?;
        }
    }
    Ok(())
}

/// A command, its output, its messages, and the number of calls of its output sink.
pub type CallCount = (Case<'static>, &'static str, &'static str, u64);

/// Runs each of these commands and counts the calls of its output sink. No line may be held.
pub fn expect_calls(rt: &impl Abort, alloc: Global, commands: &[CallCount]) -> Result<(), Fail> {
    for (case, out, messages, calls) in commands {
        let report = run_over(rt, alloc, alloc, case)?;
        assert_outcome(rt, case.words, &report, out.as_bytes(), messages);
        assert_same_for(rt, &case.words, &report.out.calls(), calls);
        assert_same_for(rt, &case.words, &report.peak, &0);
    }
    Ok(())
}

/// Runs a command over a long text in standard input, with reads of each size. At most `held` bytes of lines may be
/// held. `length` is printed if the test fails.
pub fn expect_long<'a>(
    rt: &impl Abort,
    alloc: Global,
    words: &'a [&'a str],
    (length, text): (usize, &'a [u8]),
    out: &[u8],
    held: u128,
) -> Result<(), Fail> {
    for size in PIECE_SIZES {
        let case = case_over(words, Input::Text(text), &[], *size);
        let report = run_over(rt, alloc, alloc, &case)?;
        let of = (length, *size);
        assert_for(rt, &of, report.out.bytes() == out);
        let said = report.messages.bytes().len();
        assert_same_for(rt, &of, &(report.status, said), &(0, 0));
        assert_for(rt, &of, report.peak <= held && !report.denied);
    }
    Ok(())
}

/// A command, its output, its messages, the message if memory runs out, and whether the run itself needs no memory.
pub type GrowthFailures = (
    Case<'static>,
    &'static str,
    &'static str,
    &'static str,
    bool,
);

// Lets the allocation after the first `passing` fail, and returns whether there was one.
fn growth_fails(
    rt: &impl Abort,
    test_alloc: Global,
    (case, out, messages, refusal, streams): &GrowthFailures,
    passing: u64,
) -> Result<bool, Fail> {
    let alloc = FailingAlloc::after(test_alloc, passing);
    let report = run_over(rt, &alloc, test_alloc, case)?;
    let refused = alloc.refused();
    if refused {
        let most = if *streams { "" } else { *out };
        assert_memory_message(rt, case.words, &report, (most, refusal), passing);
    } else {
        assert_outcome(rt, case.words, &report, out.as_bytes(), messages);
    }
    assert_for(rt, &(case.words, passing), !*streams || report.peak == 0);
    Ok(refused)
}

// A prefix of `most` was written, and `refusal` is the message.
fn assert_memory_message(
    rt: &impl Abort,
    words: &[&str],
    report: &Report<VecSink, VecSink>,
    (most, refusal): (&str, &str),
    passing: u64,
) {
    let of = (words, passing);
    assert_for(rt, &of, most.as_bytes().starts_with(report.out.bytes()));
    assert_same_for(rt, &of, &report.messages.bytes(), &refusal.as_bytes());
    assert_same_for(rt, &of, &report.status, &1);
}

/// Lets each allocation of these commands fail in turn. There must be fewer than 40 of them. A run that needs no memory
/// holds no line, and it writes nothing if the parsing of its arguments runs out of memory.
pub fn expect_growth_failures(
    rt: &impl Abort,
    test_alloc: Global,
    commands: &[GrowthFailures],
) -> Result<(), Fail> {
    for command in commands {
        let mut count = 0u64;
        for passing in 0..40u64 {
            if growth_fails(rt, test_alloc, command, passing)? {
                count = count.saturating_add(1);
            }
        }
        assert_for(rt, &(command.0.words, count), count > 0 && count < 40);
    }
    Ok(())
}

/// The number of allocations that a command needs. It must succeed.
pub fn allocations(rt: &impl Abort, test_alloc: Global, case: &Case<'_>) -> Result<u64, Fail> {
    let counted = FailingAlloc::after(test_alloc, u64::MAX);
    let report = run_over(rt, &counted, test_alloc, case)?;
    assert_same_for(rt, &case.words, &report.status, &0);
    Ok(u64::MAX - counted.left())
}
