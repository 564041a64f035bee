//! Whole runs over bytes in memory, and over streams of the caller, for programs in C and in other languages. In
//! bindings/c, ptext.c and stream.c check the pointers that they are given, and call the functions here; ptext.h says
//! what callers owe.
#![tactic(auto)]

mod answer;
mod files;
mod given;
mod host;
mod memory;
mod naming;
mod running;

ghost use Rattle.ptfiles.specs.Calls.Streams.{HasGivenRun};
ghost use Rattle.ptfiles.specs.Shell.{MayFail};
ghost use Rattle.ptlines.specs.Private.Sinks.{hide_accepted};
ghost use Rattle.ptlines.specs.Private.Sources.{hide_left};
ghost use Rattle.ptrunc.specs.Calls.Given.{NamesGivenPost, RunGivenPost};
ghost use Rattle.ptrunc.specs.Calls.Streams.{unknown, unwritten};

use answer::{Answer, refuse};
use given::{are_ends, files_of};
use host::Caller;
use naming::write_names;
use ptfiles::{GivenRun, run_given_streams, words_of};
use ptlines::Store;
use running::run_in_memory;
use std::alloc::Global;

const NO_MEMORY: &str = "ptext: out of memory\n";

/// Runs a command over bytes in memory. Each word ends with byte 0. The files lie one after another in `files`, with
/// these ends; `usize::MAX` is the end of a file that cannot be opened.
#[unsafe(no_mangle)]
pub extern "C" fn ptext_run_in_memory(
    alloc: Global,
    words: &[u8],
    input: &[u8],
    files: &[u8],
    ends: &[usize],
    out: &mut [u8],
    messages: &mut [u8],
    answer: &mut Answer,
)
    ensures { RunGivenPost words.now input.now files.now ends.now out.new messages.new answer.new }
{
    *answer = run_given(alloc, words, input, files, ends, out, messages);
}

// Runs a command whose words and files are split first.
fn run_given(
    alloc: Global,
    words: &[u8],
    input: &[u8],
    files: &[u8],
    ends: &[usize],
    out: &mut [u8],
    messages: &mut [u8],
) -> Answer
    ensures { RunGivenPost words.now input.now files.now ends.now out.new messages.new result }
{
    let Ok(text) = str::from_utf8(words) else {
        return refuse(Some(2), "ptext: a word is not UTF-8\n", messages);
    };
    if !are_ends(ends, files.len()) {
        return refuse(
            Some(5),
            "ptext: the ends of the files are not in order\n",
            messages,
        );
    }
    let Ok(words) = words_of(alloc, text) else {
        return refuse(None, NO_MEMORY, messages);
    };
    match files_of(alloc, files, ends) {
        Ok(files) => run_in_memory(alloc, &words, input, &files, out, messages),
        Err(_) => refuse(None, NO_MEMORY, messages),
    }
}

/// Writes the names of the input files of a command to `names`, and that of its output file to `output`.
#[unsafe(no_mangle)]
pub extern "C" fn ptext_names_in_memory(
    alloc: Global,
    words: &[u8],
    names: &mut [u8],
    output: &mut [u8],
    answer: &mut Answer,
)
    ensures { NamesGivenPost words.now names.new output.new answer.new }
{
    *answer = name_given(alloc, words, names, output);
}

// Names the files of a command whose words are split first.
fn name_given(alloc: Global, words: &[u8], names: &mut [u8], output: &mut [u8]) -> Answer
    ensures { NamesGivenPost words.now names.new output.new result }
{
    let Ok(text) = str::from_utf8(words) else {
        return refuse(Some(0), "", output);
    };
    match words_of(alloc, text) {
        Ok(words) => write_names(alloc, &words, names, output),
        Err(_) => refuse(None, "", output),
    }
}

/// Runs a command over the streams of the caller, and returns the exit status, or 4 if memory ran out. Each word ends
/// with byte 0. `opened` has a byte for each file that the words name, which is 0 if it cannot be opened.
#[unsafe(no_mangle)]
pub extern "C" fn ptext_run_streams(alloc: Global, words: &[u8], opened: &[u8]) -> u8
    ensures { HasGivenRun hide_accepted words.now unknown (λ number. unwritten) opened.now result
        (MayFail hide_left hide_left) }
{
    let mut store = Store::empty(alloc);
    match run_given_streams(alloc, &mut store, &Caller, words, opened) {
        GivenRun::Ran(ran) => ran.status,
        GivenRun::Refused { status, .. } => status,
    }
}
