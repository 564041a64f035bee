//! `run_over_files`, the entry point of the crate. It parses the words, opens the files that these name, decides where
//! the command writes, creates its output file, and runs it.

ghost use Rattle.std.specs.Prelude.{◌≡◌, false, IfOk, OnErr};
ghost use Rattle.std.specs.List.{list_any};
ghost use Rattle.ptlines.specs.Sources.{IsFresh};
ghost use Rattle.ptopts.specs.Commands.{words_view};
ghost use Rattle.ptrun.specs.Runs.{outcome};
ghost use Rattle.ptfiles.specs.Files.{IsNewInput, created_state, reader_of_input};
ghost use Rattle.ptfiles.specs.Private.Files.{opened_state};
ghost use Rattle.ptfiles.specs.Shell.{MayFail, RunOverFilesPost, after, before, empty_store};
ghost use Rattle.ptfiles.specs.Private.Shell.{HaveOpened};

use crate::failures::failures_are_of_sources;
use crate::files::Files;
use crate::output::{Output, Target};
use crate::report::FilesReport;
use ptlines::{LineReader, Out, Sink, Source, Store};
use ptopts::Command;
use ptrun::{Messages, report_of, run_with_store};
use std::alloc::{AllocError, Allocator};

/// Parses the words and runs the command: opens the files that they name, in order, each once, then runs the command over
/// them, and returns the report of the run. A file that cannot be opened is reported by the run when the tool reaches it.
/// If the words are not valid, no file is opened.
///
/// The output file of `uniq` is created after its input was opened. If the input cannot be opened, it is not created.
/// If it cannot be created, this is reported with status 1, and the command is not run. No other file is created.
/// Standard output is returned unchanged unless the words mean a command that writes to it. A file that is input and
/// output is emptied before it is read (POSIX leaves this unspecified).
///
/// The store must be that of `Store::empty`. The peak in the report, and whether memory was denied, are the store's own.
/// `alloc` allocates the lists of the words and of the inputs. It is of a type of its own, so that no other store can be
/// made here.
pub fn run_over_files<
    A: Allocator + Copy,
    B: Allocator + Copy,
    F: Files,
    S: Source,
    W: Sink,
    E: Sink,
>(
    alloc: B,
    store: &mut Store<A>,
    files: &mut F,
    words: &[&str],
    standard: S,
    out: W,
    messages: E,
) -> FilesReport<W, F::Output, E>
    requires fresh { IsFresh (S.state standard) }
    requires empty { store.old ≡ empty_store }
    requires writable { (W.state out).failed ≡ false }
    requires messages_writable { (E.state messages).failed ≡ false }
    ensures { RunOverFilesPost (words_view words.now)
        (before (F.state files.old) (S.state standard) (W.state out) (E.state messages) store.old)
        (after (F.state files.new) store.new (created_state F.Output.state result.file) result.out_of_memory
        (outcome W.state E.state result.report)) (result.report.out ≡ out) (MayFail S.state F.Input.state) }
{
    let command = match Command::read(alloc, words) {
        Ok(command) => command,
        Err(fault) => return FilesReport::refused(words, fault, out, messages),
    };
    let operands = command.inputs();
    let mut readers = match open_inputs(alloc, files, &operands.names, standard) {
        Ok(readers) => readers,
        Err(_) => return FilesReport::no_memory(out, messages),
    };
    let inputs = &mut *readers;
    // The output file is created only if all inputs could be opened.
    let (target, unused) = match operands.output {
        None => (Target::Standard(out), None),
        Some(_) if is_any_unopened(inputs) => (Target::Nowhere { failed: false }, Some(out)),
        Some(name) => match files.create(name) {
            Some(file) => (Target::File(file), Some(out)),
            None => return FilesReport::not_created(name, out, messages),
        },
    };
    let mut output = Out::new(Output::new(target));
    let mut messages = Messages::new(messages);
    let status = run_with_store(store, &command, inputs, &mut output, &mut messages);
    failures_are_of_sources(inputs);
    let (out, file) = output.into_sink().into_parts(unused);
    FilesReport {
        report: report_of(store, status, out, messages.into_sink()),
        file,
        out_of_memory: false,
    }
}

// Creates the readers of standard input and of the files with these names, also of those that cannot be opened.
fn open_inputs<A: Allocator, F: Files, S: Source>(
    alloc: A,
    files: &mut F,
    names: &[&str],
    standard: S,
) -> Result<Vec<LineReader<S, F::Input>, A>, AllocError>
    requires { IsFresh (S.state standard) }
    ensures opened { IfOk result (λ readers. HaveOpened (F.state files.old) (F.state files.new)
        (words_view names.now) (S.state standard) readers.items) }
    ensures not_opened { OnErr result (F.state files.new ≡ F.state files.old) }
{
    let mut readers = Vec::with_capacity(alloc, names.len() + 1)?;
    readers.push_reserved(LineReader::standard(standard));
    for name in names {
        readers.push_reserved(reader_of(files.open(name)));
    }
    Ok(readers)
}

// Creates the reader of a file that was opened, or could not be opened.
fn reader_of<S: Source, R: Source>(input: Option<R>) -> LineReader<S, R>
    requires { IsNewInput (opened_state R.state input) }
    ensures { result ≡ reader_of_input (opened_state R.state input) }
{
    match input {
        Some(source) => LineReader::file(source),
        None => LineReader::refused(),
    }
}

// Returns whether an input could not be opened.
fn is_any_unopened<S: Source, R: Source>(inputs: &[LineReader<S, R>]) -> bool
    ensures { result ≡ list_any (λ r. r.refused) inputs.now }
{
    inputs.iter().any(|input| input.is_refused())
}
