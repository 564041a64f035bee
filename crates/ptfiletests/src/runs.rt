//! Tests of runs over named files: their output, to standard output and to a file, their messages, and what is not
//! created or opened if the input or the words are wrong.

ghost use Rattle.ptfakes.specs.FakeSink.{sink_state};
ghost use Rattle.ptfiletests.specs.NamedFiles.{RunNamedPost};
ghost use Rattle.ptopts.specs.Commands.{words_view};
ghost use Rattle.ptrun.specs.Runs.{outcome};

use crate::named_files::NamedFiles;
use ptfakes::VecSink;
use ptfiles::{Bytes, FilesReport, run_over_files};
use ptlines::Store;
use std::alloc::Global;
use std::process::Abort;

const FILES: &[(&str, &[u8])] = &[("f", b"a 1\nb 2\nb 2\n"), ("g", b"b 3\nc 4\n")];

type Run = FilesReport<VecSink, VecSink, VecSink>;

// Runs a command over named files.
fn run_over(alloc: Global, words: &[&str], files: &[(&str, &[u8])], standard: &[u8]) -> Run
    ensures { RunNamedPost (words_view words.now) files.now standard.now
        (outcome sink_state sink_state result.report) result.out_of_memory }
{
    let mut named = NamedFiles::new(alloc, files);
    run_over_files(
        alloc,
        &mut Store::empty(alloc),
        &mut named,
        words,
        Bytes::new(standard),
        VecSink::new(alloc),
        VecSink::new(alloc),
    )
}

// Runs a command over `FILES`. Standard input has the line `b 5`.
fn run_named(alloc: Global, words: &[&str]) -> Run {
    run_over(alloc, words, FILES, b"b 5\n")
}

// Compares the status, the output and the messages of a run.
fn assert_run(rt: &impl Abort, run: &Run, status: u8, out: &[u8], messages: &[u8]) {
    assert_eq!(rt; run.report.status, status);
    assert!(rt; run.report.out.bytes() == out);
    assert!(rt; run.report.messages.bytes() == messages);
}

#[test]
fn files_are_those_that_the_words_name(rt: HostRuntime) {
    let run = run_named(rt.alloc(), &["join", "g", "f"]);
    assert_run(&rt, &run, 0, b"b 3 2\nb 3 2\n", b"");
    let run = run_named(rt.alloc(), &["join", "-", "g"]);
    assert_run(&rt, &run, 0, b"b 5 3\n", b"");
}

#[test]
fn the_output_file_has_the_output(rt: HostRuntime) {
    let run = run_named(rt.alloc(), &["uniq", "f", "out"]);
    assert_run(&rt, &run, 0, b"", b"");
    let written = matches!(&run.file, Some(file) if file.bytes() == b"a 1\nb 2\n".as_slice());
    assert!(rt; written);
}

#[test]
fn an_output_file_that_cannot_be_created_is_named(rt: HostRuntime) {
    let run = run_named(rt.alloc(), &["uniq", "f", "folder/out"]);
    assert_run(&rt, &run, 1, b"", b"uniq: folder/out: cannot be opened\n");
    assert!(rt; run.file.is_none());
}

#[test]
fn no_output_file_is_created_without_an_input(rt: HostRuntime) {
    let run = run_named(rt.alloc(), &["uniq", "none", "out"]);
    assert_run(&rt, &run, 1, b"", b"uniq: none: cannot be opened\n");
    assert!(rt; run.file.is_none());
}

#[test]
fn refused_words_open_nothing(rt: HostRuntime) {
    let run = run_named(rt.alloc(), &["comm", "f"]);
    assert_run(&rt, &run, 2, b"", b"comm: wrong number of operands\n");
    assert!(rt; !run.out_of_memory);
}
