//! Runs over numbered streams: the trait `Host` of whoever has them, the streams as files (`StreamFiles`),
//! `run_streams`, and `run_given_streams`, which takes the words as bytes. The library for C calls the latter.

ghost use Rattle.std.specs.Prelude.{◌≡◌, ℕ, List, [], ◌∷◌, Option, Some, All, false, length, min};
ghost use Rattle.ptfiles.specs.Files.{IsContent, created_state};
ghost use Rattle.ptfiles.specs.Shell.{MayFail, empty_store};
ghost use Rattle.ptlines.specs.Sinks.{SinkState};
ghost use Rattle.ptlines.specs.Sources.{IsFresh};
ghost use Rattle.ptfiles.specs.Private.Files.{IsNewOutput, opened_state};
ghost use Rattle.ptopts.specs.Commands.{words_view};
ghost use Rattle.ptrun.specs.MessageWrites.{HasSaid, line_of};
ghost use Rattle.ptrun.specs.Runs.{outcome};
ghost use Rattle.ptfiles.specs.Calls.Streams.{GivenStreamsPost, RunStreamsPost, file_content, known};
ghost use Rattle.ptfiles.specs.Calls.Streams.{status_unless_memory, stream_files};
ghost use Rattle.ptfiles.specs.Private.Streams.{IsStream, OpenedPost};

use crate::calls::Calls;
use crate::files::Files;
use crate::report::FilesReport;
use crate::shell::run_over_files;
use crate::words::words_of;
use ptlines::{Sink, Source, Store};
use ptrun::say;
use std::alloc::Allocator;

const INPUT: usize = 0;

const OUTPUT: usize = 1;

const MESSAGES: usize = 2;

const FIRST_FILE: usize = 3;

/// Whoever has the streams of a run, by number: 0 is standard input, 1 the output, 2 the messages, and 3 + i the file
/// with index i.
pub trait Host {
    /// A stream that is read.
    type Input: Source;

    /// A stream that is written to.
    type Output: Sink;

    /// The bytes of the stream with a number, if they are known: those of a real one are not.
    ghost content: { Self → ℕ → Option (List ℕ) };

    /// The state of the stream with a number before its first write.
    ghost output: { ℕ → SinkState };

    /// Returns the stream with this number, of which nothing was read yet.
    fn input(&self, number: usize) -> Self::Input
        ensures content { IsContent (known (content self.now number)) (Some (Self.Input.state result)) }
        ensures is_new { IsFresh (Self.Input.state result) };

    /// Returns the stream with this number, to which nothing was written yet.
    fn output(&self, number: usize) -> Self::Output
        ensures state { Self.Output.state result ≡ output number }
        ensures is_new { IsNewOutput (Some (Self.Output.state result)) };
}

/// The streams of a host as files. Each call of `open` opens the next one, regardless of its name, if its byte in
/// `opened` is there and not 0. A created file is the output.
#[derive(Drop)]
pub struct StreamFiles<'a, H: Host> {
    host: &'a H,
    opened: &'a [u8],
    next: usize,
    opens: Calls<Option<H::Input>>,
    creates: Calls<Option<H::Output>>,
    ghost next_is: { next ≡ min (length opens.names) (length opened.now) },
    ghost all_output: { All (IsStream H.Output.state (H.output 1)) creates.results },
}

impl<'a, H: Host> StreamFiles<'a, H> {
    /// No file was opened or created yet.
    pub fn new(host: &'a H, opened: &'a [u8]) -> Self
        ensures { ⟦<StreamFiles<'a, H> as Files>⟧.state result ≡ stream_files (H.content host.entry.now) opened.entry.now }
    {
        StreamFiles {
            host,
            opened,
            next: 0,
            opens: Calls::new(),
            creates: Calls::new(),
        }
    }
}

impl<H: Host> Files for StreamFiles<'_, H> {
    ghost use Rattle.std.specs.Prelude.{map, option_map};

    type Input = H::Input;

    type Output = H::Output;

    ghost state = { λ s. record {
      opened = s.opens.names;
      inputs = map (option_map H.Input.state) s.opens.results;
      created = s.creates.names;
      outputs = map (option_map H.Output.state) s.creates.results;
      content = λ count name. file_content (H.content s.host.now) s.opened.now count;
    } };

    fn open(&mut self, name: &str) -> Option<H::Input> {
        let file = open_stream(self.host, self.opened, self.next);
        self.next = (self.next + 1).min(self.opened.len());
        self.opens = self.opens.with(name, &file);
        file
    }

    fn create(&mut self, name: &str) -> Option<H::Output> {
        let file = Some(self.host.output(OUTPUT));
        self.creates = self.creates.with(name, &file);
        file
    }
}

// Returns the stream of the file with this index, unless its byte is 0 or not there.
fn open_stream<H: Host>(host: &H, opened: &[u8], index: usize) -> Option<H::Input>
    ensures { OpenedPost (file_content (H.content host.now) opened.now index) (opened_state H.Input.state result) }
{
    match opened.get(index) {
        Some(byte) if *byte != 0 => Some(host.input(FIRST_FILE + index)),
        _ => None,
    }
}

/// The result of a run over streams.
#[derive(Drop)]
pub struct StreamsReport<O> {
    /// The exit status, or 4 if memory ran out.
    pub status: u8,
    /// The report of the run over the streams as files.
    pub files: FilesReport<O, O, O>,
}

/// The end of a run over streams whose words are bytes.
#[derive(Drop)]
pub enum GivenRun<O> {
    /// The command was run.
    Ran(StreamsReport<O>),
    /// The words were not run. A message about them was written to `messages`, and nothing to another stream.
    Refused { status: u8, messages: O },
}

/// Runs a command whose words each end with byte 0 over the streams of a host, like `run_streams`. If the words are not
/// UTF-8, or there is no memory for them, only a message is written, and the exit status is 2 or 4.
pub fn run_given_streams<A: Allocator + Copy, B: Allocator + Copy, H: Host>(
    alloc: B,
    store: &mut Store<A>,
    host: &H,
    words: &[u8],
    opened: &[u8],
) -> GivenRun<H::Output>
    requires { store.old ≡ empty_store }
    ensures { GivenStreamsPost H.Output.state words.now (H.content host.now) H.output opened.now store.old store.new
        result (MayFail H.Input.state H.Input.state) }
{
    let Ok(text) = str::from_utf8(words) else {
        return GivenRun::Refused {
            status: 2,
            messages: refuse(host.output(MESSAGES), "ptext: a word is not UTF-8"),
        };
    };
    match words_of(alloc, text) {
        Ok(words) => GivenRun::Ran(run_streams(alloc, store, host, &words, opened)),
        Err(_) => GivenRun::Refused {
            status: 4,
            messages: refuse(host.output(MESSAGES), "ptext: out of memory"),
        },
    }
}

// Writes a message about words that are not run, and returns its stream.
fn refuse<W: Sink>(mut messages: W, text: &str) -> W
    requires { (W.state messages).failed ≡ false }
    ensures { HasSaid (W.state messages) (W.state result) (line_of (text.now ∷ [])) }
{
    let _ = say(&mut messages, &[text]);
    messages
}

/// Runs a command over the streams of a host, as `run_over_files` does. `opened` has a byte for each file that the words
/// name, in their order, which is 0 if it cannot be opened; so is a file without a byte. The output file of `uniq` is the
/// stream of the output.
pub fn run_streams<A: Allocator + Copy, B: Allocator + Copy, H: Host>(
    alloc: B,
    store: &mut Store<A>,
    host: &H,
    words: &[&str],
    opened: &[u8],
) -> StreamsReport<H::Output>
    requires { store.old ≡ empty_store }
    ensures { RunStreamsPost H.Output.state (words_view words.now) (H.content host.now) H.output opened.now
        store.old store.new result.status (created_state H.Output.state result.files.file) result.files.out_of_memory
        (outcome H.Output.state H.Output.state result.files.report) result.files.report.out
        (MayFail H.Input.state H.Input.state) }
{
    let mut files = StreamFiles::new(host, opened);
    let standard = host.input(INPUT);
    let out = host.output(OUTPUT);
    let messages = host.output(MESSAGES);
    let report = run_over_files(alloc, store, &mut files, words, standard, out, messages);
    StreamsReport {
        status: status_of(&report),
        files: report,
    }
}

// Returns the status of a run, or 4 if memory ran out before it or in it.
fn status_of<W, F, E>(run: &FilesReport<W, F, E>) -> u8
    ensures { result ≡ status_unless_memory run.now.report.status run.now.out_of_memory run.now.report.denied }
{
    if run.out_of_memory || run.report.denied {
        4
    } else {
        run.report.status
    }
}
