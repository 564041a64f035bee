//! Tests of runs over streams: what is written to the output, to the messages and to the output file of `uniq`, what
//! is said of words that are not run, and reads that fail.

ghost use Rattle.ptfiletests.specs.KnownStreams.{GivenKnownPost, bytes_of, numbered_state};

use crate::known_streams::{KnownStreams, NumberedSink};
use ptfakes::{ChunkedSource, FailingAlloc};
use ptfiles::{GivenRun, Host, run_given_streams};
use ptlines::Store;
use std::alloc::Global;
use std::process::Abort;

type Ended = GivenRun<NumberedSink>;

// A command, its streams, a byte for each file, the status, the output and the messages.
type Example = (
    &'static [u8],
    &'static [&'static [u8]],
    &'static [u8],
    u8,
    &'static [u8],
    &'static [u8],
);

const F: &[u8] = b"a 1\nb 2\n";

const G: &[u8] = b"b 3\nc 4\n";

// The output is that of GNU coreutils 9.1, but for the form of the counts of `uniq`, which POSIX fixes.
const EXAMPLES: &[Example] = &[
    (
        b"cut\0-d:\0-f1,3\0",
        &[b"a:b:c\nd\n"],
        b"",
        0,
        b"a:c\nd\n",
        b"",
    ),
    (b"tr\0a-y\0b-z\0", &[b"hello"], b"", 0, b"ifmmp", b""),
    (b"uniq\0-c\0", &[b"x\nx\ny\n"], b"", 0, b"2 x\n1 y\n", b""),
    (
        b"join\0f\0g\0",
        &[b"", b"", b"", F, G],
        b"\x01\x01",
        0,
        b"b 2 3\n",
        b"",
    ),
    (
        b"comm\0-\0f\0",
        &[b"a\nb\n", b"", b"", b"b\nc\n"],
        b"\x01",
        0,
        b"a\n\t\tb\n\tc\n",
        b"",
    ),
    (
        b"paste\0-d,\0-\0f\0",
        &[b"one\ntwo\n", b"", b"", G],
        b"\x01",
        0,
        b"one,b 3\ntwo,c 4\n",
        b"",
    ),
    // A file cannot be opened if its byte is 0 or not there, even if its stream has text.
    (
        b"cut\0-c1\0f\0g\0",
        &[b"", b"", b"", F, G],
        b"\0\x01",
        1,
        b"b\nc\n",
        b"cut: f: cannot be opened\n",
    ),
    (
        b"cut\0-c1\0f\0g\0",
        &[b"", b"", b"", F, G],
        b"\x01",
        1,
        b"a\nb\n",
        b"cut: g: cannot be opened\n",
    ),
    (
        b"comm\0f\0",
        &[b"", b"", b"", F],
        b"\x01",
        2,
        b"",
        b"comm: wrong number of operands\n",
    ),
];

// Runs a command over streams of these bytes.
fn run_known(alloc: Global, words: &[u8], streams: &[&[u8]], opened: &[u8]) -> Ended
    ensures { GivenKnownPost numbered_state words.now (bytes_of streams.now) opened.now result }
{
    let mut store = Store::empty(alloc);
    run_given_streams(
        alloc,
        &mut store,
        &KnownStreams::new(alloc, streams),
        words,
        opened,
    )
}

// Returns whether this was written to the stream with this number.
fn is_written(sink: &NumberedSink, number: usize, bytes: &[u8]) -> bool {
    sink.number() == number && sink.bytes() == bytes
}

// Compares a status, an output and messages with those of a run.
fn assert_ran(rt: &impl Abort, ended: &Ended, status: u8, out: &[u8], messages: &[u8]) {
    match ended {
        GivenRun::Ran(ran) => {
            assert_eq!(rt; ran.status, status);
            assert!(rt; is_written(&ran.files.report.out, 1, out));
            assert!(rt; is_written(&ran.files.report.messages, 2, messages));
        }
        GivenRun::Refused { .. } => assert!(rt; false),
    }
}

// Compares a status and a message with those of words that were not run.
fn assert_refused(rt: &impl Abort, ended: &Ended, expected: u8, message: &[u8]) {
    match ended {
        GivenRun::Ran(_) => assert!(rt; false),
        GivenRun::Refused { status, messages } => {
            assert_eq!(rt; *status, expected);
            assert!(rt; is_written(messages, 2, message));
        }
    }
}

#[test]
fn streams_are_read_and_written_by_their_numbers(rt: HostRuntime) {
    for (words, streams, opened, status, out, messages) in EXAMPLES {
        let ended = run_known(rt.alloc(), words, streams, opened);
        assert_ran(&rt, &ended, *status, out, messages);
    }
}

#[test]
fn the_output_file_of_uniq_is_the_output(rt: HostRuntime) {
    let streams: [&[u8]; 4] = [b"", b"", b"", b"a b\na b\na c\n"];
    let ended = run_known(rt.alloc(), b"uniq\0f\0out\0", &streams, b"\x01");
    assert_ran(&rt, &ended, 0, b"", b"");
    let is_created = match &ended {
        GivenRun::Ran(ran) => match &ran.files.file {
            Some(file) => is_written(file, 1, b"a b\na c\n"),
            None => false,
        },
        GivenRun::Refused { .. } => false,
    };
    assert!(rt; is_created);
}

#[test]
fn words_that_are_not_run_are_reported(rt: HostRuntime) {
    let ended = run_known(rt.alloc(), b"cut\0-c\xff\0", &[b"a\n"], b"");
    assert_refused(&rt, &ended, 2, b"ptext: a word is not UTF-8\n");
    // If a request of a list is denied, it makes a second one, for less.
    let second = FailingAlloc::after(rt.alloc(), 0);
    let first = FailingAlloc::after(&second, 0);
    let host = KnownStreams::new(rt.alloc(), &[b"a\n"]);
    let mut store = Store::empty(rt.alloc());
    let ended = run_given_streams(&first, &mut store, &host, b"cut\0-c1\0", b"");
    assert_refused(&rt, &ended, 4, b"ptext: out of memory\n");
}

// A host of one stream, of which the reads after the first `ok_calls` fail. Each read has at most four bytes.
#[derive(Drop)]
struct FailingStream<'a> {
    alloc: Global,
    bytes: &'a [u8],
    ok_calls: u64,
}

impl<'a> Host for FailingStream<'a> {
    ghost use Rattle.std.specs.Prelude.{Some};
    ghost use Rattle.ptfiletests.specs.KnownStreams.{new_output};

    type Input = ChunkedSource<'a>;

    type Output = NumberedSink;

    ghost content = { λ host number. Some host.bytes.now };

    ghost output = { new_output };

    fn input(&self, _number: usize) -> ChunkedSource<'a> {
        ChunkedSource::new(self.bytes, 4, self.ok_calls)
    }

    fn output(&self, number: usize) -> NumberedSink {
        NumberedSink::new(self.alloc, number)
    }
}

#[test]
fn a_failed_read_is_reported(rt: HostRuntime) {
    for (ok_calls, out) in [(0, b"".as_slice()), (1, b"a\nb\n"), (2, b"a\nb\nc\n")] {
        let host = FailingStream {
            alloc: rt.alloc(),
            bytes: b"a\nb\nc\n",
            ok_calls,
        };
        let mut store = Store::empty(rt.alloc());
        let ended = run_given_streams(rt.alloc(), &mut store, &host, b"cut\0-c1\0", b"");
        assert_ran(&rt, &ended, 1, out, b"cut: standard input: read failed\n");
    }
}
