//! After a failed write nothing more is read. The reads of standard input are counted.

ghost use Rattle.std.specs.Prelude.{◌≡◌, ◌+◌, false, All, vec_len};
ghost use Rattle.ptrun.specs.Files.{IsNewOrUnopened};

use crate::asserts::{assert_for, assert_same_for};
use crate::harness::files_named;
use ptfakes::{ChunkedSource, CountedSource, VecSink};
use ptlines::LineReader;
use ptopts::Command;
use ptrun::{Report, run};
use std::alloc::Global;
use std::cell::Cell;
use std::process::Abort;

// Three lines, one per read.
fn lines(pulls: &Cell<u64>) -> LineReader<CountedSource<'_, ChunkedSource<'_>>, ChunkedSource<'_>>
    ensures { IsNewOrUnopened result }
{
    LineReader::standard(CountedSource::new(ChunkedSource::new(b"a\nb\nc\n", 2, u64::MAX), pulls))
}

// Runs a command over these lines; its output sink takes at most `room` bytes.
fn run_with_room(
    rt: &impl Abort,
    alloc: Global,
    words: &[&str],
    room: usize,
    pulls: &Cell<u64>,
) -> Report<VecSink, VecSink> {
    let command = Command::read(alloc, &*words);
    let named = files_named(&command);
    assert!(rt; named == 0);
    let out = VecSink::limited(alloc, usize::MAX, room, u64::MAX);
    let mut inputs = [lines(pulls)];
    run(
        alloc,
        command,
        &*words,
        &mut inputs,
        out,
        VecSink::new(alloc),
    )
}

// If the output fails at its first byte, `lines` lines were read by then, and one more if it fails at the third. If it
// does not fail, all three lines are read, and the end.
fn expect_reads(rt: &impl Abort, alloc: Global, words: &[&str], lines: u64) {
    for (room, expected, status) in [
        (0, lines, 1),
        (2, lines.saturating_add(1), 1),
        (usize::MAX, 4, 0),
    ] {
        let pulls = Cell::new(0);
        let report = run_with_room(rt, alloc, words, room, &pulls);
        assert_same_for(rt, &words, &pulls.get(), &expected);
        assert_same_for(rt, &words, &report.status, &status);
        assert_for(rt, &words, report.out.bytes().len() <= room);
    }
}

// The arguments, and the number of lines that are read before the first byte is written.
const COMMANDS: &[(&[&str], u64)] = &[
    (&["cut", "-b", "1"], 1),
    (&["cut", "-f", "1"], 1),
    (&["tr", "a", "x"], 1),
    // A run of equal lines is decided once the line after it is read.
    (&["uniq"], 2),
    (&["paste", "-s", "-"], 1),
    (&["paste", "-"], 1),
];

#[test]
fn nothing_is_read_after_a_failed_write(rt: HostRuntime) {
    for (words, lines) in COMMANDS {
        expect_reads(&rt, rt.alloc(), words, *lines);
    }
}
