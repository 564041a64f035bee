//! A whole run over bytes in memory. `ptext_run_in_memory` calls it.

ghost use Rattle.std.specs.Prelude.{◌≡◌, ◌⊎◌, false, None};
ghost use Rattle.ptopts.specs.Commands.{words_view};
ghost use Rattle.ptrunc.specs.Inputs.{files_view, inputs_for};
ghost use Rattle.ptrunc.specs.Private.Answers.{ExitPost};
ghost use Rattle.ptrunc.specs.Private.Rooms.{AppendPost};
ghost use Rattle.ptrunc.specs.Results.{IsRunInMemory};

use crate::answer::Answer;
use crate::files::MemoryFiles;
use crate::memory::{Filling, Kept, Room};
use ptfiles::{Bytes, FilesReport, run_over_files};
use ptlines::{Store, write_out};
use ptrun::Report;
use std::alloc::Allocator;
use std::mem;

/// Runs a command over inputs in memory. `input` is standard input, and `files` are the files that the words name, in
/// their order; `None` is a file that cannot be opened. Files that are not given cannot be opened, and files after
/// those that the words name are ignored. Also the output of `uniq` goes to `out`.
///
/// Unless memory runs out, which is status 4, the output, the messages and the status are those that the words mean.
/// If there is too little room, both rooms hold as much as fits, the answer counts the rest, and the status is 3.
/// If memory runs out, what was written of the output is a prefix of it.
pub fn run_in_memory<A: Allocator + Copy + Drop>(
    alloc: A,
    words: &[&str],
    input: &[u8],
    files: &[Option<&[u8]>],
    out: &mut [u8],
    messages: &mut [u8],
) -> Answer
    ensures { IsRunInMemory (words_view words.now) (inputs_for (words_view words.now) input.now (files_view files.now))
        out.new messages.new result }
{
    let mut out = Room::new(out);
    let mut messages = Room::new(messages);
    run_into(alloc, words, input, files, &mut out, &mut messages)
}

// Runs a command into two rooms, as `run_in_memory` does.
fn run_into<'a, A: Allocator + Copy + Drop>(
    alloc: A,
    words: &[&str],
    input: &[u8],
    files: &[Option<&[u8]>],
    out: &mut Room<'a>,
    messages: &mut Room<'a>,
) -> Answer
    requires out_is_empty { out.old.written ≡ 0 }
    requires messages_are_empty { messages.old.written ≡ 0 }
    ensures same_out { out.new.bytes.ghost_name ≡ out.old.bytes.ghost_name }
    ensures same_messages { messages.new.bytes.ghost_name ≡ messages.old.bytes.ghost_name }
    ensures run { IsRunInMemory (words_view words.now)
        (inputs_for (words_view words.now) input.now (files_view files.now)) out.new.bytes.now messages.new.bytes.now
        result }
{
    let mut store = Store::empty(alloc);
    let mut memory = MemoryFiles::new(alloc, files);
    let FilesReport {
        mut report,
        file,
        out_of_memory,
    } = run_over_files(
        alloc,
        &mut store,
        &mut memory,
        words,
        Bytes::new(input),
        Filling::new(mem::replace(out, Room::new(&mut []))),
        Filling::new(mem::replace(messages, Room::new(&mut []))),
    );
    let out_failed = append_file(&mut report.out, file);
    let exit = exit_of(&report, out_of_memory, out_failed);
    let answer = Answer::new(exit, report.out.part(), report.messages.part());
    let _empty = mem::replace(out, report.out.into_room());
    let _empty = mem::replace(messages, report.messages.into_room());
    answer
}

// Returns the exit status of a run, or `None` if memory ran out before it, in it, or in a write: a write fails only for
// want of memory, or if what has no room is too much to be counted.
fn exit_of(
    report: &Report<Filling<'_>, Filling<'_>>,
    out_of_memory: bool,
    out_failed: bool,
) -> Option<u8>
    ensures { ExitPost report.now.status out_of_memory report.now.denied out_failed report.now.messages.rest.failed
        result }
{
    if out_of_memory || report.denied || out_failed || report.messages.rest.failed {
        return None;
    }
    Some(report.status)
}

// Appends the file that was created for the output, if there is one. Returns whether a write of the output has failed.
fn append_file<A: Allocator + Drop>(out: &mut Filling<'_>, file: Option<Kept<A>>) -> bool
    requires { (file ≡ None) ⊎ (out.old.rest.failed ≡ false) }
    ensures { AppendPost out.old out.new file result }
{
    let Some(file) = file else {
        return out.rest.failed;
    };
    match write_out(out, &file.bytes) {
        Ok(()) => file.failed,
        Err(_) => true,
    }
}
