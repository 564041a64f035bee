//! `perform`, which runs a command over real files, and the reports of words that are not run. `main` calls it.

ghost use Rattle.std.specs.Prelude.{◌≡◌, false, [], ◌∷◌, codes};
ghost use Rattle.ptlines.specs.Sources.{IsFresh};
ghost use Rattle.ptext.specs.Perform.{PerformPost};
ghost use Rattle.ptfiles.specs.Shell.{has_standard_output, valid_command};
ghost use Rattle.ptopts.specs.Commands.{command_of_args};
ghost use Rattle.ptopts.specs.Commands.{words_view};
ghost use Rattle.ptrun.specs.MessageWrites.{HasSaid, line_of};
ghost use Rattle.ptrun.specs.Calls.MessageWrites.{texts};
ghost use Rattle.ptrun.specs.Messages.{memory_message};
ghost use Rattle.ptrun.specs.Runs.{outcome};

use crate::system::SystemFiles;
use ptfiles::run_over_files;
use ptlines::{Sink, Source, Store};
use ptrun::{Report, report_not_run};
use std::alloc::Allocator;
use std::fs::Files;

/// Parses the words and runs the command over the files of the system, as `run_over_files` does.
///
/// The files that the words name are opened in their order, each once, before the command is run. The output file of
/// `uniq` is created, or emptied, after its input was opened; if the input cannot be opened or the words are not valid,
/// it is not created and nothing is written. `out` is returned unchanged unless the words mean a command that writes to
/// standard output. `standard` must have neither reached its end nor failed, and neither sink may have failed.
pub fn perform<'a, R: Files, A: Allocator + Copy, S: Source, W: Sink, E: Sink>(
    rt: &R,
    alloc: A,
    words: &'a [&'a str],
    standard: S,
    out: W,
    messages: E,
) -> Report<W, E>
    requires not_eof { (S.state standard).eof ≡ false }
    requires unfailed { (S.state standard).failed ≡ false }
    requires writable { (W.state out).failed ≡ false }
    requires messages_writable { (E.state messages).failed ≡ false }
    ensures out_unchanged { has_standard_output (valid_command (command_of_args (words_view words.now))) ≡ false
        → result.out ≡ out }
    ensures performed { PerformPost (words_view words.now) (S.state standard) (W.state out) (E.state messages)
        (result.out ≡ out) (outcome W.state E.state result) }
{
    let mut store = Store::empty(alloc);
    let mut files = SystemFiles::new(rt);
    run_over_files(
        alloc, &mut store, &mut files, words, standard, out, messages,
    )
    .report
}

/// Reports that memory for the words could not be allocated, with status 1.
pub fn report_no_memory<W: Sink, E: Sink>(out: W, messages: E) -> Report<W, E>
    requires { (E.state messages).failed ≡ false }
    ensures status { result.status ≡ 1 }
    ensures memory { (result.peak ≡ 0) × (result.denied ≡ false) }
    ensures out { result.out ≡ out }
    ensures has_said { HasSaid (E.state messages) (E.state result.messages) (memory_message (codes "ptext")) }
{
    report_not_run(1, &["ptext: out of memory"], out, messages)
}

/// Reports that a word is not UTF-8, with status 2: such words are never parsed.
pub fn report_not_utf8<W: Sink, E: Sink>(out: W, messages: E) -> Report<W, E>
    requires { (E.state messages).failed ≡ false }
    ensures status { result.status ≡ 2 }
    ensures memory { (result.peak ≡ 0) × (result.denied ≡ false) }
    ensures out { result.out ≡ out }
    ensures has_said { HasSaid (E.state messages) (E.state result.messages)
        (line_of (codes "ptext: a word is not UTF-8" ∷ [])) }
{
    report_not_run(2, &["ptext: a word is not UTF-8"], out, messages)
}

/// Reports that a standard stream is closed, and nothing could be opened in its place, with status 1.
pub fn report_closed_stream<W: Sink, E: Sink>(out: W, messages: E) -> Report<W, E>
    requires { (E.state messages).failed ≡ false }
    ensures status { result.status ≡ 1 }
    ensures memory { (result.peak ≡ 0) × (result.denied ≡ false) }
    ensures out { result.out ≡ out }
    ensures has_said { HasSaid (E.state messages) (E.state result.messages)
        (line_of (codes "ptext: a standard stream is closed, and nothing can take its place" ∷ [])) }
{
    report_not_run(
        1,
        &["ptext: a standard stream is closed, and nothing can take its place"],
        out,
        messages,
    )
}
