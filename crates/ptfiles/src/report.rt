//! `FilesReport`, the result of a run over files, and how `shell` builds one with a message: nothing is run if the words
//! are no command, if there is no memory, or if the output file cannot be created.

ghost use Rattle.std.specs.Prelude.{◌≡◌, false, true, None, codes, is_none};
ghost use Rattle.ptopts.specs.Commands.{words_view};
ghost use Rattle.ptopts.specs.View.{fault_view};
ghost use Rattle.ptrun.specs.Calls.Runs.{usage_message, usage_status};
ghost use Rattle.ptrun.specs.MessageWrites.{HasSaid};
ghost use Rattle.ptrun.specs.Messages.{memory_message, unopened_message};
ghost use Rattle.ptrun.specs.SpecOfArgs.{tool_name};

use ptlines::Sink;
use ptopts::UseFault;
use ptrun::{Report, report_not_run, report_refused};

/// The result of a run over files.
#[derive(Drop)]
pub struct FilesReport<W, F, E> {
    /// The report of the run. If standard output is not used, it is returned unchanged.
    pub report: Report<W, E>,
    /// The file that was created for the output, if one was.
    pub file: Option<F>,
    /// Whether memory ran out before the run: for the words, or for the list of the inputs.
    pub out_of_memory: bool,
}

impl<W: Sink, F, E: Sink> FilesReport<W, F, E> {
    /// Reports why words are no command.
    pub(crate) fn refused(words: &[&str], fault: UseFault<'_>, out: W, messages: E) -> Self
        requires { (E.state messages).failed ≡ false }
        ensures status { result.report.status ≡ usage_status (fault_view fault.entry) }
        ensures out_of_memory { result.out_of_memory ≡ is_none (fault_view fault.entry) }
        ensures memory { (result.report.peak ≡ 0) × (result.report.denied ≡ false) }
        ensures out { (result.report.out ≡ out) × (result.file ≡ None) }
        ensures has_said { HasSaid (E.state messages) (E.state result.report.messages)
            (usage_message (tool_name (words_view words.now)) (fault_view fault.entry)) }
    {
        FilesReport {
            out_of_memory: matches!(fault, UseFault::Memory),
            report: report_refused(words, fault, out, messages),
            file: None,
        }
    }

    /// Reports that memory for the list of the inputs could not be allocated.
    pub(crate) fn no_memory(out: W, messages: E) -> Self
        requires { (E.state messages).failed ≡ false }
        ensures status { (result.report.status ≡ 1) × (result.out_of_memory ≡ true) }
        ensures memory { (result.report.peak ≡ 0) × (result.report.denied ≡ false) }
        ensures out { (result.report.out ≡ out) × (result.file ≡ None) }
        ensures has_said { HasSaid (E.state messages) (E.state result.report.messages)
            (memory_message (codes "ptext")) }
    {
        FilesReport {
            report: report_not_run(1, &["ptext: out of memory"], out, messages),
            file: None,
            out_of_memory: true,
        }
    }

    /// Reports that the output file of `uniq` cannot be created.
    pub(crate) fn not_created(name: &str, out: W, messages: E) -> Self
        requires { (E.state messages).failed ≡ false }
        ensures status { (result.report.status ≡ 1) × (result.out_of_memory ≡ false) }
        ensures memory { (result.report.peak ≡ 0) × (result.report.denied ≡ false) }
        ensures out { (result.report.out ≡ out) × (result.file ≡ None) }
        ensures has_said { HasSaid (E.state messages) (E.state result.report.messages)
            (unopened_message (codes "uniq") name.now) }
    {
        let parts = ["uniq: ", name, ": cannot be opened"];
        FilesReport {
            report: report_not_run(1, &parts, out, messages),
            file: None,
            out_of_memory: false,
        }
    }
}
