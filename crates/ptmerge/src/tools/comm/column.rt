//! The columns of the output of `comm` (`Column`), and what `comm` writes of the lines of a merge.

ghost use Rattle.std.specs.Prelude.{◌≡◌, ◌++◌, false};
ghost use Rattle.ptlangs.specs.Jobs.{comm_job};
ghost use Rattle.ptlines.specs.Calls.Outputs.{PushPost};
ghost use Rattle.ptlines.specs.Text.{unlines};
ghost use Rattle.ptmerge.specs.Calls.Comm.{comm_tool};
ghost use Rattle.ptmerge.specs.Comm.{tab_if_shown};
ghost use Rattle.ptmerge.specs.Private.Comm.{IsColumn, hidden_of, lines_in, tabs_of};

use crate::key_order::Side;
use crate::merging::writer::MergeWriter;
use ptlangs::jobs::CommJob;
use ptlines::{Out, Sink, WriteFault};

// A tab for each of the first two columns.
const TABS: &[u8; 2] = b"\t\t";

// A column of the output: whether it is hidden, and the tabs before its lines, one for each column before it that is
// shown.
#[derive(Clone, Copy)]
struct Column {
    hidden: bool,
    tabs: &'static [u8],
}

impl Column {
    // Returns the column of the lines that only this input has.
    #[inline(always)]
    fn alone(job: CommJob, side: Side) -> Column
        ensures { IsColumn result (hidden_of (comm_job job) side) (tabs_of (comm_job job) side) }
    {
        let [hide1, hide2, _] = job.hide;
        match side {
            Side::First => Column {
                hidden: hide1,
                tabs: b"",
            },
            Side::Second => Column {
                hidden: hide2,
                tabs: &TABS[..usize::from(!hide1)],
            },
        }
    }

    // Returns the column of the lines that both inputs have.
    #[inline(always)]
    fn common(job: CommJob) -> Column
        ensures { let job = comm_job job in
            IsColumn result job.hide3 (tab_if_shown job.hide1 ++ tab_if_shown job.hide2) }
    {
        let [hide1, hide2, hide3] = job.hide;
        let count = usize::from(!hide1) + usize::from(!hide2);
        Column {
            hidden: hide3,
            tabs: &TABS[..count],
        }
    }

    // Writes a line after the tabs, unless the column is hidden.
    #[inline(always)]
    fn write<W: Sink>(self, line: &[u8], terminator: u8, out: &mut Out<W>) -> Result<(), WriteFault>
        requires { out.old.write_failed ≡ false }
        ensures { PushPost out.old out.new (unlines terminator (lines_in self line.now)) result }
    {
        if self.hidden {
            return Ok(());
        }
        out.push_line(self.tabs, line, &[terminator])
    }
}

impl MergeWriter for CommJob {
    ghost tool = { λ job. comm_tool (comm_job job) };

    #[inline(always)]
    fn is_pair_by_pair(self) -> bool {
        true
    }

    #[inline(always)]
    fn write_alone<W: Sink>(
        self,
        side: Side,
        _key: &[u8],
        line: &[u8],
        terminator: u8,
        out: &mut Out<W>,
    ) -> Result<(), WriteFault> {
        Column::alone(self, side).write(line, terminator, out)
    }

    #[inline(always)]
    fn write_both<W: Sink>(
        self,
        _key: &[u8],
        one: &[u8],
        _two: &[u8],
        terminator: u8,
        out: &mut Out<W>,
    ) -> Result<(), WriteFault> {
        Column::common(self).write(one, terminator, out)
    }
}
