//! The loop of the tools that work line by line and keep lines in slots of a store: `cut` by fields keeps one line,
//! and `uniq` two. `LineFilter` is the trait that such a tool implements, and `run_lines` runs it over a reader.

ghost use Rattle.std.specs.Prelude.{◌≡◌, ◌≤◌, ◌-◌, ◌^◌, ℕ, List, ◌∷◌, [], length, false, IfOk, OnOk, OnErr};
ghost use Rattle.ptlines.specs.Calls.Outputs.{PushPost};
ghost use Rattle.ptlines.specs.Slots.{Slots};
ghost use Rattle.ptlines.specs.Calls.Slots.{line};
ghost use Rattle.ptlines.specs.Text.{complete_lines};
ghost use Rattle.ptflow.specs.ToolSpec.{ToolSpec};
ghost use Rattle.ptflow.specs.Calls.Passes.{PassPost};
ghost use Rattle.ptflow.specs.Private.Passes.LineLoop.{LinesWritten, LinesFailed, RunLinesPre, ProcessLinesPre};
ghost use Rattle.ptflow.specs.Private.Passes.LineLoop.{IsLinesLength};
ghost use Rattle.ptflow.specs.Private.Passes.LineLoop.{IsSwapped, SlotsCleared, IsLineFilter};

use crate::faults::FlowFault;
use crate::slots::ensure_slots;
use ptlines::{LineFault, LineReader, Out, Sink, Source, Store, WriteFault};
use std::alloc::Allocator;

/// A tool that works line by line, together with the state that it carries from line to line. (Lines that it carries
/// are in the slots of the store.) The next line of a reader is read into the tool's last slot, as it may span several
/// blocks. The lines after it that end in the same block are processed in place, unless this line is at least as long
/// as what is left of the block.
pub(crate) trait LineFilter {
    /// The number of slots that the tool uses.
    ghost SLOTS: { ℕ };

    /// The job, which stays the same.
    ghost Job: { Type 0 };

    ghost job: { Self → Job };

    ghost tool: { Job → ToolSpec };

    /// The whole state carried from line to line: that of the tool, and the lines in the slots.
    ghost Model: { Type 0 };

    ghost model: { Self → Slots → Model };

    /// The items that the tool makes of the rest of the lines, such as runs. `written` is the output of a list of
    /// items.
    ghost Item: { Type 0 };

    ghost rest: { Job → Model → List (List ℕ) → List Item };

    ghost written: { Job → List Item → List ℕ };

    /// The number of lines whose output is not pushed yet.
    ghost counted: { Model → ℕ };

    /// Processes the line in the last slot.
    fn process_line<A: Allocator + Copy, W: Sink>(
        &mut self,
        store: &mut Store<A>,
        out: &mut Out<W>,
    ) -> Result<(), WriteFault>
        requires room { SLOTS ≤ length store.old.lines }
        requires few { counted (model self.old store.old) ≤ 2 ^ 63 }
        ensures continues { OnOk result (LinesWritten (rest (job self.old)) (written (job self.old)) counted
            (model self.old store.old) (model self.new store.new)
            (line store.old (SLOTS - 1) ∷ []) out.old out.new) }
        ensures halts { OnErr result (LinesFailed (rest (job self.old)) (written (job self.old))
            (model self.old store.old) (line store.old (SLOTS - 1) ∷ []) out.old out.new) }
        ensures same_job { job self.new ≡ job self.old }
        ensures swapped { OnOk result (IsSwapped SLOTS store.old store.new) }
        ensures same { OnErr result (store.new ≡ store.old) };

    /// Processes the lines that end in the block. Returns how many bytes they are, terminators included.
    fn process_lines<A: Allocator + Copy, W: Sink>(
        &mut self,
        block: &[u8],
        store: &Store<A>,
        out: &mut Out<W>,
    ) -> Result<usize, WriteFault>
        requires room { SLOTS ≤ length store.now.lines }
        requires buffered { ProcessLinesPre (counted (model self.old store.now)) block.now }
        ensures continues { OnOk result (LinesWritten (rest (job self.old)) (written (job self.old)) counted
            (model self.old store.now) (model self.new store.now)
            (complete_lines (tool (job self.old)).end block.now) out.old out.new) }
        ensures halts { OnErr result (LinesFailed (rest (job self.old)) (written (job self.old))
            (model self.old store.now) (complete_lines (tool (job self.old)).end block.now) out.old out.new) }
        ensures passed { IfOk result (λ count. IsLinesLength (tool (job self.old)).end block.now count) }
        ensures same_job { job self.new ≡ job self.old };

    /// Pushes the output that is due at the end of the input, and clears all slots but the last.
    fn finish<A: Allocator + Copy, W: Sink>(
        &self,
        store: &mut Store<A>,
        out: &mut Out<W>,
    ) -> Result<(), WriteFault>
        requires { SLOTS ≤ length store.old.lines }
        ensures pushed { out.old.write_failed ≡ false
            → PushPost out.old out.new
            (written (job self.now) (rest (job self.now) (model self.now store.old) [])) result }
        ensures emptied { OnOk result (SlotsCleared (SLOTS - 1) store.old store.new) }
        ensures same { OnErr result (store.new ≡ store.old) };
}

/// Runs a tool that uses `slots` slots over the lines of a reader. The output is written out before each read that may
/// block.
pub(crate) fn run_lines<T: LineFilter, A: Allocator + Copy, S: Source, R: Source, W: Sink>(
    tool: &mut T,
    slots: usize,
    reader: &mut LineReader<S, R>,
    store: &mut Store<A>,
    out: &mut Out<W>,
) -> Result<(), FlowFault>
    requires tool { IsLineFilter (T.tool (T.job tool.old)) T.model (T.rest (T.job tool.old))
        (T.written (T.job tool.old)) T.counted T.SLOTS tool.old }
    requires slots { slots ≡ T.SLOTS }
    requires begins { RunLinesPre (T.tool (T.job tool.old)).end reader.old out.old store.old }
    ensures { PassPost (T.tool (T.job tool.old)) reader.old reader.new out.old out.new store.old store.new result }
{
    ensure_slots(store, slots)?;
    'reading: loop {
        reader.write_out_before_blocking(out)?;
        match reader.fill(store, slots - 1) {
            Ok(true) => {}
            Ok(false) => {
                tool.finish(store, out)?;
                return Ok(());
            }
            Err(LineFault::Read) => return Err(FlowFault::Read(0)),
            Err(LineFault::Memory) => return Err(FlowFault::Memory),
        }
        // After a line as long as what is left of its block, the next one seldom ends there: it would be searched
        // twice.
        let is_long = store.line(slots - 1).len() >= reader.buffered().len();
        tool.process_line(store, out)?;
        if is_long {
            continue;
        }
        let passed = tool.process_lines(reader.buffered(), store, out)?;
        reader.consume(passed);
    }
}
