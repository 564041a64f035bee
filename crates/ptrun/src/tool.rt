//! The two traits of tools, by which `driver` runs them: `Sequential` for a tool that reads one operand after another,
//! and `Joint` for one that reads its operands together; and how either has processed them (`Completion`). The modules
//! `tools` and `merge` implement them.

ghost use Rattle.ptflow.specs.Calls.Passes.{PassPre, PassPost};
ghost use Rattle.ptflow.specs.ToolSpec.{ToolSpec};
ghost use Rattle.ptrun.specs.Private.Joint.{JointTool};
ghost use Rattle.ptrun.specs.Private.Driver.{DecidesAll, JointPre, JointPost};

use ptflow::FlowFault;
use ptlines::{LineReader, Out, Sink, Source, Store};
use std::alloc::Allocator;

/// A tool that reads one operand after another, with its options.
pub(crate) trait Sequential<A: Allocator + Copy>: Drop {
    /// The specification of the tool.
    ghost tool: { Self → ToolSpec };

    /// Runs the tool over the input of one operand.
    fn run_on_one<S: Source, R: Source, W: Sink>(
        &self,
        reader: &mut LineReader<S, R>,
        store: &mut Store<A>,
        out: &mut Out<W>,
    ) -> Result<(), FlowFault>
        requires { PassPre reader.old store.old }
        ensures { PassPost (tool self.now) reader.old reader.new out.old out.new store.old store.new result };

    ghost decides_all: { (job : Self) → DecidesAll (tool job) };
}

/// How the inputs of a run were processed if no call failed.
#[derive(Clone, Copy)]
pub(crate) enum Completion {
    /// The whole output was written.
    AllWritten,
    /// The output was written, except that of inputs that could not be opened; these were reported.
    Unopened,
    /// A line is out of order, and the output before it was written: the position of its input, and the line's number,
    /// counted from 1.
    Disordered(usize, u64),
}

/// A tool that reads all its operands together, with its options.
pub(crate) trait Joint<A: Allocator + Copy>: Drop {
    /// The specification of the tool.
    ghost tool: { Self → JointTool };

    /// Runs the tool over the inputs of its operands, at these positions; each of them was opened.
    fn run_on_all<S: Source, R: Source, W: Sink>(
        &self,
        operands: &[usize],
        inputs: &mut [LineReader<S, R>],
        store: &mut Store<A>,
        out: &mut Out<W>,
    ) -> Result<Completion, FlowFault>
        requires { JointPre (tool self.now) operands.now inputs.old out.old store.old }
        ensures { JointPost (tool self.now) operands.now inputs.old inputs.new out.old out.new
            store.old store.new result };
}
