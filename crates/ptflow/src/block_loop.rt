//! The loop of the tools that work block by block, and keep nothing in a store: `cut` by bytes, `tr`, and `paste -s`.
//! `BlockFilter` is the trait that such a tool implements, and `run_blocks` runs it over a reader.

ghost use Rattle.std.specs.Prelude.{◌≡◌, ◌<◌, ◌≤◌, ◌+◌, ℕ, List, [], length, false, OnOk, OnErr};
ghost use Rattle.ptlines.specs.Calls.Outputs.{PushPost};
ghost use Rattle.ptflow.specs.Private.Passes.BlockLoop.{HasRoom, RunBlocksPre, RunBlocksPost};
ghost use Rattle.ptflow.specs.Private.Passes.StepOutput.{OutputPart, OutputFailed};

use crate::faults::FlowFault;
use ptlines::{LineReader, Out, Sink, Source, WriteFault};

/// A tool that works block by block, together with the state that it carries from one block to the next.
pub(crate) trait BlockFilter: Drop {
    /// The output for the rest of an input, if the tool is in this state.
    ghost rest: { Self → List ℕ → List ℕ };

    /// An upper bound of the tool's byte counters. It stays below 2^63, so that none overflows.
    ghost counted: { Self → ℕ };

    /// Holds between the initial and the current state if the configuration is unchanged.
    ghost IsUnchanged: { Self → Self → Type 0 };

    /// Pushes the output of a block.
    fn process_block<W: Sink>(&mut self, block: &[u8], out: &mut Out<W>) -> Result<(), WriteFault>
        requires some { 0 < length block.now }
        requires room { HasRoom (counted self.old) 0 (length block.now) }
        ensures continues { OnOk result (OutputPart rest self.old self.new block.now out.old out.new) }
        ensures counts { counted self.new ≤ counted self.old + length block.now }
        ensures holds { (start : Self) → IsUnchanged start self.old → IsUnchanged start self.new }
        ensures halts { OnErr result (OutputFailed rest self.old block.now out.old out.new) };

    /// Pushes the output that is due at the end of the input.
    fn finish<W: Sink>(&self, out: &mut Out<W>) -> Result<(), WriteFault>
        requires { out.old.write_failed ≡ false }
        ensures { PushPost out.old out.new (rest self.now []) result };
}

/// Runs a tool over the blocks of a reader. The output is written out before each read that may block.
pub(crate) fn run_blocks<T: BlockFilter, S: Source, R: Source, W: Sink>(
    tool: &mut T,
    reader: &mut LineReader<S, R>,
    out: &mut Out<W>,
) -> Result<(), FlowFault>
    requires { RunBlocksPre (T.counted tool.old) reader.old out.old }
    ensures { RunBlocksPost T.rest T.IsUnchanged tool.old reader.old reader.new out.old out.new result }
{
    'reading: loop {
        reader.write_out_before_blocking(out)?;
        let count = match reader.block() {
            Ok(block) => {
                if block.is_empty() {
                    tool.finish(out)?;
                    return Ok(());
                }
                tool.process_block(block, out)?;
                block.len()
            }
            Err(_) => return Err(FlowFault::Read(0)),
        };
        reader.consume(count);
    }
}
