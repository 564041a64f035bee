//! The tools that a run can drive: `cut`, `paste`, `tr` and `uniq`. `merge` has `comm` and `join`.

use crate::operands::fault_at;
use crate::tool::{Completion, Joint, Sequential};
use ptflow::{FlowFault, cut, paste, paste_serial, tr, uniq};
use ptlangs::CharPlan;
use ptlangs::jobs::{CutJob, PasteJob, UniqJob};
use ptlines::{LineReader, Out, Sink, Source, Store};
use std::alloc::Allocator;

impl<A: Allocator + Copy, B: Allocator + Copy> Sequential<A> for CutJob<B> {
    ghost use Rattle.std.specs.Prelude.{refl};
    ghost use Rattle.ptlangs.specs.Jobs.{cut_job};
    ghost use Rattle.ptflow.specs.Cuts.{cut_tool};

    ghost tool = { λ job. cut_tool (cut_job job) };

    fn run_on_one<S: Source, R: Source, W: Sink>(
        &self,
        reader: &mut LineReader<S, R>,
        store: &mut Store<A>,
        out: &mut Out<W>,
    ) -> Result<(), FlowFault> {
        cut(self, reader, store, out)
    }

    ghost decides_all = { λ job bytes. refl };
}

impl<A: Allocator + Copy> Sequential<A> for CharPlan {
    ghost use Rattle.std.specs.Prelude.{refl};
    ghost use Rattle.ptlangs.specs.TrTables.{byte_map_of};
    ghost use Rattle.ptflow.specs.TrOutput.{tr_tool};

    ghost tool = { λ plan. tr_tool (byte_map_of plan) };

    // `tr` stores no lines, so the store is not used.
    fn run_on_one<S: Source, R: Source, W: Sink>(
        &self,
        reader: &mut LineReader<S, R>,
        _store: &mut Store<A>,
        out: &mut Out<W>,
    ) -> Result<(), FlowFault> {
        tr(self, reader, out)
    }

    ghost decides_all = { λ plan bytes. refl };
}

impl<A: Allocator + Copy, B: Allocator + Copy> Sequential<A> for PasteJob<B> {
    ghost use Rattle.std.specs.Prelude.{refl};
    ghost use Rattle.ptlangs.specs.Jobs.{paste_job};
    ghost use Rattle.ptflow.specs.PasteText.{paste_serial_tool};

    ghost tool = { λ job. paste_serial_tool (paste_job job) };

    fn run_on_one<S: Source, R: Source, W: Sink>(
        &self,
        reader: &mut LineReader<S, R>,
        store: &mut Store<A>,
        out: &mut Out<W>,
    ) -> Result<(), FlowFault> {
        paste_serial(self, reader, store, out)
    }

    ghost decides_all = { λ job bytes. refl };
}

impl<A: Allocator + Copy, B: Allocator + Copy> Joint<A> for PasteJob<B> {
    ghost use Rattle.ptlangs.specs.Jobs.{paste_job};
    ghost use Rattle.ptrun.specs.Private.Joint.{paste_rows_tool};

    ghost tool = { λ job. paste_rows_tool (paste_job job) };

    // Each operand is a column.
    #[tactic(auto, using(crate::proofs::JointRuns::cell_opened))]
    fn run_on_all<S: Source, R: Source, W: Sink>(
        &self,
        operands: &[usize],
        inputs: &mut [LineReader<S, R>],
        store: &mut Store<A>,
        out: &mut Out<W>,
    ) -> Result<Completion, FlowFault> {
        paste(self, operands, inputs, store, out)?;
        Ok(Completion::AllWritten)
    }
}

impl<A: Allocator + Copy> Joint<A> for UniqJob {
    ghost use Rattle.ptlangs.specs.Jobs.{uniq_job};
    ghost use Rattle.ptflow.specs.Uniqs.{uniq_tool};
    ghost use Rattle.ptrun.specs.Private.Joint.{one_input_tool};

    ghost tool = { λ job. one_input_tool (uniq_tool (uniq_job job)) };

    #[tactic(auto, using(crate::proofs::JointRuns::cell_opened))]
    fn run_on_all<S: Source, R: Source, W: Sink>(
        &self,
        operands: &[usize],
        inputs: &mut [LineReader<S, R>],
        store: &mut Store<A>,
        out: &mut Out<W>,
    ) -> Result<Completion, FlowFault> {
        let position = operands[0];
        match uniq(self, &mut inputs[position], store, out) {
            Ok(()) => Ok(Completion::AllWritten),
            Err(fault) => Err(fault_at(position, fault)),
        }
    }
}
