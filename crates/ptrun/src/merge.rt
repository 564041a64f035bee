//! The tools that merge two sorted inputs by their keys, as a run drives them: `comm` and `join`. They borrow the
//! readers of two operands at once, and report positions instead of sides.

ghost use Rattle.std.specs.Borrow.{Array, LendsBoth, sem};
ghost use Rattle.std.specs.Prelude.{◌≡◌, ◌<◌, length, set, slice_index_or};
ghost use Rattle.ptmerge.specs.Calls.Sides.{both};
ghost use Rattle.ptrun.specs.Private.Driver.{merge_found};

use crate::tool::{Completion, Joint};
use ptflow::FlowFault;
use ptlangs::jobs::{CommJob, JoinJob};
use ptlines::{LineReader, Out, Sink, Source, Store};
use ptmerge::{MergeFault, Side, comm, join};
use std::alloc::Allocator;

impl<A: Allocator + Copy> Joint<A> for CommJob {
    ghost use Rattle.ptlangs.specs.Jobs.{comm_job};
    ghost use Rattle.ptmerge.specs.Comm.{comm_engine};
    ghost use Rattle.ptrun.specs.Private.Joint.{two_input_tool};

    ghost tool = { λ job. two_input_tool (comm_engine (comm_job job)) };

    #[tactic(auto, using(crate::proofs::JointRuns::any_of_two))]
    fn run_on_all<S: Source, R: Source, W: Sink>(
        &self,
        operands: &[usize],
        inputs: &mut [LineReader<S, R>],
        store: &mut Store<A>,
        out: &mut Out<W>,
    ) -> Result<Completion, FlowFault> {
        let (first, second) = (operands[0], operands[1]);
        let (one, two) = two_mut(inputs, first, second);
        found_at(comm(self, one, two, store, out), first, second)
    }
}

impl<A: Allocator + Copy, B: Allocator + Copy> Joint<A> for JoinJob<B> {
    ghost use Rattle.ptlangs.specs.Jobs.{join_job};
    ghost use Rattle.ptmerge.specs.Join.{join_engine};
    ghost use Rattle.ptrun.specs.Private.Joint.{two_input_tool};

    ghost tool = { λ job. two_input_tool (join_engine (join_job job)) };

    #[tactic(auto, using(crate::proofs::JointRuns::any_of_two))]
    fn run_on_all<S: Source, R: Source, W: Sink>(
        &self,
        operands: &[usize],
        inputs: &mut [LineReader<S, R>],
        store: &mut Store<A>,
        out: &mut Out<W>,
    ) -> Result<Completion, FlowFault> {
        let (first, second) = (operands[0], operands[1]);
        let (one, two) = two_mut(inputs, first, second);
        found_at(join(self, one, two, store, out), first, second)
    }
}

// Borrows two different elements of a slice at once.
#[tactic(auto, using(crate::proofs::JointRuns::low_first, crate::proofs::JointRuns::high_first))]
fn two_mut<T>(items: &mut [T], first: usize, second: usize) -> (&mut T, &mut T)
    requires within { (first < length items.old) × (second < length items.old) }
    requires apart { first ≡ second → ⊥ }
    ensures value { (d : T) → (slice_index_or items.old first d ≡ result.0.now)
        × (slice_index_or items.old second d ≡ result.1.now) }
    ensures* writes_back { sem 𝓛 (LendsBoth (Array T.row 0) T.row T.row items.entry result
        (λ x y. set (set items.old first x) second y)) }
{
    if first < second {
        let (front, back) = items.split_at_mut(second);
        (&mut front[first], &mut back[0])
    } else {
        let (front, back) = items.split_at_mut(first);
        (&mut back[0], &mut front[second])
    }
}

// The result of a merge, with positions instead of sides.
fn found_at(
    merge_result: Result<(), MergeFault>,
    first: usize,
    second: usize,
) -> Result<Completion, FlowFault>
    ensures { result ≡ merge_found (both first second) merge_result }
{
    match merge_result {
        Ok(()) => Ok(Completion::AllWritten),
        Err(MergeFault::Read(side)) => Err(FlowFault::Read(position_at(side, first, second))),
        Err(MergeFault::Write) => Err(FlowFault::Write),
        Err(MergeFault::Memory) => Err(FlowFault::Memory),
        Err(MergeFault::Disorder(side, line)) => Ok(Completion::Disordered(
            position_at(side, first, second),
            line,
        )),
    }
}

// The position of the input on one side.
fn position_at(side: Side, first: usize, second: usize) -> usize
    ensures { result ≡ both first second side }
{
    match side {
        Side::First => first,
        Side::Second => second,
    }
}
