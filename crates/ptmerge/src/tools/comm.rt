//! The engine of `comm`: each step of the merge writes one line, of one input or of both, in a `column`. Before a
//! step, lines are merged in the blocks where they are.

ghost use Rattle.std.specs.Prelude.{◌≡◌, ℕ, List};
ghost use Rattle.ptlangs.specs.Jobs.{comm_job};
ghost use Rattle.ptmerge.specs.Calls.Comm.{comm_with, comm_tool};
ghost use Rattle.ptmerge.specs.Private.MergeCall.{MergeRunPre};
ghost use Rattle.ptmerge.specs.Calls.MergeCall.{MergePost, MergePre, merge_state};
ghost use Rattle.ptmerge.specs.declared.key_order.Side.{Side as SideType};

mod column;

use crate::faults::MergeFault;
use crate::key_order::Side::{First, Second};
use crate::key_order::{Descending, KeyOrder, WholeLine};
use crate::merging::block_merge::merge_in_blocks;
use crate::merging::four_slots::clear_four_slots;
use crate::merging::writer::{MergeWriter, pass_line};
use crate::merging::{Merge, Step};
use ptlangs::jobs::CommJob;
use ptlines::{LineReader, Out, Sink, Source, Store};
use std::alloc::Allocator;

// Runs `comm` in an order of whole lines. The terminator of both readers is already set.
fn comm_with_order<K: KeyOrder, A: Allocator + Copy, S: Source, R: Source, W: Sink>(
    order: K,
    job: CommJob,
    first: &mut LineReader<S, R>,
    second: &mut LineReader<S, R>,
    store: &mut Store<A>,
    out: &mut Out<W>,
) -> Result<(), MergeFault>
    requires whole_line_keys { (side : SideType) (line : List ℕ) → K.key_of order side line ≡ line }
    requires begins { MergeRunPre (comm_job job).terminator first.old second.old out.old store.old }
    ensures { let tool = comm_with (comm_job job) (K.order order) (K.key_of order) in
        let was = merge_state first.old second.old out.old store.old in
        MergePost tool was (merge_state first.new second.new out.new store.new) result }
{
    let mut merge = Merge::start(order, first, second, store)?;
    'steps: loop {
        merge_in_blocks(&mut merge, job, first, second, store, out)?;
        match merge.step(store) {
            Step::First => pass_line(&mut merge, job, First, first, store, out)?,
            Step::Second => pass_line(&mut merge, job, Second, second, store, out)?,
            Step::Both => {
                let one = merge.head(First, store);
                let two = merge.head(Second, store);
                job.write_both(one, one, two, first.terminator(), out)?;
                merge.write_out_and_advance(First, first, store, out)?;
                merge.write_out_and_advance(Second, second, store, out)?;
            }
            Step::End => {
                clear_four_slots(store);
                return Ok(());
            }
            Step::Stop(side, number) => {
                clear_four_slots(store);
                return Err(MergeFault::Disorder(side, number));
            }
        }
    }
}

/// Selects the lines that two sorted inputs have in common or alone (`comm`: POSIX.1-2017, XCU, Utilities).
///
/// Lines are written in three columns, in one pass and in the order of both inputs: lines only in the first input,
/// lines only in the second after a tab, and lines in both after two; a hidden column takes no tab. A line that
/// one input has more often than the other is written as common as often as both have it, and then in the column
/// of the input that has it more often; POSIX leaves this unspecified. As extensions, `-r` reverses the byte
/// order, and with `-z` lines end with byte 0.
///
/// The readers and the output are borrowed until the call returns, and the caller finishes the output. The slots 0
/// to 3 of the store are used, and added if they are missing. After `Ok` and `Disorder` they are empty. If one of
/// them could not be added, nothing is read or written. If the output has failed before, the call does nothing.
///
/// The second input is not read before the first one has given a line or its end; until the second one has, no
/// more than a block after the first one's first line is read. However the call ends, everything was pushed that
/// was decided two blocks (16,384 bytes) of either input earlier, regardless of the content of the other input;
/// and a disorder was not yet decided then. Tests check, but no clause states, that buffered output is written out
/// before a read that may block.
/// # Errors
/// `Read`, with the input, if a read failed; `Write` if a write failed; `Memory` if the store could not grow while
/// something was left to do, and `Store::denied` is then true; `Disorder`, with the input and the line, if an input is
/// not sorted: all lines up to the last one in order are then written (POSIX leaves this unspecified).
pub fn comm<A: Allocator + Copy, S: Source, R: Source, W: Sink>(
    job: &CommJob,
    first: &mut LineReader<S, R>,
    second: &mut LineReader<S, R>,
    store: &mut Store<A>,
    out: &mut Out<W>,
) -> Result<(), MergeFault>
    requires { MergePre first.old second.old store.old }
    ensures { let was = merge_state first.old second.old out.old store.old in
        MergePost (comm_tool (comm_job job.now)) was (merge_state first.new second.new out.new store.new) result }
{
    if out.has_failed() {
        return Err(MergeFault::Write);
    }
    first.set_ending(job.zero);
    second.set_ending(job.zero);
    if job.descending {
        let order = Descending { of: WholeLine };
        return comm_with_order(order, *job, first, second, store, out);
    }
    comm_with_order(WholeLine, *job, first, second, store, out)
}
