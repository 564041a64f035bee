//! The engine of `join`: a merge that keeps the second input's lines of one key at a time, if it writes pairs.
//!
//! `field_keys` is the order of lines by their join fields, and `key_group` copies the lines of a key. `fields` splits
//! a line into fields, by `words` if they are words, and `output` writes an output line, which `row` collects.

ghost use Rattle.std.specs.Prelude.{◌≡◌, ℕ, List, ◌∷◌, [], Err, IfErr, IfOk, OnOk, false};
ghost use Rattle.ptlangs.specs.Jobs.{join_job};
ghost use Rattle.ptlines.specs.Calls.Outputs.{PushEffect};
ghost use Rattle.ptlines.specs.Calls.Slots.{line};
ghost use Rattle.ptlines.specs.Text.{unlines};
ghost use Rattle.ptmerge.specs.Private.JoinGroup.{IsGroup, group_lines};
ghost use Rattle.ptmerge.specs.Private.MergeCall.{MergeRunPre};
ghost use Rattle.ptmerge.specs.Calls.MergeCall.{MergePost, MergePre, merge_state};
ghost use Rattle.ptmerge.specs.Calls.MergeSteps.{AreValidCursors};
ghost use Rattle.ptmerge.specs.declared.key_order.Side.{Side as SideType};
ghost use Rattle.ptmerge.specs.Calls.Join.{join_with, join_key, join_tool};
ghost use Rattle.ptmerge.specs.Join.{pair_entries};
ghost use Rattle.ptmerge.specs.Private.WriteAndAdvance.{AdvanceOkPost, WriteThenAdvancePost, WriteThenAdvancePre};
ghost use Rattle.ptmerge.specs.Private.Write.{WriteBytesPost};
ghost use Rattle.ptmerge.specs.declared.key_order.Side.TheVariants as sides;
ghost use Rattle.ptmerge.specs.declared.merging.cursor.CursorStatus.TheVariants as status_is;

mod field_keys;
mod fields;
mod key_group;
mod output;
mod row;
mod words;

use crate::faults::MergeFault;
use crate::key_order::Side::{First, Second};
use crate::key_order::{Descending, KeyOrder};
use crate::merging::block_merge::merge_in_blocks;
use crate::merging::four_slots::clear_four_slots;
use crate::merging::writer::pass_line;
use crate::merging::{Merge, Step};
use crate::tools::join::field_keys::FieldKeys;
use crate::tools::join::key_group::Group;
use crate::tools::join::output::write_pair;
use ptlangs::jobs::JoinJob;
use ptlines::{LineReader, Out, Sink, Source, Store, WriteFault};
use std::alloc::Allocator;

// Writes the output lines of the first input's current line with each line of the group.
#[tactic(auto, using(crate::proofs::JoinLemmas::Group::pair_steps))]
fn write_pair_entries<K: KeyOrder, A: Allocator + Copy, B: Allocator, W: Sink>(
    merge: &Merge<K>,
    job: &JoinJob<B>,
    group: Group,
    store: &Store<A>,
    terminator: u8,
    out: &mut Out<W>,
) -> Result<(), WriteFault>
    requires valid_cursors { AreValidCursors (K.key_of merge.now.order) merge.now.first merge.now.second store.now }
    requires status_is { merge.now.first.status ≡ status_is.Head }
    requires keys { (line : List ℕ) → K.key_of merge.now.order sides.First line
        ≡ join_key (join_job job.now) sides.First line }
    requires group { let key = K.key_of merge.now.order sides.First (line store.now merge.now.first.current_slot) in
        IsGroup (join_key (join_job job.now) sides.Second) merge.now.second store.now group.end key }
    ensures { let current = line store.now merge.now.first.current_slot in
        let key = K.key_of merge.now.order sides.First current in
        let lines = group_lines merge.now.second store.now group.end in
        let pairs = pair_entries (join_job job.now) key (current ∷ []) lines in
        WriteBytesPost out.old out.new (unlines terminator pairs) result }
{
    if !job.pairs {
        return Ok(());
    }
    let key = merge.key(First, store);
    let one = merge.head(First, store);
    let slots = group.slots(merge);
    for slot in slots.start..slots.end {
        write_pair(job, key, one, store.line(slot), terminator, out)?;
    }
    Ok(())
}

// Writes the output lines of the first input's current line with each line of the group, and advances the first input.
// Returns true if it is then at another line with the key.
fn write_pairs<K: KeyOrder, A: Allocator + Copy, B: Allocator, S: Source, R: Source, W: Sink>(
    merge: &mut Merge<K>,
    job: &JoinJob<B>,
    group: Group,
    reader: &mut LineReader<S, R>,
    store: &mut Store<A>,
    out: &mut Out<W>,
) -> Result<bool, MergeFault>
    requires writes { let key = K.key_of merge.old.order in
        WriteThenAdvancePre (join_tool (join_job job.now)) key sides.First merge.old.first merge.old.second
        reader.old store.old }
    requires clean { out.old.write_failed ≡ false }
    requires group { let key = K.key_of merge.old.order sides.First (line store.old merge.old.first.current_slot) in
        IsGroup (join_key (join_job job.now) sides.Second) merge.old.second store.old group.end key }
    ensures wrote { let current = line store.old merge.old.first.current_slot in
        let key = K.key_of merge.old.order sides.First current in
        let lines = group_lines merge.old.second store.old group.end in
        let pairs = pair_entries (join_job job.now) key (current ∷ []) lines in
        PushEffect out.old out.new (unlines reader.old.terminator pairs) }
    ensures has_more { IfOk result (λ has_more. has_more ≡ merge.new.first.same) }
    ensures advances { let key = K.key_of merge.old.order in
        OnOk result (AdvanceOkPost key (K.order merge.old.order) sides.First merge.old.first merge.old.second
        merge.new.first merge.new.second reader.old reader.new store.old store.new out.new) }
    ensures fails { let key = K.key_of merge.old.order in
        IfErr result (λ fault. WriteThenAdvancePost key (K.order merge.old.order) sides.First
        merge.old.first merge.old.second merge.new.first merge.new.second reader.old reader.new store.old store.new
        out.new (Err fault)) }
    ensures order { merge.new.order ≡ merge.old.order }
{
    write_pair_entries(merge, job, group, store, reader.terminator(), out)?;
    merge.write_out_and_advance(First, reader, store, out)?;
    Ok(merge.has_same_key(First))
}

// Runs `join` in an order of join fields. The terminator of both readers is already set.
fn join_with_order<K: KeyOrder, A: Allocator + Copy, B: Allocator, S: Source, R: Source, W: Sink>(
    order: K,
    job: &JoinJob<B>,
    first: &mut LineReader<S, R>,
    second: &mut LineReader<S, R>,
    store: &mut Store<A>,
    out: &mut Out<W>,
) -> Result<(), MergeFault>
    requires keys { (side : SideType) (line : List ℕ) →
        K.key_of order side line ≡ join_key (join_job job.now) side line }
    requires begins { MergeRunPre (join_job job.now).terminator first.old second.old out.old store.old }
    ensures { let tool = join_with (join_job job.now) (K.order order) (K.key_of order) in
        let was = merge_state first.old second.old out.old store.old in
        MergePost tool was (merge_state first.new second.new out.new store.new) result }
{
    let mut merge = Merge::start(order, first, second, store)?;
    'steps: loop {
        merge_in_blocks(&mut merge, job, first, second, store, out)?;
        match merge.step(store) {
            Step::First => pass_line(&mut merge, job, First, first, store, out)?,
            Step::Second => pass_line(&mut merge, job, Second, second, store, out)?,
            Step::Both => {
                let mut group = Group::new();
                'lines: while group.read_line(&mut merge, job.pairs, second, store, out)? {}
                'pairs: while write_pairs(&mut merge, job, group, first, store, out)? {}
                group.clear(store);
            }
            Step::End => {
                clear_four_slots(store);
                return Ok(());
            }
            Step::Stop(side, number) => {
                clear_four_slots(store);
                return Err(MergeFault::Disorder(side, number));
            }
        }
    }
}

/// Pairs the lines of two sorted inputs by their join fields (`join`: POSIX.1-2017, XCU, Utilities).
///
/// A line is written for each pair: the join field and then the other fields of each line, or the fields of the
/// output list. Fields are separated by blanks or by the separator. Output is ordered by key; the pairs of one key
/// are ordered by the first input's line and then by the second one's, and unpaired lines, if asked for, are in
/// the order of their input. A line without the join field has an empty key; POSIX leaves this unspecified. As
/// extensions, `-r` reverses the byte order, and with `-z` lines end with byte 0.
///
/// The readers and the output are borrowed until the call returns, and the caller finishes the output. The slots 0
/// to 3 of the store are used, and added if they are missing; after them, if pairs are written, at most one slot
/// is added for each of the second input's lines of one key. After `Ok` and `Disorder` all slots are empty. If one
/// of the first four could not be added, nothing is read or written. If the output has failed before, the call
/// does nothing. A line that is the only one of its key takes no further slot: this is stated by the contract of
/// the function that copies the lines of a key, not by this one.
///
/// The second input is not read before the first one has given a line or its end; until the second one has, no
/// more than a block after the first one's first line is read. The pairs of a key are written once all lines of
/// the second input with this key are read. However the call ends, everything was pushed that was decided two
/// blocks (16,384 bytes) of either input earlier, regardless of the content of the other input; and a disorder was
/// not yet decided then. Tests check, but no clause states, that buffered output is written out before a read that
/// may block.
/// # Errors
/// `Read`, with the input, if a read failed; `Write` if a write failed; `Memory` if the store could not grow while
/// something was left to do, and `Store::denied` is then true; `Disorder`, with the input and the line, if an input is
/// not sorted: all output lines up to the last key in order are then written (POSIX leaves this unspecified).
pub fn join<A: Allocator + Copy, B: Allocator + Copy, S: Source, R: Source, W: Sink>(
    job: &JoinJob<B>,
    first: &mut LineReader<S, R>,
    second: &mut LineReader<S, R>,
    store: &mut Store<A>,
    out: &mut Out<W>,
) -> Result<(), MergeFault>
    requires { MergePre first.old second.old store.old }
    ensures { let was = merge_state first.old second.old out.old store.old in
        MergePost (join_tool (join_job job.now)) was (merge_state first.new second.new out.new store.new) result }
{
    if out.has_failed() {
        return Err(MergeFault::Write);
    }
    first.set_ending(job.zero);
    second.set_ending(job.zero);
    let keys = FieldKeys {
        separator: job.sep,
        first: job.field[0],
        second: job.field[1],
    };
    if job.descending {
        return join_with_order(Descending { of: keys }, job, first, second, store, out);
    }
    join_with_order(keys, job, first, second, store, out)
}
