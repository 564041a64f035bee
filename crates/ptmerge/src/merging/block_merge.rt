//! The merge of the lines that end in the blocks of both readers, or of one after the end of the other input, for any
//! tool.

ghost use Rattle.std.specs.Prelude.{◌≡◌, false, IfOk, OnOk, OnErr};
ghost use Rattle.ptlines.specs.Text.{unlines};
ghost use Rattle.ptmerge.specs.Calls.MergeCall.{merge_state};
ghost use Rattle.ptmerge.specs.Calls.MergeSteps.{AreValidCursors};
ghost use Rattle.ptmerge.specs.Calls.Sides.{both, other};
ghost use Rattle.ptmerge.specs.Private.BlockLines.{BlockRunPost, CanMerge, HasFailed, HasFailedAlone};
ghost use Rattle.ptmerge.specs.Private.BlockLines.{HaveKey, IsBlockTool, LineRunPost, in_order, key_lines, row, rows};
ghost use Rattle.ptmerge.specs.Private.Passed.{AreBlocksMerged, BlocksPost, BlocksPre, IsBlockPassed};
ghost use Rattle.ptmerge.specs.Private.Write.{WriteBytesPost};
ghost use Rattle.ptmerge.specs.Private.WriteAndAdvance.{AdvancePre};
ghost use Rattle.ptmerge.specs.declared.key_order.Side.TheVariants as sides;
ghost use Rattle.ptmerge.specs.declared.key_order.Side.{Side as SideType};
ghost use Rattle.ptmerge.specs.declared.merging.cursor.CursorStatus.TheVariants as status_is;

use crate::faults::MergeFault;
use crate::key_order::Side::{First, Second};
use crate::key_order::{KeyOrder, Side};
use crate::merging::Merge;
use crate::merging::block_lines::{BlockLine, BlockRun, KeyLines};
use crate::merging::cursor::CursorStatus::{Ended, Head};
use crate::merging::cursor::Reached;
use crate::merging::writer::MergeWriter;
use ptlines::{LineReader, Out, Sink, Source, Store, WriteFault};
use std::alloc::Allocator;
use std::cmp::Ordering;

// Writes the output for a line of the first input with each of these lines of the second one, all of one key.
#[inline(always)]
fn write_row<T: MergeWriter, W: Sink>(
    tool: T,
    key: &[u8],
    one: &[u8],
    seconds: KeyLines,
    terminator: u8,
    out: &mut Out<W>,
) -> Result<(), WriteFault>
    requires one { (T.tool tool).key sides.First one.now ≡ key.now }
    requires two { HaveKey ((T.tool tool).key sides.Second) key.now (key_lines terminator seconds) }
    requires clean { out.old.write_failed ≡ false }
    ensures { let lines = row (T.tool tool).entries key.now one.now (key_lines terminator seconds.entry) in
        WriteBytesPost out.old out.new (unlines terminator lines) result }
{
    let mut two = seconds;
    'lines: loop {
        tool.write_both(key, one, two.line, terminator, out)?;
        let Some(next) = two.next(terminator) else {
            return Ok(());
        };
        two = next;
    }
}

// Writes the output for each of these lines of the first input with each of those of the second one, all of one key.
#[inline(never)]
fn write_rows<T: MergeWriter, W: Sink>(
    tool: T,
    key: &[u8],
    firsts: KeyLines,
    seconds: KeyLines,
    terminator: u8,
    out: &mut Out<W>,
) -> Result<(), WriteFault>
    requires one { HaveKey ((T.tool tool).key sides.First) key.now (key_lines terminator firsts) }
    requires two { HaveKey ((T.tool tool).key sides.Second) key.now (key_lines terminator seconds) }
    requires clean { out.old.write_failed ≡ false }
    ensures { let f = key_lines terminator firsts.entry in
        let lines = rows (T.tool tool).entries key.now f (key_lines terminator seconds.entry) in
        WriteBytesPost out.old out.new (unlines terminator lines) result }
{
    let mut one = firsts;
    'lines: loop {
        write_row(tool, key, one.line, seconds, terminator, out)?;
        let Some(next) = one.next(terminator) else {
            return Ok(());
        };
        one = next;
    }
}

// Merges the lines of two blocks, up to the first line that does not end in its block or is out of order. If the
// tool does not write pair by pair, this also ends before a key of which not all lines, and the line after them, are
// such. Inlined, so that keys that are whole lines take no registers.
#[inline(always)]
fn merge_lines<K: KeyOrder, T: MergeWriter, W: Sink>(
    order: &K,
    tool: T,
    terminator: u8,
    first: BlockLine,
    second: BlockLine,
    out: &mut Out<W>,
) -> Result<BlockRun, WriteFault>
    requires ends { terminator ≡ (T.tool tool).terminator }
    requires tool { IsBlockTool (T.tool tool) (K.key_of order.now) }
    requires begins { (side : SideType) → CanMerge (K.key_of order.now side) (both first second side) }
    requires clean { out.old.write_failed ≡ false }
    ensures merged { let tool = in_order (T.tool tool) (K.order order.now) (K.key_of order.now) in
        IfOk result (λ run. BlockRunPost tool (both first.entry second.entry) run out.old out.new) }
    ensures failed { let tool = in_order (T.tool tool) (K.order order.now) (K.key_of order.now) in
        OnErr result (HasFailed tool (both first.entry second.entry) out.old out.new) }
{
    let by_pairs = tool.is_pair_by_pair();
    let (mut one, mut two) = (first, second);
    'lines: loop {
        match order.cmp(one.key, two.key) {
            Ordering::Less => {
                let Some(next) = one.next(order, First, terminator) else {
                    break;
                };
                tool.write_alone(First, one.key, one.head, terminator, out)?;
                one = next;
            }
            Ordering::Greater => {
                let Some(next) = two.next(order, Second, terminator) else {
                    break;
                };
                tool.write_alone(Second, two.key, two.head, terminator, out)?;
                two = next;
            }
            Ordering::Equal => {
                let Some(next1) = one.next(order, First, terminator) else {
                    break;
                };
                let Some(next2) = two.next(order, Second, terminator) else {
                    break;
                };
                if by_pairs || !(next1.same || next2.same) {
                    tool.write_both(one.key, one.head, two.head, terminator, out)?;
                    one = next1;
                    two = next2;
                    continue;
                }
                let Some(firsts) = one.whole_key(next1, order, First, terminator) else {
                    break;
                };
                let Some(seconds) = two.whole_key(next2, order, Second, terminator) else {
                    break;
                };
                write_rows(tool, one.key, firsts.lines, seconds.lines, terminator, out)?;
                one = firsts.after;
                two = seconds.after;
            }
        }
    }
    Ok(BlockRun {
        first: one.reached(),
        second: two.reached(),
    })
}

// Merges the lines of both blocks where they are.
#[inline(never)]
fn merge_blocks<K: KeyOrder, T: MergeWriter, A: Allocator + Copy, S: Source, R: Source, W: Sink>(
    merge: &mut Merge<K>,
    tool: T,
    first: &mut LineReader<S, R>,
    second: &mut LineReader<S, R>,
    store: &mut Store<A>,
    out: &mut Out<W>,
) -> Result<(), MergeFault>
    requires blocks { let now = merge_state first.old second.old out.old store.old in
        BlocksPre (T.tool tool) (K.key_of merge.old.order) merge.old.first merge.old.second now }
    requires clean { out.old.write_failed ≡ false }
    requires heads { (side : SideType) → (both merge.old.first merge.old.second side).status ≡ status_is.Head }
    ensures merges { let tool = in_order (T.tool tool) (K.order merge.old.order) (K.key_of merge.old.order) in
        let was = merge_state first.old second.old out.old store.old in
        let is = merge_state first.new second.new out.new store.new in
        AreBlocksMerged tool (both merge.old.first merge.old.second) (both merge.new.first merge.new.second) was is
        result }
    ensures order { merge.new.order ≡ merge.old.order }
    ensures valid_cursors { let key = K.key_of merge.new.order in
        OnOk result (AreValidCursors key merge.new.first merge.new.second store.new) }
{
    let one = merge.block_line(First, first, store);
    let two = merge.block_line(Second, second, store);
    let run = merge_lines(merge.order(), tool, first.terminator(), one, two, out)?;
    merge.resume_both(run, first, second, store)
}

// Passes the lines of a block, while the other input has ended, up to the first line that does not end in it or is out
// of order.
#[inline(always)]
fn pass_lines<K: KeyOrder, T: MergeWriter, W: Sink>(
    order: &K,
    tool: T,
    side: Side,
    terminator: u8,
    first: BlockLine,
    out: &mut Out<W>,
) -> Result<Reached, WriteFault>
    requires ends { terminator ≡ (T.tool tool).terminator }
    requires tool { IsBlockTool (T.tool tool) (K.key_of order.now) }
    requires begins { CanMerge (K.key_of order.now side) first }
    requires clean { out.old.write_failed ≡ false }
    ensures passed { let tool = in_order (T.tool tool) (K.order order.now) (K.key_of order.now) in
        IfOk result (λ at. LineRunPost tool side first.entry at out.old out.new) }
    ensures failed { let tool = in_order (T.tool tool) (K.order order.now) (K.key_of order.now) in
        OnErr result (HasFailedAlone tool side first.entry out.old out.new) }
{
    let mut line = first;
    'lines: while let Some(next) = line.next(order, side, terminator) {
        tool.write_alone(side, line.key, line.head, terminator, out)?;
        line = next;
    }
    Ok(line.reached())
}

// Passes the lines of an input's block where they are, while the other input has ended.
#[inline(never)]
fn pass_block<K: KeyOrder, T: MergeWriter, A: Allocator + Copy, S: Source, R: Source, W: Sink>(
    merge: &mut Merge<K>,
    tool: T,
    side: Side,
    reader: &mut LineReader<S, R>,
    store: &mut Store<A>,
    out: &mut Out<W>,
) -> Result<(), MergeFault>
    requires tool { IsBlockTool (T.tool tool) (K.key_of merge.old.order) }
    requires status_is { let key = K.key_of merge.old.order in
        AdvancePre key side merge.old.first merge.old.second reader.old store.old }
    requires ends { reader.old.terminator ≡ (T.tool tool).terminator }
    requires clean { out.old.write_failed ≡ false }
    ensures passes { let tool = in_order (T.tool tool) (K.order merge.old.order) (K.key_of merge.old.order) in
        let was = both merge.old.first merge.old.second side in
        let is = both merge.new.first merge.new.second side in
        IsBlockPassed tool side was is reader.old reader.new store.old store.new out.old out.new result }
    ensures others { both merge.new.first merge.new.second (other side)
        ≡ both merge.old.first merge.old.second (other side) }
    ensures order { merge.new.order ≡ merge.old.order }
    ensures valid_cursors { let key = K.key_of merge.new.order in
        OnOk result (AreValidCursors key merge.new.first merge.new.second store.new) }
{
    let line = merge.block_line(side, reader, store);
    let at = pass_lines(merge.order(), tool, side, reader.terminator(), line, out)?;
    merge.resume(side, at, reader, store)
}

// Merges the lines of both blocks, if both inputs are at lines. If one input has ended, this passes those of the other.
// Nothing is done if the lines of both are long: the next ones seldom end in the blocks, and would be searched twice.
#[inline(always)]
pub(crate) fn merge_in_blocks<
    K: KeyOrder,
    T: MergeWriter,
    A: Allocator + Copy,
    S: Source,
    R: Source,
    W: Sink,
>(
    merge: &mut Merge<K>,
    tool: T,
    first: &mut LineReader<S, R>,
    second: &mut LineReader<S, R>,
    store: &mut Store<A>,
    out: &mut Out<W>,
) -> Result<(), MergeFault>
    requires blocks { let now = merge_state first.old second.old out.old store.old in
        BlocksPre (T.tool tool) (K.key_of merge.old.order) merge.old.first merge.old.second now }
    requires clean { out.old.write_failed ≡ false }
    ensures merges { let tool = in_order (T.tool tool) (K.order merge.old.order) (K.key_of merge.old.order) in
        let was = merge_state first.old second.old out.old store.old in
        let is = merge_state first.new second.new out.new store.new in
        BlocksPost tool (both merge.old.first merge.old.second) (both merge.new.first merge.new.second) was is result }
    ensures order { merge.new.order ≡ merge.old.order }
    ensures valid_cursors { let key = K.key_of merge.new.order in
        OnOk result (AreValidCursors key merge.new.first merge.new.second store.new) }
{
    if merge.is_long(First, first, store) && merge.is_long(Second, second, store) {
        return Ok(());
    }
    match (merge.first.status, merge.second.status) {
        (Head, Head) => merge_blocks(merge, tool, first, second, store, out),
        (Head, Ended) => pass_block(merge, tool, First, first, store, out),
        (Ended, Head) => pass_block(merge, tool, Second, second, store, out),
        _ => Ok(()),
    }
}
