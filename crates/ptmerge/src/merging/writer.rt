//! The output of a tool for the lines of a merge (`MergeWriter`), and the step that passes a line of one input alone.

ghost use Rattle.std.specs.Prelude.{◌≡◌, ◌∷◌, [], true, false};
ghost use Rattle.ptlines.specs.Calls.Outputs.{PushEffect};
ghost use Rattle.ptlines.specs.Calls.Slots.{line};
ghost use Rattle.ptlines.specs.Text.{unlines};
ghost use Rattle.ptmerge.specs.Calls.MergeSpec.{MergeTool};
ghost use Rattle.ptmerge.specs.Calls.Sides.{both};
ghost use Rattle.ptmerge.specs.Private.BlockLines.{IsEachWithEach, IsPairByPair, entries_alone};
ghost use Rattle.ptmerge.specs.Private.Write.{WriteBytesPost};
ghost use Rattle.ptmerge.specs.Private.WriteAndAdvance.{WriteThenAdvancePost, WriteThenAdvancePre};
ghost use Rattle.ptmerge.specs.declared.key_order.Side.TheVariants as sides;

use crate::faults::MergeFault;
use crate::key_order::{KeyOrder, Side};
use crate::merging::Merge;
use ptlines::{LineReader, Out, Sink, Source, Store, WriteFault};
use std::alloc::Allocator;

/// Writes the output lines of a tool that merges two inputs.
pub(crate) trait MergeWriter: Copy {
    /// The tool. Its lines may also be in another order of the same keys.
    ghost tool: { Self → MergeTool };

    /// Checks whether the output for a key with several lines is that of a line of each input, and then that of the
    /// others. If not, it is that of each line of the first input with each of the second one.
    fn is_pair_by_pair(self) -> bool
        ensures by_pairs { result ≡ true → IsPairByPair (tool self).entries }
        ensures by_rows { result ≡ false → IsEachWithEach (tool self).entries };

    /// Writes the output for a line with a key that the other input does not have.
    fn write_alone<W: Sink>(
        self,
        side: Side,
        key: &[u8],
        line: &[u8],
        terminator: u8,
        out: &mut Out<W>,
    ) -> Result<(), WriteFault>
        requires key { (tool self).key side line.now ≡ key.now }
        requires clean { out.old.write_failed ≡ false }
        ensures { let entries = entries_alone (tool self).entries side key.now line.now in
            WriteBytesPost out.old out.new (unlines terminator entries) result };

    /// Writes the output for a line of each input, both with this key.
    fn write_both<W: Sink>(
        self,
        key: &[u8],
        one: &[u8],
        two: &[u8],
        terminator: u8,
        out: &mut Out<W>,
    ) -> Result<(), WriteFault>
        requires one { (tool self).key sides.First one.now ≡ key.now }
        requires two { (tool self).key sides.Second two.now ≡ key.now }
        requires clean { out.old.write_failed ≡ false }
        ensures { let entries = (tool self).entries key.now (one.now ∷ []) (two.now ∷ []) in
            WriteBytesPost out.old out.new (unlines terminator entries) result };
}

// Passes the current line of an input, with a key that the other input does not have: writes its output, and advances
// the input.
#[inline(always)]
pub(crate) fn pass_line<
    K: KeyOrder,
    T: MergeWriter,
    A: Allocator + Copy,
    S: Source,
    R: Source,
    W: Sink,
>(
    merge: &mut Merge<K>,
    tool: T,
    side: Side,
    reader: &mut LineReader<S, R>,
    store: &mut Store<A>,
    out: &mut Out<W>,
) -> Result<(), MergeFault>
    requires writes { let key = K.key_of merge.old.order in
        WriteThenAdvancePre (T.tool tool) key side merge.old.first merge.old.second reader.old store.old }
    requires clean { out.old.write_failed ≡ false }
    ensures wrote { let current = line store.old (both merge.old.first merge.old.second side).current_slot in
        let entries = entries_alone (T.tool tool).entries side (K.key_of merge.old.order side current) current in
        PushEffect out.old out.new (unlines reader.old.terminator entries) }
    ensures advances { let key = K.key_of merge.old.order in
        WriteThenAdvancePost key (K.order merge.old.order) side merge.old.first merge.old.second
        merge.new.first merge.new.second reader.old reader.new store.old store.new out.new result }
    ensures order { merge.new.order ≡ merge.old.order }
{
    let key = merge.key(side, store);
    let line = merge.head(side, store);
    tool.write_alone(side, key, line, reader.terminator(), out)?;
    merge.write_out_and_advance(side, reader, store, out)
}
