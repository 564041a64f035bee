//! `Group`, the second input's lines of one key, with each of which `join` pairs the first input's lines of that key.
//! The lines are read and, if there are several, copied to slots of the store, which are emptied at the end.
ghost use Rattle.std.specs.Prelude.{◌≡◌, ◌≤◌, ◌<◌, ◌+◌, ◌-◌, [], false, true, length, IfOk, OnOk, OnErr};
ghost use Rattle.ptlines.specs.Calls.Outputs.{PushEffect};
ghost use Rattle.ptlines.specs.Calls.Slots.{with_denied};
ghost use Rattle.ptmerge.specs.declared.key_order.Side.TheVariants as sides;
ghost use Rattle.ptmerge.specs.Private.JoinGroup.{ReadGroupLinePost, ClearGroupPost, EnsureSlotPost, CopyToGroupPost};
ghost use Rattle.ptmerge.specs.Private.JoinGroup.{CopyToGroupErrPost, group_end_slot, group_first_slot};
ghost use Rattle.ptmerge.specs.Private.WriteAndAdvance.{IsReadyToContinue, AdvancePre};

use crate::faults::MergeFault;
use crate::key_order::{KeyOrder, Side};
use crate::merging::Merge;
use ptlines::{LineFault, LineReader, Out, Sink, Source, Store};
use std::alloc::Allocator;
use std::ops::Range;

// Adds the slot `slot` if it is missing, and returns the number after it. All slots below it must exist.
fn ensure_slot<A: Allocator + Copy>(store: &mut Store<A>, slot: usize) -> Result<usize, LineFault>
    requires { slot ≤ length store.old.lines }
    ensures next { IfOk result (λ next. next ≡ slot + 1) }
    ensures ok { OnOk result (EnsureSlotPost store.old store.new slot) }
    ensures err { OnErr result (store.new ≡ with_denied store.old) }
{
    if slot < store.slots() {
        return Ok(slot + 1);
    }
    store.add()?;
    Ok(store.slots())
}

// Copies a line to the slot `to`, which is added if it is missing, and returns `to + 1`.
#[tactic(auto, using(crate::proofs::JoinLemmas::Group::failed_copy))]
fn copy_to_group<A: Allocator + Copy>(
    store: &mut Store<A>,
    from: usize,
    to: usize,
) -> Result<usize, LineFault>
    requires { (from < to) × (to ≤ length store.old.lines) }
    ensures next { IfOk result (λ next. next ≡ to + 1) }
    ensures ok { OnOk result (CopyToGroupPost store.old store.new from to) }
    ensures err { OnErr result (CopyToGroupErrPost store.old store.new to) }
{
    let next = ensure_slot(store, to)?;
    store.copy(from, to)?;
    Ok(next)
}

// The first slot of a group: those before it are the slots of the merge.
const FIRST_SLOT: usize = 4;

// The second input's lines of one key. Those that were copied are in the slots from `FIRST_SLOT` to before `end`. If
// none was, the group is the input's previous line, which stays in the slot into which it was read.
#[derive(Clone, Copy)]
pub(crate) struct Group {
    end: usize,
}

impl Group {
    // Returns a group without copied lines.
    #[inline(always)]
    pub(crate) fn new() -> Group
        ensures { result.end ≡ 4 }
    {
        Group { end: FIRST_SLOT }
    }

    // Advances the second input, and copies its previous line, if a group is to be kept and that line is not the only
    // one of its key. Returns true if the current line has that key too.
    pub(crate) fn read_line<K: KeyOrder, A: Allocator + Copy, S: Source, R: Source, W: Sink>(
        &mut self,
        merge: &mut Merge<K>,
        keep: bool,
        reader: &mut LineReader<S, R>,
        store: &mut Store<A>,
        out: &mut Out<W>,
    ) -> Result<bool, MergeFault>
        requires status_is { let key = K.key_of merge.old.order in
            AdvancePre key sides.Second merge.old.first merge.old.second reader.old store.old }
        requires group { (4 ≤ self.old.end) × (self.old.end ≤ length store.old.lines) }
        requires clean { out.old.write_failed ≡ false }
        ensures written_out { PushEffect out.old out.new [] }
        ensures reads_line { let key = K.key_of merge.old.order sides.Second in
            ReadGroupLinePost keep key (K.order merge.old.order) merge.old.second merge.new.second
            reader.old reader.new store.old store.new out.new self.old.end self.new.end result }
        ensures continues { OnOk result (IsReadyToContinue (K.key_of merge.old.order) sides.Second merge.old.first
            merge.old.second merge.new.first merge.new.second reader.new store.new out.new) }
        ensures order { merge.new.order ≡ merge.old.order }
    {
        merge.write_out_and_advance(Side::Second, reader, store, out)?;
        let has_more = merge.has_same_key(Side::Second);
        if keep && (has_more || self.end > FIRST_SLOT) {
            match copy_to_group(store, merge.previous_slot_of(Side::Second), self.end) {
                Ok(next) => self.end = next,
                Err(_) => return Err(MergeFault::Memory),
            }
        }
        Ok(has_more)
    }

    // Returns the slots of the lines.
    #[inline(always)]
    pub(crate) fn slots<K: KeyOrder>(self, merge: &Merge<K>) -> Range<usize>
        requires { merge.now.second.previous_slot < 4 }
        ensures first { result.start ≡ group_first_slot merge.now.second self.end }
        ensures last { result.end ≡ group_end_slot merge.now.second self.end }
    {
        if self.end == FIRST_SLOT {
            let only = merge.previous_slot_of(Side::Second);
            return only..only + 1;
        }
        FIRST_SLOT..self.end
    }

    // Empties the slots of the copied lines.
    #[tactic(auto, using(crate::proofs::JoinLemmas::Group::clears_none))]
    pub(crate) fn clear<A: Allocator + Copy>(self, store: &mut Store<A>)
        requires { (4 ≤ self.end) × (self.end ≤ length store.old.lines) }
        ensures { ClearGroupPost store.old store.new self.end }
    {
        for slot in FIRST_SLOT..self.end {
            store.clear(slot);
        }
    }
}
