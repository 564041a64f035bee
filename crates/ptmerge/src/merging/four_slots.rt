//! Adds and empties the slots 0 to 3 of a store. A merge keeps the current and the previous line of its first input in
//! 0 and 1, and of its second input in 2 and 3. `merging` adds the slots; `comm` and `join` empty them at the end.

ghost use Rattle.std.specs.Prelude.{◌≤◌, OnOk, OnErr, length};
ghost use Rattle.ptmerge.specs.Calls.MergeSlots.{EnsureFourSlotsPost, EnsureFourSlotsErrPost};
ghost use Rattle.ptmerge.specs.Private.MergeSlots.{ClearFourSlotsPost};

use ptlines::{LineFault, Store};
use std::alloc::Allocator;

// Adds the slots 0 to 3 if they are missing.
#[tactic(auto, using(std::proofs::lemmas::List::Sums::sum_by_push, crate::proofs::MergeLemmas::Exits::SlotLines::line_added))]
pub(crate) fn ensure_four_slots<A: Allocator + Copy>(store: &mut Store<A>) -> Result<(), LineFault>
    ensures ok { OnOk result (EnsureFourSlotsPost store.old store.new) }
    ensures err { OnErr result (EnsureFourSlotsErrPost store.old store.new) }
{
    while store.slots() < 4 {
        store.add()?;
    }
    Ok(())
}

// Empties the slots 0 to 3.
pub(crate) fn clear_four_slots<A: Allocator + Copy>(store: &mut Store<A>)
    requires { 4 ≤ length store.old.lines }
    ensures { ClearFourSlotsPost store.old store.new }
{
    store.clear(0);
    store.clear(1);
    store.clear(2);
    store.clear(3);
}
