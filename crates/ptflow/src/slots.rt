//! Adds the slots that an engine needs and a store does not have yet (`ensure_slots`). The line loop and `paste` call
//! it.

ghost use Rattle.std.specs.Prelude.{◌≡◌, ◌<◌, true, false, length, Err, OnOk, OnErr};
ghost use Rattle.ptlines.specs.Slots.{total_bytes};
ghost use Rattle.ptlines.specs.Private.Slots.{AddedSlots};

use crate::faults::FlowFault;
use ptlines::Store;
use std::alloc::Allocator;

// Adds empty slots until the store has at least `count`. Returns `Memory` if one could not be allocated.
pub(crate) fn ensure_slots<A: Allocator + Copy>(
    store: &mut Store<A>,
    count: usize,
) -> Result<(), FlowFault>
    requires { store.old.denied ≡ false }
    ensures adds { AddedSlots store.old store.new count }
    ensures allowed { OnOk result (store.new.denied ≡ false) }
    ensures err { OnErr result (result ≡ Err FlowFault.Memory) }
    ensures denied { OnErr result (store.new.denied ≡ true) }
    ensures few { OnErr result (length store.new.lines < count) }
    ensures same_total { total_bytes store.new.lines ≡ total_bytes store.old.lines }
    ensures same_peak { store.new.peak ≡ store.old.peak }
{
    while store.slots() < count {
        if store.add().is_err() {
            return Err(FlowFault::Memory);
        }
    }
    Ok(())
}
