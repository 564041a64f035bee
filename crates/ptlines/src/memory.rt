//! All requests for memory of this library, and `Denied`, which is made here alone if one fails. A store counts as
//! denied only by one. That `LineFault::Memory` is made nowhere else is seen by reading, since its variants are public.

ghost use Rattle.std.specs.Prelude.{◌≡◌, ◌<◌, ◌+◌, ◌++◌, length, take, replicate, vec_len, vec_capacity};
ghost use Rattle.std.specs.Prelude.{IfOk, OnOk, OnErr, is_some, true};
ghost use Rattle.ptlines.specs.Private.Slots.{HasFewSpare, IsPadded};

use crate::store::LineFault;
use std::alloc::{AllocError, Allocator};

// The sign that a request for memory failed.
#[derive(Clone, Copy, Drop)]
pub(crate) struct Denied(AllocError);

impl Denied {
    // Records the denial in a store, and returns the fault by which it is reported.
    pub(crate) fn record(self, denied: &mut Option<Denied>) -> LineFault
        ensures recorded { is_some denied.new ≡ true }
        ensures fault { result ≡ LineFault.Memory }
    {
        *denied = Some(self);
        LineFault::Memory
    }
}

// Makes sure that a list has room for one item more. If it is full, it gets room for as many again, and four.
pub(crate) fn make_room<T, A: Allocator>(list: &mut Vec<T, A>) -> Result<(), Denied>
    requires { HasFewSpare (vec_capacity list.old) (vec_len list.old) }
    ensures items { list.new.items ≡ list.old.items }
    ensures room { OnOk result (vec_len list.new < vec_capacity list.new) }
    ensures few { HasFewSpare (vec_capacity list.new) (vec_len list.new) }
{
    if list.len() < list.capacity() {
        return Ok(());
    }
    list.reserve_exact(list.len() + 4).map_err(Denied)
}

// Creates a list of 128 zeros.
pub(crate) fn zeros<A: Allocator>(alloc: A) -> Result<Vec<u8, A>, Denied>
    ensures { IfOk result (λ list. list.items ≡ replicate 128 0) }
{
    let mut zeros = Vec::new(alloc);
    zeros.resize(128, 0).map_err(Denied)?;
    Ok(zeros)
}

// Replaces all bytes of a list after the first `from` by others, and 64 zeros. If memory is denied, nothing changes.
pub(crate) fn replace_rest<A: Allocator>(
    list: &mut Vec<u8, A>,
    from: usize,
    bytes: &[u8],
) -> Result<(), Denied>
    requires padded { IsPadded from (vec_len list.old) }
    requires full { vec_len list.old < from + length bytes.now + 64 }
    ensures ok { OnOk result (list.new.items ≡ take from list.old.items ++ bytes.now ++ replicate 64 0) }
    ensures err { OnErr result (list.new.items ≡ list.old.items) }
{
    let size = from + bytes.len() + 64;
    list.reserve(size - list.len()).map_err(Denied)?;
    // There is room now, so none of these calls fails.
    list.truncate(from);
    let _ = list.extend_from_slice(bytes);
    let _ = list.resize(size, 0);
    Ok(())
}
