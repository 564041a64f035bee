//! `FailingAlloc`, an allocator that fails once, at a given request. Used by the tests of failed allocations.

use std::alloc::{AllocError, Allocator};
use std::cell::Cell;

/// A handle to another allocator that counts requests down and fails the one at 0.
pub struct FailingAlloc<B: Allocator> {
    inner: B,
    left: Cell<u64>,
    ok_calls: u64,
}

impl<B: Allocator> FailingAlloc<B> {
    /// Fails the request after the first `ok_calls`; with `u64::MAX` none fails.
    pub fn after(inner: B, ok_calls: u64) -> Self {
        FailingAlloc {
            inner,
            left: Cell::new(ok_calls),
            ok_calls,
        }
    }

    /// Returns how many requests still succeed before the one that fails. After that one the count has wrapped around.
    pub fn left(&self) -> u64 {
        self.left.get()
    }

    /// Returns whether a request has failed.
    pub fn refused(&self) -> bool {
        self.left.get() > self.ok_calls
    }
}

impl<B: Allocator> Drop for FailingAlloc<B> {
    fn drop(self) {
        let Self {
            inner: _,
            left: _,
            ok_calls: _,
        } = self;
    }
}

fn next_fails(left: &Cell<u64>) -> bool {
    let n = left.get();
    left.set(n.wrapping_sub(1));
    n == 0
}

unsafe impl<B: Allocator> Allocator for FailingAlloc<B> {
    ghost dealloc_token = { λ heap ty ptr. B.dealloc_token heap.inner ty ptr };

    fn allocate(&self, size: usize, align: usize) -> Result<*mut u8, AllocError> {
        if next_fails(&self.left) {
            return Err(AllocError);
        }
        self.inner.allocate(size, align)
    }

    unsafe fn deallocate(&self, ptr: *mut u8, size: usize, align: usize) {
        self.inner.deallocate(ptr, size, align);
    }
}
