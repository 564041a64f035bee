//! Bytes that only contracts read. Used by `output`, and by the library for C.

ghost use Rattle.std.specs.Prelude.{◌≡◌, ℕ, List, [], ◌++◌};
ghost use Rattle.std.specs.Borrow.{ftrue};

use std::marker::Model;

/// Bytes that only contracts read: they take no memory, and the methods do nothing at run time.
#[derive(Drop)]
pub struct GhostBytes {
    pub ghost items: { List ℕ },
}

impl Model for GhostBytes {
    ghost also_owns = { λ _. ftrue };
}

impl GhostBytes {
    /// No bytes.
    pub fn new() -> GhostBytes
        ensures { result.items ≡ [] }
    {
        GhostBytes {}
    }

    /// These bytes, and more after them.
    pub fn with(&self, more: &[u8]) -> GhostBytes
        ensures { result.items ≡ self.now.items ++ more.now }
    {
        GhostBytes {}
    }
}
