//! `Calls`, a record of the calls of a method of `Files`, which only contracts read.
ghost use Rattle.std.specs.Prelude.{◌≡◌, ℕ, List, [], ◌∷◌, ◌++◌};
ghost use Rattle.std.specs.Borrow.{ftrue};

use std::marker::{Model, PhantomData};

/// The calls of one method of a `Files` so far: the names that were passed, in order, and what each call
/// returned. Only contracts read it: it takes no memory, and its methods do nothing at run time.
#[derive(Drop)]
pub struct Calls<T> {
    of: PhantomData<T>,
    pub ghost names: { List (List ℕ) },
    pub ghost results: { List T },
}

impl<T> Model for Calls<T> {
    ghost also_owns = { λ _. ftrue };
}

impl<T> Calls<T> {
    /// No calls.
    pub fn new() -> Calls<T>
        ensures { (result.names ≡ []) × (result.results ≡ []) }
    {
        Calls { of: PhantomData }
    }

    /// These calls, and one more after them.
    pub fn with(&self, name: &str, given: &T) -> Calls<T>
        ensures names { result.names ≡ self.now.names ++ name.now ∷ [] }
        ensures results { result.results ≡ self.now.results ++ given.now ∷ [] }
    {
        Calls { of: PhantomData }
    }
}
