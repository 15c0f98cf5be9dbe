//! A history that only proofs read. It takes no memory, and nothing of it is done at run time.
ghost use Rattle.std.specs.Prelude.{◌≡◌, ℕ, List, [], ◌∷◌, ◌++◌};
ghost use Rattle.std.specs.Borrow.{ftrue};

use std::marker::Model;

/// Names or pieces, in the order in which they came. A clause reads them as `items`.
#[derive(Drop)]
pub(crate) struct History {
    pub(crate) ghost items: { List (List ℕ) },
}

impl Model for History {
    ghost also_owns = { λ _. ftrue };
}

impl History {
    /// Nothing so far.
    pub(crate) fn new() -> History
        ensures { result.items ≡ [] }
    {
        History {}
    }

    /// The same and these bytes.
    pub(crate) fn then(&self, _bytes: &&[u8]) -> History
        ensures { result.items ≡ self.now.items ++ _bytes.now.now ∷ [] }
    {
        History {}
    }
}
