// A text that only clauses read.
ghost use Rattle.std.specs.Prelude.{◌≡◌, ℕ, List, [], ◌++◌};
ghost use Rattle.std.specs.Borrow.{ftrue};

use std::marker::{Model, PhantomData};

/// What a report was given so far. It has no bytes: only clauses read it.
#[derive(Drop)]
pub struct Told {
    marker: PhantomData<u8>,
    pub ghost text: { List ℕ },
}

impl Model for Told {
    ghost also_owns = { λ _. ftrue };
}

impl Told {
    pub(crate) fn new() -> Told
        ensures { result.text ≡ [] }
    {
        Told {
            marker: PhantomData,
        }
    }

    /// Notes a piece.
    pub(crate) fn add(&mut self, _piece: &[u8])
        ensures { self.new.text ≡ self.old.text ++ _piece.now }
    {}
}
