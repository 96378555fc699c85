//! What only clauses read of a store: the rows of its last commit, and how many of its calls failed.
ghost use Rattle.std.specs.Prelude.{◌≡◌};
ghost use Rattle.std.specs.Borrow.{ftrue};
ghost use Rattle.mls_tables.specs.Rows.{StoreNotes, no_notes};

use std::marker::{Model, PhantomData};

#[derive(Drop)]
pub struct GhostStore {
    marker: PhantomData<u8>,
    pub ghost noted: { StoreNotes },
}

impl Model for GhostStore {
    ghost also_owns = { λ _. ftrue };
}

impl GhostStore {
    /// Nothing is noted.
    pub fn new() -> GhostStore
        ensures { result.noted ≡ no_notes }
    {
        GhostStore {
            marker: PhantomData,
        }
    }

    /// Something else is noted.
    pub fn keep(&mut self)
        ghost noted: { StoreNotes }
        ensures { self.new.noted ≡ noted }
    {}
}
