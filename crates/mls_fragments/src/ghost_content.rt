//! Changes that only clauses read.
ghost use Rattle.std.specs.Prelude.{◌≡◌, List, [], ◌∷◌, map};
ghost use Rattle.std.specs.Borrow.{ftrue};
ghost use Rattle.mls_rows.specs.Changes.{Change};
ghost use Rattle.mls_rows.specs.Changes.Change.{Finds, Joins, Adds, Sets, Drops};

use mls_filterview::{Cell, Node, TupleMap};
use mls_lattice::Items;
use mls_scheme::{Place, RelNo, Value};
use std::marker::{Model, PhantomData};

/// The changes that made some content, the last one first. What a store notes is a type of its own (`GhostStore` of
/// `mls_tables`):
/// that crate knows no content.
#[derive(Drop)]
pub struct GhostContent {
    marker: PhantomData<u8>,
    pub ghost changes: { List Change },
}

impl Model for GhostContent {
    ghost also_owns = { λ _. ftrue };
}

impl GhostContent {
    /// No change is recalled.
    pub fn new() -> GhostContent
        ensures { result.changes ≡ [] }
    {
        GhostContent {
            marker: PhantomData,
        }
    }

    /// Other changes are recalled.
    fn keep(&mut self)
        ghost changes: { List Change }
        ensures { self.new.changes ≡ changes }
    {}

    /// Other changes are recalled, made from what is seen.
    pub fn note<A>(&mut self, _seen: &A)
        ghost changes: { List Change }
        ensures { self.new.changes ≡ changes }
    {
        self.keep();
    }

    /// What a store has when it is opened.
    pub fn find(&mut self, tables: &[TupleMap], entries: &[Items<u8>])
        ensures { self.new.changes ≡ Finds (map (λ t. t.entries) tables.now) entries.now ∷ [] }
    {
        self.note(&(tables, entries));
    }

    /// The tuples of more tables.
    pub fn join(&mut self, tables: &[TupleMap])
        ensures { self.new.changes ≡ Joins (map (λ t. t.entries) tables.now) ∷ self.old.changes }
    {
        self.note(&tables);
    }

    /// One tuple more.
    pub fn add(&mut self, relation: RelNo, node: &Node, cells: &[Cell])
        ensures { self.new.changes ≡ Adds relation node.now cells.now ∷ self.old.changes }
    {
        self.note(&(relation, node, cells));
    }

    /// One element has another value.
    pub fn set(&mut self, relation: RelNo, place: &Place, attr: usize, value: &Option<Value>)
        ensures { self.new.changes ≡ Sets relation place.now attr value.now ∷ self.old.changes }
    {
        self.note(&(relation, place, attr, value));
    }

    /// One tuple less.
    pub fn drop_at(&mut self, relation: RelNo, place: &Place)
        ensures { self.new.changes ≡ Drops relation place.now ∷ self.old.changes }
    {
        self.note(&(relation, place));
    }
}
