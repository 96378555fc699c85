//! One tuple, whole.
ghost use Rattle.std.specs.Prelude.{◌≡◌, ◌++◌, IfOk, OnOk};
ghost use Rattle.mls_filterview.specs.Fragment.{node_of, cells_of};
ghost use Rattle.mls_updates.specs.NewTuples.{entry_of};

use mls_filterview::{Cell, Node, add_cells, node_of};
use mls_lattice::Items;
use mls_scheme::{Element, Place, RelNo};
use std::alloc::{AllocError, Global};

/// A tuple of a relation, at its place.
#[derive(Drop)]
pub(crate) struct NewTuple {
    pub(crate) relation: RelNo,
    pub(crate) place: Place,
    pub(crate) elements: Items<Element>,
}

impl NewTuple {
    /// The tuple without its values.
    pub(crate) fn node(&self, alloc: Global) -> Result<Node, AllocError>
        ensures { IfOk result (λ n. n ≡ node_of (entry_of self.now)) }
    {
        node_of(alloc, &self.place, &self.elements)
    }

    /// Adds the elements of the tuple's own class.
    pub(crate) fn add_cells(&self, cells: &mut Vec<Cell>) -> Result<(), AllocError>
        ensures { OnOk result (cells.new.items ≡ cells.old.items ++ cells_of (entry_of self.now)) }
    {
        add_cells(cells, &self.place, &self.elements)
    }
}
