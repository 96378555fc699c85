//! A tuple added whole.
ghost use Rattle.std.specs.Prelude.{◌≡◌, List, IfOk, OnOk};
ghost use Rattle.std.specs.FinMap.{insert};
ghost use Rattle.mls_scheme.specs.declared.tuple.Element.{Element as SpecElement};
ghost use Rattle.mls_filterview.specs.Calls.{IsStep, ChangesAt};
ghost use Rattle.mls_filterview.specs.Content.{with_relation};
ghost use Rattle.mls_filterview.specs.Fragment.{IsMadeOf, node_of, cells_of};
ghost use Rattle.mls_updates.specs.NewTuples.{entry_of};
ghost use Rattle.mls_updates.specs.Steps.{CanAddTuple};

use crate::new_tuple::NewTuple;
use mls_filterview::{Base, BaseFault, Cell, Node, settle};
use std::alloc::{AllocError, Global};

/// A tuple as a base takes it.
#[derive(Drop)]
struct Parts {
    node: Node,
    cells: Vec<Cell>,
}

/// The node of a tuple, and the elements of its own class.
fn parts_of(alloc: Global, tuple: &NewTuple) -> Result<Parts, AllocError>
    ensures node { IfOk result (λ parts. parts.node ≡ node_of (entry_of tuple.now)) }
    ensures cells { IfOk result (λ parts. parts.cells.items ≡ cells_of (entry_of tuple.now)) }
{
    let node = tuple.node(alloc)?;
    let mut cells = Vec::new(alloc);
    tuple.add_cells(&mut cells)?;
    Ok(Parts { node, cells })
}

/// Adds a tuple; its elements of other classes are those that the entity's tuples of these classes have.
pub(crate) fn add_tuple<B: Base>(
    alloc: Global,
    base: &mut B,
    tuple: &NewTuple,
) -> Result<(), BaseFault>
    requires { CanAddTuple B.seen base.old tuple.now }
    ensures step { IsStep B.seen base.old base.new result }
    ensures access { ChangesAt B.seen tuple.now.place.class base.old base.new }
    ensures done { (B.seen base.new).is_clean → (es : List SpecElement)
        → IsMadeOf ((B.seen base.old).state.now.db tuple.now.relation) (node_of (entry_of tuple.now))
        (cells_of (entry_of tuple.now)) es
        → OnOk result ((B.seen base.new).state
        ≡ with_relation (B.seen base.old).state tuple.now.relation
        (insert ((B.seen base.old).state.now.db tuple.now.relation) tuple.now.place es)) }
{
    let parts = settle(base, parts_of(alloc, tuple))?;
    base.add(tuple.relation, parts.node, &parts.cells)
}
