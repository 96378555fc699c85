//! Tuples taken apart into nodes and cells.
ghost use Rattle.std.specs.Prelude.{◌≡◌, ◌++◌, IfOk, OnOk, map, flat_map};
ghost use Rattle.mls_filterview.specs.Fragment.{classes, node_of, cells_of};

use crate::fragment::{Cell, Node};
use crate::tuple_map::TupleMap;
use mls_lattice::{Items, LabelNo};
use mls_scheme::{Element, Place, copy_key};
use std::alloc::{AllocError, Global};

/// The classes of elements.
pub fn classes_of(alloc: Global, elements: &[Element]) -> Result<Items<LabelNo>, AllocError>
    ensures { IfOk result (λ pattern. pattern ≡ classes elements.now) }
{
    let mut classes = Vec::new(alloc);
    for element in elements {
        classes.push(element.class)?;
    }
    Ok(Items::from(classes))
}

/// The node of the tuple at a place.
pub fn node_of(alloc: Global, place: &Place, elements: &[Element]) -> Result<Node, AllocError>
    ensures { IfOk result (λ n. n ≡ node_of (place.now, elements.now)) }
{
    Ok(Node {
        key: copy_key(&place.key)?,
        key_class: place.key_class,
        label: place.class,
        pattern: classes_of(alloc, elements)?,
    })
}

/// Adds the cells of the tuple at a place.
pub fn add_cells(
    cells: &mut Vec<Cell>,
    place: &Place,
    elements: &[Element],
) -> Result<(), AllocError>
    ensures { OnOk result (cells.new.items ≡ cells.old.items ++ cells_of (place.now, elements.now)) }
{
    for (attr, element) in elements.iter().enumerate() {
        if element.class != place.class {
            continue;
        }
        cells.push(Cell {
            key: copy_key(&place.key)?,
            key_class: place.key_class,
            attr,
            label: element.class,
            value: element.value.clone()?,
        })?;
    }
    Ok(())
}

/// The nodes of tuples, in the order of their places.
pub fn nodes_of(alloc: Global, rows: &TupleMap) -> Result<Vec<Node>, AllocError>
    ensures { IfOk result (λ nodes. nodes.items ≡ map node_of rows.now.entries) }
{
    let mut nodes = Vec::new(alloc);
    for (place, elements) in rows.iter() {
        nodes.push(node_of(alloc, place, elements)?)?;
    }
    Ok(nodes)
}

/// The cells of tuples, in the order of their places.
pub fn cells_of(alloc: Global, rows: &TupleMap) -> Result<Vec<Cell>, AllocError>
    ensures { IfOk result (λ cells. cells.items ≡ flat_map cells_of rows.now.entries) }
{
    let mut cells = Vec::new(alloc);
    for (place, elements) in rows.iter() {
        add_cells(&mut cells, place, elements)?;
    }
    Ok(cells)
}
