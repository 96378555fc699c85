//! Tuples put together from fragments.
ghost use Rattle.std.specs.Prelude.{◌≡◌, OnOk, IfOk, Some, None, unwrap_or};
ghost use Rattle.std.specs.BTreeMap.{Updates, IsOrdered, get};
ghost use Rattle.mls_scheme.specs.Table.{place_cmp};
ghost use Rattle.mls_filterview.specs.Assembly.{cell_place_cmp, AreValues, AreRows, elements_of};
ghost use Rattle.mls_filterview.specs.Fragment.{place_of_node};

use crate::fragment::{Cell, Node};
use crate::tuple_map::{TupleMap, put_tuple};
use mls_lattice::Items;
use mls_scheme::{Element, Place, Value};
use std::alloc::{AllocError, AllocFailed, Global};
use std::collections::BTreeMap;

/// Values by the places of their tuples and the numbers of their attributes.
pub type Values = BTreeMap<(Place, usize), Option<Value>>;

/// Puts a value at a place and an attribute.
fn put_value(
    values: &mut Values,
    place: Place,
    attr: usize,
    value: Option<Value>,
) -> Result<(), AllocFailed<((Place, usize), Option<Value>)>>
    ensures updates { OnOk result (Updates cell_place_cmp values.old values.new (place, attr) (Some value)) }
{
    values.insert((place, attr), value)?;
    Ok(())
}

/// The values of cells, by their places and attributes.
pub fn values_of(alloc: Global, cells: Items<Cell>) -> Result<Values, AllocError>
    ensures { IfOk result (λ values. AreValues cells (get cell_place_cmp values)) }
{
    let mut values = BTreeMap::new(alloc);
    for cell in cells.into_vec() {
        let place = Place {
            key: cell.key,
            key_class: cell.key_class,
            class: cell.label,
        };
        put_value(&mut values, place, cell.attr, cell.value)?;
    }
    Ok(values)
}

/// A copy of the value at a cell's place, null where there is none.
fn value_at(values: &Values, cell_place: &(Place, usize)) -> Result<Option<Value>, AllocError>
    ensures { IfOk result (λ value. value ≡ unwrap_or (get cell_place_cmp values.now cell_place.now) None) }
{
    match values.get(cell_place) {
        Some(Some(value)) => Ok(Some(value.copy()?)),
        _ => Ok(None),
    }
}

/// The tuple of a node: its place, and its elements.
fn row_of(alloc: Global, values: &Values, node: Node) -> Result<(Place, Items<Element>), AllocError>
    ensures place { IfOk result (λ row. row.0 ≡ place_of_node node) }
    ensures elements { IfOk result (λ row. row.1 ≡ elements_of (get cell_place_cmp values.now) node) }
{
    let place = Place {
        key: node.key,
        key_class: node.key_class,
        class: node.label,
    };
    let mut cell_place = (place, 0);
    let mut elements = Vec::with_capacity(alloc, node.pattern.as_slice().len())?;
    for (attr, class) in node.pattern.as_slice().iter().enumerate() {
        cell_place.0.class = *class;
        cell_place.1 = attr;
        let value = value_at(values, &cell_place)?;
        elements.push(Element {
            value,
            class: *class,
        })?;
    }
    let mut place = cell_place.0;
    place.class = node.label;
    Ok((place, Items::from(elements)))
}

/// The tuples of nodes, by their places.
pub fn rows_of(alloc: Global, nodes: Items<Node>, values: &Values) -> Result<TupleMap, AllocError>
    ensures rows { IfOk result (λ rows. AreRows (get cell_place_cmp values.now) nodes (get place_cmp rows)) }
    ensures ordered { IfOk result (IsOrdered place_cmp) }
{
    let mut rows = BTreeMap::new(alloc);
    for node in nodes.into_vec() {
        let (place, elements) = row_of(alloc, values, node)?;
        put_tuple(&mut rows, place, elements)?;
    }
    Ok(rows)
}
