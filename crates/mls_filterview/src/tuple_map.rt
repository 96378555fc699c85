//! The tuples of a relation as a map by their places, and the table that it is.
ghost use Rattle.std.specs.Prelude.{◌≡◌, ◌++◌, ◌∷◌, [], map, nat_eq, IfOk, OnOk, Some, filter, flat_map, option_map};
ghost use Rattle.std.specs.List.{list_any};
ghost use Rattle.std.specs.FinMap.{get, insert, remove};
ghost use Rattle.std.specs.BTreeMap.{Updates, insert_entry, IsOrdered};
ghost use Rattle.mls_scheme.specs.Table.{place_cmp, change};
ghost use Rattle.mls_filterview.specs.Assembly.{table_of};
ghost use Rattle.mls_filterview.specs.Fragment.{AreFragments, node_of, cells_of, is_of_any, set_from, set_in};

use crate::entity::is_entity;
use crate::fragment::{Cell, Fragment, Node};
use crate::row::PlacedTuple;
use crate::splitting::{add_cells, node_of};
use mls_lattice::{Items, LabelNo};
use mls_scheme::{Element, Place, Value};
use std::alloc::{AllocError, AllocFailed, Global};
use std::collections::BTreeMap;

/// Elements by the places of their tuples.
pub type TupleMap = BTreeMap<Place, Items<Element>>;

/// Puts elements at a place.
pub fn put_tuple(
    tuples: &mut TupleMap,
    place: Place,
    elements: Items<Element>,
) -> Result<(), AllocFailed<(Place, Items<Element>)>>
    ensures updates { OnOk result (Updates place_cmp tuples.old tuples.new place (Some elements)) }
    ensures entries { OnOk result (tuples.new.entries ≡ insert_entry place_cmp tuples.old.entries place elements) }
    ensures table { OnOk result (table_of tuples.new.entries ≡ insert (table_of tuples.old.entries) place elements) }
    ensures ordered { OnOk result (IsOrdered place_cmp tuples.new) }
{
    tuples.insert(place, elements)?;
    Ok(())
}

/// Removes the tuple at a place, if there is one.
pub fn remove_tuple(tuples: &mut TupleMap, place: &Place)
    ensures { table_of tuples.new.entries ≡ remove (table_of tuples.old.entries) place.now }
{
    // That the places are in order.
    let _count = tuples.len();
    let _removed = tuples.remove(place);
}

/// The elements at a place, if a tuple is there.
pub fn elements_at<'a>(tuples: &'a TupleMap, place: &Place) -> Option<&'a Items<Element>>
    ensures { option_map (λ es. es.now) result ≡ get (table_of tuples.now.entries) place.now }
{
    // That the places are in order.
    let _count = tuples.len();
    tuples.get(place)
}

/// The entries of a map, in the order of places.
pub(crate) fn entries_of(alloc: Global, tuples: TupleMap) -> Result<Vec<PlacedTuple>, AllocError>
    ensures items { IfOk result (λ entries. entries.items ≡ tuples.entries) }
    ensures ordered { IsOrdered place_cmp tuples }
{
    let pairs: Vec<(Place, Items<Element>)> = tuples.into_iter().collect(alloc)?;
    let mut entries = Vec::new(alloc);
    for (place, elements) in pairs {
        entries.push(PlacedTuple { place, elements })?;
    }
    Ok(entries)
}

/// Adds the node and the cells of the tuple at a place.
pub fn add_parts(
    alloc: Global,
    nodes: &mut Vec<Node>,
    cells: &mut Vec<Cell>,
    place: &Place,
    elements: &[Element],
) -> Result<(), AllocError>
    ensures nodes { OnOk result (nodes.new.items ≡ nodes.old.items ++ node_of (place.now, elements.now) ∷ []) }
    ensures cells { OnOk result (cells.new.items ≡ cells.old.items ++ cells_of (place.now, elements.now)) }
{
    nodes.push(node_of(alloc, place, elements)?)?;
    add_cells(cells, place, elements)
}

/// Whether a class is one of these labels.
fn is_any(labels: &[LabelNo], class: LabelNo) -> bool
    ensures { result ≡ list_any (λ m. nat_eq class m) labels.now }
{
    labels.iter().any(|label| class == *label)
}

/// Adds the node and the cells of the tuple at a place, where its class is one of these labels.
fn add_parts_of(
    alloc: Global,
    labels: &[LabelNo],
    nodes: &mut Vec<Node>,
    cells: &mut Vec<Cell>,
    place: &Place,
    elements: &[Element],
) -> Result<(), AllocError>
    ensures nodes { OnOk result (nodes.new.items
        ≡ nodes.old.items ++ map node_of (filter (is_of_any labels.now) ((place.now, elements.now) ∷ []))) }
    ensures cells { OnOk result (cells.new.items
        ≡ cells.old.items ++ flat_map cells_of (filter (is_of_any labels.now) ((place.now, elements.now) ∷ []))) }
{
    if is_any(labels, place.class) {
        add_parts(alloc, nodes, cells, place, elements)?;
    }
    Ok(())
}

/// What these labels hold of a relation.
pub fn fragment_of(
    alloc: Global,
    tuples: &TupleMap,
    labels: &[LabelNo],
) -> Result<Fragment, AllocError>
    ensures { IfOk result (AreFragments (table_of tuples.now.entries) labels.now) }
{
    let mut nodes = Vec::new(alloc);
    let mut cells = Vec::new(alloc);
    for (place, elements) in tuples.iter() {
        add_parts_of(alloc, labels, &mut nodes, &mut cells, place, elements)?;
    }
    Ok(Fragment {
        nodes: Items::from(nodes),
        cells: Items::from(cells),
    })
}

/// The elements with a new value at an attribute, where its class is the label.
fn with_value(
    elements: Items<Element>,
    attr: usize,
    label: LabelNo,
    value: &Option<Value>,
) -> Result<Items<Element>, AllocError>
    ensures { IfOk result (λ es. es ≡ set_from attr label value.now 0 elements) }
{
    let mut changed = elements.into_vec();
    if attr < changed.len() && changed[attr].class == label {
        changed[attr] = Element {
            value: value.clone()?,
            class: label,
        };
    }
    Ok(Items::from(changed))
}

/// The tuples, with the value of a cell set in each of the entity that has it.
pub fn with_cell(
    alloc: Global,
    tuples: TupleMap,
    place: &Place,
    attr: usize,
    value: &Option<Value>,
) -> Result<TupleMap, AllocError>
    ensures { IfOk result (λ new. table_of new.entries
        ≡ change (set_in place.now attr value.now) (table_of tuples.entries)) }
{
    let mut changed = BTreeMap::new(alloc);
    for tuple in entries_of(alloc, tuples)? {
        let PlacedTuple {
            place: at,
            elements,
        } = tuple;
        let mut elements = elements;
        if is_entity(place, &at) {
            elements = with_value(elements, attr, place.class, value)?;
        }
        put_tuple(&mut changed, at, elements)?;
    }
    Ok(changed)
}
