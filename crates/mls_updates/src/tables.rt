//! The tuples that a base holds: a map for each relation that was written to.
ghost use Rattle.std.specs.Prelude.{◌≡◌, ℕ, nat_eq, false, IfOk, OnOk, option_map};
ghost use Rattle.std.specs.FinMap.{get, insert, remove};
ghost use Rattle.mls_scheme.specs.Table.{change};
ghost use Rattle.mls_filterview.specs.Assembly.{table_of};
ghost use Rattle.mls_filterview.specs.Content.{with_table};
ghost use Rattle.mls_filterview.specs.Fragment.{AreFragments, IsEntityPart, classes, set_in};
ghost use Rattle.mls_updates.specs.States.{tables_of};

use mls_filterview::{
    Fragment, TupleMap, add_parts, classes_of, elements_at, fragment_of, put_tuple, remove_tuple,
    with_cell,
};
use mls_lattice::{Items, LabelNo};
use mls_scheme::{Element, Place, RelNo, Value};
use std::alloc::{AllocError, Global};
use std::collections::BTreeMap;

/// Maps of tuples by the numbers of their relations. A relation without a map has no tuple.
pub(crate) type TupleMaps = BTreeMap<RelNo, TupleMap>;

/// The same tuples.
pub(crate) fn copy_tables(tables: &TupleMaps) -> Result<TupleMaps, AllocError>
    ensures { IfOk result (λ copy. tables_of copy ≡ tables_of tables.now) }
{
    tables.clone()
}

/// The elements of the tuple of a relation at a place, if there is one.
pub(crate) fn found_at<'a>(
    tables: &'a TupleMaps,
    relation: RelNo,
    place: &Place,
) -> Option<&'a Items<Element>>
    ensures { option_map (λ es. es.now) result ≡ get (tables_of tables.now relation) place.now }
{
    match tables.get(&relation) {
        Some(tuples) => elements_at(tuples, place),
        None => None,
    }
}

/// What labels hold of a relation.
pub(crate) fn fragments(
    alloc: Global,
    tables: &TupleMaps,
    relation: RelNo,
    labels: &[LabelNo],
) -> Result<Fragment, AllocError>
    ensures { IfOk result (AreFragments (tables_of tables.now relation) labels.now) }
{
    match tables.get(&relation) {
        Some(tuples) => fragment_of(alloc, tuples, labels),
        None => {
            let none = BTreeMap::new(alloc);
            fragment_of(alloc, &none, labels)
        }
    }
}

/// What a class holds of one entity.
pub(crate) fn entity(
    alloc: Global,
    tables: &TupleMaps,
    relation: RelNo,
    place: &Place,
) -> Result<Fragment, AllocError>
    ensures { IfOk result (IsEntityPart (tables_of tables.now relation) place.now) }
{
    let mut nodes = Vec::new(alloc);
    let mut cells = Vec::new(alloc);
    if let Some(elements) = found_at(tables, relation, place) {
        add_parts(alloc, &mut nodes, &mut cells, place, elements)?;
    }
    Ok(Fragment {
        nodes: Items::from(nodes),
        cells: Items::from(cells),
    })
}

/// The classes of the elements of the tuple of a relation at a place, if there is one.
pub(crate) fn pattern(
    alloc: Global,
    tables: &TupleMaps,
    relation: RelNo,
    place: &Place,
) -> Result<Option<Items<LabelNo>>, AllocError>
    ensures { IfOk result (λ pattern. pattern ≡ option_map classes (get (tables_of tables.now relation) place.now)) }
{
    match found_at(tables, relation, place) {
        Some(elements) => Ok(Some(classes_of(alloc, elements)?)),
        None => Ok(None),
    }
}

/// Takes the tuples of a relation out.
fn take(alloc: Global, tables: &mut TupleMaps, relation: RelNo) -> TupleMap
    ensures taken { table_of result.entries ≡ tables_of tables.old relation }
    ensures others { (r : ℕ) → nat_eq r relation ≡ false → tables_of tables.new r ≡ tables_of tables.old r }
{
    match tables.remove(&relation) {
        Some(tuples) => tuples,
        None => BTreeMap::new(alloc),
    }
}

/// Puts tuples in place of those of a relation.
fn put(tables: &mut TupleMaps, relation: RelNo, tuples: TupleMap) -> Result<(), AllocError>
    ensures { OnOk result (tables_of tables.new ≡ with_table (tables_of tables.old) relation
        (table_of tuples.entries)) }
{
    tables.insert(relation, tuples)?;
    Ok(())
}

/// Adds a tuple.
pub(crate) fn add(
    alloc: Global,
    tables: &mut TupleMaps,
    relation: RelNo,
    place: Place,
    elements: Items<Element>,
) -> Result<(), AllocError>
    ensures { OnOk result (tables_of tables.new
        ≡ with_table (tables_of tables.old) relation (insert (tables_of tables.old relation) place elements)) }
{
    let mut tuples = take(alloc, tables, relation);
    put_tuple(&mut tuples, place, elements)?;
    put(tables, relation, tuples)?;
    Ok(())
}

/// Sets the value of a cell, in each tuple of the entity that has it.
pub(crate) fn set(
    alloc: Global,
    tables: &mut TupleMaps,
    relation: RelNo,
    place: &Place,
    attr: usize,
    value: &Option<Value>,
) -> Result<(), AllocError>
    ensures { OnOk result (tables_of tables.new ≡ with_table (tables_of tables.old) relation
        (change (set_in place.now attr value.now) (tables_of tables.old relation))) }
{
    let tuples = take(alloc, tables, relation);
    let changed = with_cell(alloc, tuples, place, attr, value)?;
    put(tables, relation, changed)?;
    Ok(())
}

/// Removes the tuple at a place, if there is one.
pub(crate) fn drop_at(
    alloc: Global,
    tables: &mut TupleMaps,
    relation: RelNo,
    place: &Place,
) -> Result<(), AllocError>
    ensures { OnOk result (tables_of tables.new
        ≡ with_table (tables_of tables.old) relation (remove (tables_of tables.old relation) place.now)) }
{
    let mut tuples = take(alloc, tables, relation);
    remove_tuple(&mut tuples, place);
    put(tables, relation, tuples)?;
    Ok(())
}
