//! A tuple put together from its node, the cells of its class, and the tuples that there are.
ghost use Rattle.std.specs.Prelude.{◌≡◌, IfOk, None, unwrap_or};
ghost use Rattle.std.specs.FinMap.{get};
ghost use Rattle.mls_scheme.specs.Tuple.{at};
ghost use Rattle.mls_filterview.specs.Stored.{with_class};
ghost use Rattle.mls_filterview.specs.Assembly.{elements_from, value_held, value_in};
ghost use Rattle.mls_updates.specs.States.{tables_of};

use crate::tables::{TupleMaps, found_at};
use mls_filterview::Cell;
use mls_lattice::LabelNo;
use mls_scheme::{Element, Place, RelNo, Value, copy_key};
use std::alloc::{AllocError, Global};

/// The elements of a pattern: of the place's own class from the cells, of other classes from the entity's tuples.
pub(crate) fn elements_of(
    alloc: Global,
    tables: &TupleMaps,
    relation: RelNo,
    place: &Place,
    cells: &[Cell],
    pattern: &[LabelNo],
) -> Result<Vec<Element>, AllocError>
    ensures { IfOk result (λ v. v.items ≡ elements_from
        (value_held (get (tables_of tables.now relation)) place.now.class cells.now) place.now 0 pattern.now) }
{
    let mut elements = Vec::new(alloc);
    for (attr, class) in pattern.iter().enumerate() {
        let value = value_by_class(tables, relation, place, cells, attr, *class)?;
        elements.push(Element {
            value,
            class: *class,
        })?;
    }
    Ok(elements)
}

/// The value at an attribute of a class.
fn value_by_class(
    tables: &TupleMaps,
    relation: RelNo,
    place: &Place,
    cells: &[Cell],
    attr: usize,
    class: LabelNo,
) -> Result<Option<Value>, AllocError>
    ensures { IfOk result (λ v. v ≡ unwrap_or
        (value_held (get (tables_of tables.now relation)) place.now.class cells.now (
          with_class place.now class,
          attr,
        )) None) }
{
    if class == place.class {
        return value_among_cells(cells, attr);
    }
    let other = Place {
        key: copy_key(&place.key)?,
        key_class: place.key_class,
        class,
    };
    match found_at(tables, relation, &other) {
        Some(elements) => value_among(elements, attr),
        None => Ok(None),
    }
}

/// The value at an attribute among cells, null where there is none.
fn value_among_cells(cells: &[Cell], attr: usize) -> Result<Option<Value>, AllocError>
    ensures { IfOk result (λ v. v ≡ value_in attr cells.now) }
{
    for cell in cells {
        if cell.attr == attr {
            return cell.value.clone();
        }
    }
    Ok(None)
}

/// The value of an element, null where there is none.
fn value_among(elements: &[Element], attr: usize) -> Result<Option<Value>, AllocError>
    ensures { IfOk result (λ v. v ≡ (at elements.now attr).value) }
{
    match elements.get(attr) {
        Some(element) => element.value.clone(),
        None => Ok(None),
    }
}
