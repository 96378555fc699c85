//! The root of an entity: a tuple of one class.
ghost use Rattle.std.specs.Prelude.{◌≡◌, IfOk, OnOk};
ghost use Rattle.std.specs.FinMap.{insert};
ghost use Rattle.mls_filterview.specs.Calls.{IsStep, ChangesAt};
ghost use Rattle.mls_filterview.specs.Content.{with_relation};
ghost use Rattle.mls_updates.specs.Writes.{root};
ghost use Rattle.mls_updates.specs.Steps.{CanAddTuple};

use crate::adding::add_tuple;
use crate::new_tuple::NewTuple;
use crate::sets::copy_value;
use mls_filterview::{Base, BaseFault, settle};
use mls_lattice::{Items, LabelNo};
use mls_scheme::{Element, Place, RelNo, Value};
use std::alloc::{AllocError, Global};

/// Elements of one class.
fn root_elements(
    alloc: Global,
    class: LabelNo,
    values: &[Option<Value>],
) -> Result<Vec<Element>, AllocError>
    ensures { IfOk result (λ v. v.items ≡ root class values.now) }
{
    let mut elements = Vec::new(alloc);
    for value in values {
        elements.push(Element {
            value: copy_value(value)?,
            class,
        })?;
    }
    Ok(elements)
}

/// The root at a place.
fn root_at(
    alloc: Global,
    relation: RelNo,
    place: Place,
    values: &[Option<Value>],
) -> Result<NewTuple, AllocError>
    ensures { IfOk result (λ r. r ≡ record {
      relation = relation;
      place = place;
      elements = root place.class values.now;
    }) }
{
    let elements = root_elements(alloc, place.class, values)?;
    Ok(NewTuple {
        relation,
        place,
        elements: Items::from(elements),
    })
}

/// Adds the root at a place.
pub(crate) fn add_root<B: Base>(
    alloc: Global,
    base: &mut B,
    relation: RelNo,
    place: Place,
    values: &[Option<Value>],
) -> Result<(), BaseFault>
    requires { CanAddTuple B.seen base.old (record {
      relation = relation;
      place = place;
      elements = root place.class values.now;
    }) }
    ensures step { IsStep B.seen base.old base.new result }
    ensures access { ChangesAt B.seen place.class base.old base.new }
    ensures done { (B.seen base.new).is_clean → OnOk result ((B.seen base.new).state
        ≡ with_relation (B.seen base.old).state relation
        (insert ((B.seen base.old).state.now.db relation) place (root place.class values.now))) }
{
    let tuple = settle(base, root_at(alloc, relation, place, values))?;
    add_tuple(alloc, base, &tuple)
}
