//! The tuple that an update adds at a level above the tuple that it updates: it has the classes of that one, but for
//! the
//! attributes that the update sets. The outline of it has a class for each attribute, and values where the update sets
//! one; the other values
//! are read off the entity's tuples of those classes.
ghost use Rattle.std.specs.Prelude.{◌≡◌, List, IfOk, OnOk, None};
ghost use Rattle.std.specs.FinMap.{insert};
ghost use Rattle.mls_scheme.specs.declared.tuple.Element.{Element as SpecElement};
ghost use Rattle.mls_filterview.specs.Content.{with_relation};
ghost use Rattle.mls_filterview.specs.Calls.{IsStep, ChangesAt};
ghost use Rattle.mls_filterview.specs.Fragment.{IsMadeOf, node_of, cells_of};
ghost use Rattle.mls_updates.specs.Steps.{outline, CanAddTuple};
ghost use Rattle.mls_updates.specs.Writes.{set_element};

use crate::adding::add_tuple;
use crate::new_tuple::NewTuple;
use crate::sets::copy_value;
use mls_filterview::{Base, BaseFault, settle};
use mls_lattice::{Items, LabelNo};
use mls_scheme::{Element, Place, RelNo, Value};
use std::alloc::{AllocError, Global};

/// One element of the outline: where the update sets the attribute, the new value, of the class `w` that it is made at;
/// else null, of the class that the attribute has in the tuple that is updated.
fn outline_element(
    w: LabelNo,
    sets: &[(usize, Option<Value>)],
    attr: usize,
    class: LabelNo,
) -> Result<Element, AllocError>
    ensures { IfOk result (λ e. e ≡ set_element w sets.now attr (record { value = None; class = class })) }
{
    for set in sets {
        if set.0 == attr {
            let value = copy_value(&set.1)?;
            return Ok(Element { value, class: w });
        }
    }
    Ok(Element { value: None, class })
}

/// All elements of the outline, in the order of the attributes. `pattern` has the classes of the tuple that is updated.
fn outline_elements(
    alloc: Global,
    w: LabelNo,
    sets: &[(usize, Option<Value>)],
    pattern: &[LabelNo],
) -> Result<Vec<Element>, AllocError>
    ensures { IfOk result (λ v. v.items ≡ outline w sets.now 0 pattern.now) }
{
    let mut elements = Vec::new(alloc);
    for (attr, class) in pattern.iter().enumerate() {
        elements.push(outline_element(w, sets, attr, *class)?)?;
    }
    Ok(elements)
}

/// The outline at its place in its relation. The class of the place is the class that the update is made at.
fn outline_tuple(
    alloc: Global,
    relation: RelNo,
    place: Place,
    sets: &[(usize, Option<Value>)],
    pattern: &[LabelNo],
) -> Result<NewTuple, AllocError>
    ensures { IfOk result (λ r. r ≡ record {
      relation = relation;
      place = place;
      elements = outline place.class sets.now 0 pattern.now;
    }) }
{
    let elements = outline_elements(alloc, place.class, sets, pattern)?;
    Ok(NewTuple {
        relation,
        place,
        elements: Items::from(elements),
    })
}

/// Adds the new tuple. Only the node and the values of its own class are written: a value of another class is one that
/// the entity's tuple of that class has, and it stays there.
pub(crate) fn add_outline<B: Base>(
    alloc: Global,
    base: &mut B,
    relation: RelNo,
    place: Place,
    sets: &[(usize, Option<Value>)],
    pattern: &[LabelNo],
) -> Result<(), BaseFault>
    requires { CanAddTuple B.seen base.old (record {
      relation = relation;
      place = place;
      elements = outline place.class sets.now 0 pattern.now;
    }) }
    ensures step { IsStep B.seen base.old base.new result }
    ensures access { ChangesAt B.seen place.class base.old base.new }
    ensures done { (B.seen base.new).is_clean → (es : List SpecElement)
        → IsMadeOf ((B.seen base.old).state.now.db relation) (node_of
        (place, outline place.class sets.now 0 pattern.now))
        (cells_of (place, outline place.class sets.now 0 pattern.now)) es
        → OnOk result ((B.seen base.new).state
        ≡ with_relation (B.seen base.old).state relation (insert ((B.seen base.old).state.now.db relation) place es)) }
{
    let tuple = settle(base, outline_tuple(alloc, relation, place, sets, pattern))?;
    add_tuple(alloc, base, &tuple)
}
