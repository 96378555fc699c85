//! The view of a list of tuples (Jajodia and Sandhu 1991).
ghost use Rattle.std.specs.Prelude.{◌≡◌, ◌<◌, ◌↔◌, ℕ, IfOk, OnOk, length, map};
ghost use Rattle.std.specs.List.Sorted.{IsStrictlySortedBy};
ghost use Rattle.std.specs.declared.cmp.Ordering.TheVariants.{Equal};
ghost use Rattle.std.specs.List.{AllByRecursion};
ghost use Rattle.mls_lattice.specs.Policy.{labels_of};
ghost use Rattle.mls_scheme.specs.Tuple.{HasClassesBelow};
ghost use Rattle.mls_scheme.specs.Table.{Table, IsIn};
ghost use Rattle.mls_scheme.specs.declared.tuple.Tuple.{Tuple as SpecTuple};
ghost use Rattle.mls_filterview.specs.View.{hide, filtered, View, rows, IsAmong};
ghost use Rattle.mls_filterview.specs.Stored.{IsStored};
ghost use Rattle.mls_filterview.specs.Filtering.{EachOnce, seen, greatest_from, class_number, row_of};

use crate::maximal::maximal_tuples;
use crate::row::PlacedTuple;
use mls_lattice::{Items, LabelNo, Policy};
use mls_scheme::{Element, Place, Tuple, copy_key};
use std::alloc::{AllocError, Global};

/// What a level sees of a list of tuples: each of them with what the level does not dominate hidden, but for those
/// that others subsume, each once.
///
/// Rows are put in order, and then compared within an entity. Tuples of the stored form come in the order of
/// key, number of the key class and number of the tuple class; of others the last part is the class that is
/// reached from the key class by climbing to each that dominates.
pub fn filter(
    alloc: Global,
    policy: &Policy,
    tuples: &[Tuple],
    label: LabelNo,
) -> Result<Vec<Tuple>, AllocError>
    requires classes { AllByRecursion (HasClassesBelow (length policy.now.labels)) tuples.now }
    requires label { label < length policy.now.labels }
    ensures members { IfOk result
        (λ v. (t : SpecTuple) → IsAmong t v.items ↔ View (labels_of policy.now) (λ s. IsAmong s tuples.now) label t) }
    ensures once { IfOk result (λ v. EachOnce v.items) }
    ensures rows { IfOk result (λ v. (n : ℕ) (T : Table) → IsStored (labels_of policy.now) n T
        → ((t : SpecTuple) → IsAmong t tuples.now ↔ IsIn T t) → v.items ≡ rows (labels_of policy.now) label T) }
{
    policy.use_invariant();
    let seen = seen(alloc, policy, tuples, label)?;
    let mut rows = rows_of(alloc, policy, seen)?;
    arrange(&mut rows)?;
    maximal_tuples(alloc, rows)
}

/// What a level sees of the tuples whose key class it dominates.
fn seen(
    alloc: Global,
    policy: &Policy,
    tuples: &[Tuple],
    label: LabelNo,
) -> Result<Vec<Tuple>, AllocError>
    requires classes { AllByRecursion (HasClassesBelow (length policy.now.labels)) tuples.now }
    requires label { label < length policy.now.labels }
    ensures { IfOk result (λ v. v.items ≡ seen (labels_of policy.now) label tuples.now) }
{
    let mut seen = Vec::new(alloc);
    for tuple in tuples {
        if policy.dominates(label, tuple.key_class) {
            seen.push(filtered(alloc, policy, tuple, label)?)?;
        }
    }
    Ok(seen)
}

/// What a level sees of a tuple.
fn filtered(
    alloc: Global,
    policy: &Policy,
    tuple: &Tuple,
    label: LabelNo,
) -> Result<Tuple, AllocError>
    requires classes { HasClassesBelow (length policy.now.labels) tuple.now }
    requires label { label < length policy.now.labels }
    ensures { IfOk result (λ t. t ≡ filtered (labels_of policy.now) label tuple.now) }
{
    let mut elements = Vec::new(alloc);
    for element in tuple.elements.as_slice() {
        elements.push(hide(policy, element, tuple.key_class, label)?)?;
    }
    Ok(Tuple {
        key: copy_key(&tuple.key)?,
        key_class: tuple.key_class,
        elements: Items::from(elements),
    })
}

/// What a level sees of an element.
fn hide(
    policy: &Policy,
    element: &Element,
    key_class: LabelNo,
    label: LabelNo,
) -> Result<Element, AllocError>
    requires class { element.now.class < length policy.now.labels }
    requires label { label < length policy.now.labels }
    ensures { IfOk result (λ e. e ≡ hide (labels_of policy.now) label key_class element.now) }
{
    if policy.dominates(label, element.class) {
        element.copy()
    } else {
        Ok(Element {
            value: None,
            class: key_class,
        })
    }
}

/// The tuples with their places.
#[tactic(auto, unfolding(crate::specs::Filtering::class_number))]
fn rows_of(
    alloc: Global,
    policy: &Policy,
    tuples: Vec<Tuple>,
) -> Result<Vec<PlacedTuple>, AllocError>
    requires { AllByRecursion (HasClassesBelow (length policy.now.labels)) tuples.items }
    ensures { IfOk result (λ v. v.items ≡ map (row_of (labels_of policy.now)) tuples.items) }
{
    let mut rows = Vec::new(alloc);
    for tuple in tuples {
        let class = greatest_class(policy, tuple.key_class, &tuple.elements);
        let place = Place {
            key: tuple.key,
            key_class: tuple.key_class,
            class,
        };
        rows.push(PlacedTuple {
            place,
            elements: tuple.elements,
        })?;
    }
    Ok(rows)
}

/// The number of the greatest of the classes of a tuple, where there is one.
pub(crate) fn greatest_class(policy: &Policy, key_class: LabelNo, elements: &[Element]) -> LabelNo
    requires key_class { key_class < length policy.now.labels }
    requires elements { AllByRecursion (λ e. e.class < length policy.now.labels) elements.now }
    ensures class { result ≡ greatest_from (labels_of policy.now) key_class elements.now }
    ensures known { result < length policy.now.labels }
{
    let mut class = key_class;
    for element in elements {
        if policy.dominates(element.class, class) {
            class = element.class;
        }
    }
    class
}

/// The number of the greatest of the classes of a tuple, where there is one: it is then that of the tuple's class.
#[tactic(auto, unfolding(crate::specs::Filtering::class_number))]
pub fn class_number(policy: &Policy, tuple: &Tuple) -> LabelNo
    requires { HasClassesBelow (length policy.now.labels) tuple.now }
    ensures class { result ≡ class_number (labels_of policy.now) tuple.now }
    ensures known { result < length policy.now.labels }
{
    greatest_class(policy, tuple.key_class, &tuple.elements)
}

/// Puts items in order, and keeps one of those that tie.
fn arrange<T: Ord + Drop>(items: &mut Vec<T>) -> Result<(), AllocError>
    ensures sorted { OnOk result (IsStrictlySortedBy T.cmp items.new.items) }
    ensures from { OnOk result ((x : T) → IsAmong x items.new.items → IsAmong x items.old.items) }
    ensures kept { OnOk result ((x : T) → IsAmong x items.old.items
        → (y : T) × IsAmong y items.new.items × (T.cmp x y ≡ Equal)) }
{
    items.sort()?;
    items.dedup();
    Ok(())
}
