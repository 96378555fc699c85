//! Whether rows that were put together are content.
ghost use Rattle.std.specs.Prelude.{◌≡◌, ◌↔◌, ◌<◌, length, IsTrue, IfOk};
ghost use Rattle.std.specs.List.{AllByRecursion};
ghost use Rattle.std.specs.BTreeMap.{get};
ghost use Rattle.mls_lattice.specs.Policy.{labels_of};
ghost use Rattle.mls_scheme.specs.Scheme.{IsUnder};
ghost use Rattle.mls_scheme.specs.Table.{place_cmp};
ghost use Rattle.mls_filterview.specs.Stored.{IsContent};
ghost use Rattle.mls_filterview.specs.Assembly.{table_of};
ghost use Rattle.mls_filterview.specs.Checking.{are_declared, is_placed, agrees_with_found, is_closed, is_stored_row};

use crate::checking::is_right_alone;
use crate::entity_rules::has_below;
use crate::filtering::greatest_class;
use crate::row::tuple_at;
use crate::tuple_map::TupleMap;
use mls_lattice::{Items, Policy};
use mls_scheme::{Element, Place, Scheme, copy_key};
use std::alloc::{AllocError, Global};

/// Whether the classes of elements are numbers of labels, of which there are `count`.
pub(crate) fn are_declared(count: usize, elements: &[Element]) -> bool
    ensures { result ≡ are_declared count elements.now }
{
    for element in elements {
        if element.class.index() >= count {
            return false;
        }
    }
    true
}

/// Whether the classes of a tuple are numbers of labels, and its place has the greatest of them.
#[tactic(auto, unfolding(crate::specs::Filtering::class_number))]
fn is_placed(policy: &Policy, place: &Place, elements: &[Element]) -> bool
    ensures { result ≡ is_placed (length policy.now.labels) (labels_of policy.now) (place.now, elements.now) }
{
    let count = policy.label_count();
    if place.key_class.index() >= count {
        return false;
    }
    if !are_declared(count, elements) {
        return false;
    }
    place.class == greatest_class(policy, place.key_class, elements)
}

/// Whether there is a tuple at a place, and it has these elements wherever the class of the place dominates theirs.
fn is_agreed(policy: &Policy, rows: &TupleMap, place: &Place, elements: &[Element]) -> bool
    requires class { place.now.class < length policy.now.labels }
    requires classes { AllByRecursion (λ e. e.class < length policy.now.labels) elements.now }
    ensures { result ≡ agrees_with_found (labels_of policy.now) place.now.class elements.now
        (get place_cmp rows.now place.now) }
{
    match rows.get(place) {
        Some(others) => has_below(policy, place.class, elements, others),
        None => false,
    }
}

/// Whether for each class of a tuple its entity has a tuple of that class that agrees with it.
fn is_closed(
    policy: &Policy,
    rows: &TupleMap,
    place: &Place,
    elements: &[Element],
) -> Result<bool, AllocError>
    requires key_class { place.now.key_class < length policy.now.labels }
    requires classes { AllByRecursion (λ e. e.class < length policy.now.labels) elements.now }
    ensures { IfOk result (λ b. b ≡ is_closed (labels_of policy.now) (get place_cmp rows.now)
        (place.now, elements.now)) }
{
    let mut at = Place {
        key: copy_key(&place.key)?,
        key_class: place.key_class,
        class: place.key_class,
    };
    if !is_agreed(policy, rows, &at, elements) {
        return Ok(false);
    }
    for element in elements {
        at.class = element.class;
        if !is_agreed(policy, rows, &at, elements) {
            return Ok(false);
        }
    }
    Ok(true)
}

/// Whether the tuple at a place is as the stored form, the scheme and the other tuples of its entity want it.
fn is_stored_row(
    policy: &Policy,
    scheme: &Scheme,
    rows: &TupleMap,
    place: &Place,
    elements: &Items<Element>,
) -> Result<bool, AllocError>
    requires under { IsUnder (length policy.now.labels) scheme.now }
    ensures { IfOk result (λ b. b ≡ is_stored_row (length policy.now.labels) (labels_of policy.now) scheme.now
        (get place_cmp rows.now) (place.now, elements.now)) }
{
    if !is_placed(policy, place, elements) {
        return Ok(false);
    }
    let tuple = tuple_at(place, elements)?;
    if !is_right_alone(policy, scheme, &tuple) {
        return Ok(false);
    }
    is_closed(policy, rows, place, elements)
}

/// Whether rows are content: a relation of the stored form with the kinds and intervals of the scheme, each tuple at
/// its
/// place.
///
/// It takes memory for one tuple at a time, and looks up the other tuples of an entity by their places. `at` is
/// increased by the
/// number of tuples before the one that is not as it should be.
pub fn is_content(
    alloc: Global,
    policy: &Policy,
    scheme: &Scheme,
    rows: &TupleMap,
    at: &mut usize,
) -> Result<bool, AllocError>
    requires under { IsUnder (length policy.now.labels) scheme.now }
    ensures { IfOk result (λ b. IsTrue b ↔ IsContent (labels_of policy.now) scheme.now (table_of rows.now.entries)) }
{
    policy.use_invariant();
    for (place, elements) in rows.iter() {
        if !is_stored_row(policy, scheme, rows, place, elements)? {
            return Ok(false);
        }
        *at = at.saturating_add(1);
    }
    Ok(true)
}
