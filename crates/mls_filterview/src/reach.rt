//! Rows by their classes, in an order in which each stands behind those that it is derived from.
ghost use Rattle.std.specs.Prelude.{◌≡◌, ◌≤◌, ◌<◌, ◌++◌, nat_eq, length, IfOk, OnOk, filter, flat_map};
ghost use Rattle.std.specs.List.{AllByRecursion};
ghost use Rattle.mls_lattice.specs.Labels.{below};
ghost use Rattle.mls_lattice.specs.Policy.{labels_of};
ghost use Rattle.mls_filterview.specs.Reach.{numbers, reach, of_reach, upward, of_class};

use crate::row::{PlacedTuple, tuple_at};
use mls_lattice::{LabelNo, Policy};
use mls_scheme::Tuple;
use std::alloc::{AllocError, Global};

/// The declared labels, by number.
fn declared(alloc: Global, policy: &Policy) -> Result<Vec<LabelNo>, AllocError>
    ensures labels { IfOk result (λ v. v.items ≡ numbers (length (labels_of policy.now))) }
    ensures known { IfOk result (λ v. AllByRecursion (λ m. m < length policy.now.labels) v.items) }
{
    let mut labels = Vec::new(alloc);
    for number in 0..policy.label_count() {
        labels.push(LabelNo::new(number as u8))?;
    }
    Ok(labels)
}

/// How many of these labels a label dominates.
fn reach(policy: &Policy, labels: &[LabelNo], label: LabelNo) -> usize
    requires label { label < length policy.now.labels }
    requires known { AllByRecursion (λ m. m < length policy.now.labels) labels.now }
    ensures reach { result ≡ length (filter (λ k. below (labels_of policy.now) k label) labels.now) }
    ensures few { result ≤ length labels.now }
{
    let mut count = 0;
    for low in labels {
        if policy.dominates(label, *low) {
            count += 1;
        }
    }
    count
}

/// Whether a label dominates so many of the declared labels.
fn has_reach(policy: &Policy, labels: &[LabelNo], label: LabelNo, count: usize) -> bool
    requires label { label < length policy.now.labels }
    requires labels { labels.now ≡ numbers (length (labels_of policy.now)) }
    requires known { AllByRecursion (λ m. m < length policy.now.labels) labels.now }
    ensures { result ≡ nat_eq (reach (labels_of policy.now) label) count }
{
    reach(policy, labels, label) == count
}

/// Appends those of the declared labels that dominate so many.
fn push_of_reach(
    upward: &mut Vec<LabelNo>,
    policy: &Policy,
    labels: &[LabelNo],
    count: usize,
) -> Result<(), AllocError>
    requires labels { labels.now ≡ numbers (length (labels_of policy.now)) }
    requires known { AllByRecursion (λ m. m < length policy.now.labels) labels.now }
    ensures { OnOk result (upward.new.items ≡ upward.old.items ++ of_reach (labels_of policy.now) count) }
{
    for label in labels {
        if has_reach(policy, labels, *label, count) {
            upward.push(*label)?;
        }
    }
    Ok(())
}

/// The declared labels: those that dominate the fewest first.
fn upward(alloc: Global, policy: &Policy) -> Result<Vec<LabelNo>, AllocError>
    ensures { IfOk result (λ v. v.items ≡ upward (labels_of policy.now)) }
{
    let labels = declared(alloc, policy)?;
    let mut upward = Vec::new(alloc);
    for count in 0..policy.label_count() + 1 {
        push_of_reach(&mut upward, policy, &labels, count)?;
    }
    Ok(upward)
}

/// Appends the tuples of a class.
fn push_class(
    tuples: &mut Vec<Tuple>,
    rows: &[PlacedTuple],
    class: LabelNo,
) -> Result<(), AllocError>
    ensures { OnOk result (tuples.new.items ≡ tuples.old.items ++ of_class rows.now class) }
{
    for row in rows {
        if row.place.class == class {
            tuples.push(tuple_at(&row.place, &row.elements)?)?;
        }
    }
    Ok(())
}

/// The tuples of rows, class by class: those classes first that dominate the fewest labels.
pub(crate) fn in_order_of_reach(
    alloc: Global,
    policy: &Policy,
    rows: &[PlacedTuple],
) -> Result<Vec<Tuple>, AllocError>
    ensures { IfOk result (λ v. v.items ≡ flat_map (of_class rows.now) (upward (labels_of policy.now))) }
{
    let mut tuples = Vec::new(alloc);
    for class in upward(alloc, policy)? {
        push_class(&mut tuples, rows, class)?;
    }
    Ok(tuples)
}
