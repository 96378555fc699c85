//! The rules that speak of the other tuples of a tuple's entity.
ghost use Rattle.std.specs.Prelude.{◌≡◌, ◌<◌, length, drop};
ghost use Rattle.std.specs.List.{list_any, AllByRecursion};
ghost use Rattle.mls_lattice.specs.Lattice.{pair_of, same_pair};
ghost use Rattle.mls_lattice.specs.Policy.{labels_of};
ghost use Rattle.mls_scheme.specs.Tuple.{HasClassesBelow};
ghost use Rattle.mls_filterview.specs.Checking.{all_classes, has_same_class, is_of_class, has_element_at, has_below};
ghost use Rattle.mls_filterview.specs.Checking.{agrees_with_first, is_determined, is_comparable, is_chain};
ghost use Rattle.mls_filterview.specs.Checking.{has_each_class};

use crate::entity::is_one_entity;
use mls_lattice::{Label, LabelNo, Policy};
use mls_scheme::{Element, Tuple, tuple_class};

/// Whether two labels have one value.
pub fn is_same_label(left: Label, right: Label) -> bool
    ensures { result ≡ same_pair (pair_of left) (pair_of right) }
{
    left == right
}

/// Whether two tuples have one entity and one class.
fn has_same_class(policy: &Policy, other: &Tuple, tuple: &Tuple) -> bool
    requires other { HasClassesBelow (length policy.now.labels) other.now }
    requires own { HasClassesBelow (length policy.now.labels) tuple.now }
    ensures { result ≡ has_same_class (labels_of policy.now) tuple.now other.now }
{
    is_one_entity(other, tuple)
        && is_same_label(tuple_class(policy, other), tuple_class(policy, tuple))
}

/// Whether one of the tuples has the entity and the class of this one.
fn is_class_taken(policy: &Policy, tuples: &[Tuple], tuple: &Tuple) -> bool
    requires classes { AllByRecursion (HasClassesBelow (length policy.now.labels)) tuples.now }
    requires own { HasClassesBelow (length policy.now.labels) tuple.now }
    ensures { result ≡ list_any (has_same_class (labels_of policy.now) tuple.now) tuples.now }
{
    for other in tuples {
        if has_same_class(policy, other, tuple) {
            return true;
        }
    }
    false
}

/// Whether the first tuple is of a class and of the entity of the second.
fn is_of_class(policy: &Policy, other: &Tuple, tuple: &Tuple, class: LabelNo) -> bool
    requires other { HasClassesBelow (length policy.now.labels) other.now }
    requires class { class < length policy.now.labels }
    ensures { result ≡ is_of_class (labels_of policy.now) tuple.now class other.now }
{
    is_one_entity(other, tuple) && is_same_label(tuple_class(policy, other), policy.value(class))
}

/// Whether the list has the element at a place.
#[tactic(auto, using(crate::proofs::EntitySteps::element_steps))]
fn has_element_at(element: &Element, elements: &[Element], place: usize) -> bool
    ensures { result ≡ has_element_at element.now (drop place elements.now) }
{
    match elements.get(place) {
        Some(other) => element.same(other),
        None => false,
    }
}

/// Whether the second list has the elements of the first wherever a class dominates theirs.
#[tactic(auto, using(crate::proofs::EntitySteps::below_steps))]
pub(crate) fn has_below(
    policy: &Policy,
    class: LabelNo,
    left: &[Element],
    right: &[Element],
) -> bool
    requires class { class < length policy.now.labels }
    requires classes { AllByRecursion (λ e. e.class < length policy.now.labels) left.now }
    ensures { result ≡ has_below (labels_of policy.now) class left.now right.now }
{
    for (i, element) in left.iter().enumerate() {
        if policy.dominates(class, element.class) && !has_element_at(element, right, i) {
            return false;
        }
    }
    true
}

/// Whether the first of the tuples that is of a class and of the entity of this one agrees with it, if there is one.
fn agrees_with_first(policy: &Policy, tuples: &[Tuple], tuple: &Tuple, class: LabelNo) -> bool
    requires classes { AllByRecursion (HasClassesBelow (length policy.now.labels)) tuples.now }
    requires own { HasClassesBelow (length policy.now.labels) tuple.now }
    requires class { class < length policy.now.labels }
    ensures { result ≡ agrees_with_first (labels_of policy.now) tuple.now class tuples.now }
{
    for other in tuples {
        if is_of_class(policy, other, tuple, class) {
            return has_below(policy, class, &tuple.elements, &other.elements);
        }
    }
    true
}

/// Whether the entity's first tuple of each class of a tuple agrees with it.
fn agrees_with_firsts(policy: &Policy, tuples: &[Tuple], tuple: &Tuple) -> bool
    requires classes { AllByRecursion (HasClassesBelow (length policy.now.labels)) tuples.now }
    requires own { HasClassesBelow (length policy.now.labels) tuple.now }
    ensures { result ≡ all_classes (λ m. agrees_with_first (labels_of policy.now) tuple.now m tuples.now) tuple.now }
{
    if !agrees_with_first(policy, tuples, tuple, tuple.key_class) {
        return false;
    }
    for element in tuple.elements.as_slice() {
        if !agrees_with_first(policy, tuples, tuple, element.class) {
            return false;
        }
    }
    true
}

/// Whether no earlier row has the entity and the class of a row, and the entity's first tuple of each of its classes
/// agrees with it.
pub(crate) fn is_determined(policy: &Policy, tuples: &[Tuple], row: usize) -> bool
    requires classes { AllByRecursion (HasClassesBelow (length policy.now.labels)) tuples.now }
    requires row { row < length tuples.now }
    ensures { result ≡ is_determined (labels_of policy.now) tuples.now row }
{
    let tuple = &tuples[row];
    !is_class_taken(policy, &tuples[..row], tuple) && agrees_with_firsts(policy, tuples, tuple)
}

/// Whether one of two classes dominates the other.
fn is_comparable(policy: &Policy, left: LabelNo, right: LabelNo) -> bool
    requires left { left < length policy.now.labels }
    requires right { right < length policy.now.labels }
    ensures { result ≡ is_comparable (labels_of policy.now) left right }
{
    policy.dominates(right, left) || policy.dominates(left, right)
}

/// Whether a class is comparable with each class of a tuple.
fn is_comparable_to_all(policy: &Policy, tuple: &Tuple, class: LabelNo) -> bool
    requires own { HasClassesBelow (length policy.now.labels) tuple.now }
    requires class { class < length policy.now.labels }
    ensures { result ≡ all_classes (is_comparable (labels_of policy.now) class) tuple.now }
{
    if !is_comparable(policy, class, tuple.key_class) {
        return false;
    }
    for element in tuple.elements.as_slice() {
        if !is_comparable(policy, class, element.class) {
            return false;
        }
    }
    true
}

/// Whether the classes of a tuple are comparable.
pub(crate) fn is_chain(policy: &Policy, tuple: &Tuple) -> bool
    requires { HasClassesBelow (length policy.now.labels) tuple.now }
    ensures { result ≡ is_chain (labels_of policy.now) tuple.now }
{
    if !is_comparable_to_all(policy, tuple, tuple.key_class) {
        return false;
    }
    for element in tuple.elements.as_slice() {
        if !is_comparable_to_all(policy, tuple, element.class) {
            return false;
        }
    }
    true
}

/// Whether one of the tuples is of a class and of the entity of this one.
fn has_class(policy: &Policy, tuples: &[Tuple], tuple: &Tuple, class: LabelNo) -> bool
    requires classes { AllByRecursion (HasClassesBelow (length policy.now.labels)) tuples.now }
    requires class { class < length policy.now.labels }
    ensures { result ≡ list_any (is_of_class (labels_of policy.now) tuple.now class) tuples.now }
{
    for other in tuples {
        if is_of_class(policy, other, tuple, class) {
            return true;
        }
    }
    false
}

/// Whether the entity of a tuple has a tuple of each of its classes.
pub(crate) fn has_each_class(policy: &Policy, tuples: &[Tuple], tuple: &Tuple) -> bool
    requires classes { AllByRecursion (HasClassesBelow (length policy.now.labels)) tuples.now }
    requires own { HasClassesBelow (length policy.now.labels) tuple.now }
    ensures { result ≡ has_each_class (labels_of policy.now) tuples.now tuple.now }
{
    if !has_class(policy, tuples, tuple, tuple.key_class) {
        return false;
    }
    for element in tuple.elements.as_slice() {
        if !has_class(policy, tuples, tuple, element.class) {
            return false;
        }
    }
    true
}
