//! Whether a tuple has the numbers, the kinds and the intervals of a scheme.
ghost use Rattle.std.specs.Prelude.{◌≡◌, ◌<◌, ◌&&◌, length};
ghost use Rattle.std.specs.List.{AllByRecursion};
ghost use Rattle.mls_lattice.specs.Policy.{labels_of};
ghost use Rattle.mls_scheme.specs.Value.{is_kind, fits_kind};
ghost use Rattle.mls_scheme.specs.Fits.{in_column};
ghost use Rattle.mls_scheme.specs.Scheme.{IsAmongLabels, IsUnder};
ghost use Rattle.mls_scheme.specs.Tuple.{HasClassesBelow};
ghost use Rattle.mls_filterview.specs.Checking.{fits_value, fits_element, all_zip, fits_scheme};

use mls_lattice::{LabelNo, Policy};
use mls_scheme::{Attributes, Column, Element, Scheme, Tuple, Value, fits_kind, in_interval};

/// Whether a tuple fits a scheme.
pub(crate) fn fits_scheme(policy: &Policy, scheme: &Scheme, tuple: &Tuple) -> bool
    requires classes { HasClassesBelow (length policy.now.labels) tuple.now }
    requires under { IsUnder (length policy.now.labels) scheme.now }
    ensures { result ≡ fits_scheme (labels_of policy.now) scheme.now tuple.now }
{
    fits_key(policy, scheme.keys(), &tuple.key, tuple.key_class)
        && fits_others(policy, scheme.others(), &tuple.elements)
}

/// Whether a value has the kind of an attribute, and a class lies in its interval.
fn fits_value(policy: &Policy, value: &Value, class: LabelNo, column: Column) -> bool
    requires class { class < length policy.now.labels }
    requires low { column.low < length policy.now.labels }
    requires high { column.high < length policy.now.labels }
    ensures { result ≡ (is_kind value.now column.kind && in_column (labels_of policy.now) class column) }
{
    value.is_kind(column.kind) && in_interval(policy, class, column)
}

/// Whether an element has the kind of an attribute, and its class lies in its interval.
fn fits_element(policy: &Policy, element: &Element, column: Column) -> bool
    requires class { element.now.class < length policy.now.labels }
    requires low { column.low < length policy.now.labels }
    requires high { column.high < length policy.now.labels }
    ensures { result ≡ (fits_kind element.now.value column.kind
        && in_column (labels_of policy.now) element.now.class column) }
{
    fits_kind(&element.value, column.kind) && in_interval(policy, element.class, column)
}

/// Whether a key has the number and the kinds of attributes, and its class lies in their intervals.
#[tactic(auto, using(crate::proofs::FittingSteps::key_steps))]
fn fits_key(policy: &Policy, attributes: &Attributes, key: &[Value], class: LabelNo) -> bool
    requires class { class < length policy.now.labels }
    requires among { AllByRecursion (IsAmongLabels (length policy.now.labels)) attributes.now }
    ensures { result ≡ all_zip (fits_value (labels_of policy.now) class) attributes.now key.now }
{
    if key.len() != attributes.len() {
        return false;
    }
    for (place, value) in key.iter().enumerate() {
        if !fits_value(policy, value, class, *attributes.get(place)) {
            return false;
        }
    }
    true
}

/// Whether elements have the number and the kinds of attributes, and their classes lie in the intervals of these.
#[tactic(auto, using(crate::proofs::FittingSteps::other_steps))]
fn fits_others(policy: &Policy, attributes: &Attributes, elements: &[Element]) -> bool
    requires classes { AllByRecursion (λ e. e.class < length policy.now.labels) elements.now }
    requires among { AllByRecursion (IsAmongLabels (length policy.now.labels)) attributes.now }
    ensures { result ≡ all_zip (fits_element (labels_of policy.now)) attributes.now elements.now }
{
    if elements.len() != attributes.len() {
        return false;
    }
    for (place, element) in elements.iter().enumerate() {
        if !fits_element(policy, element, *attributes.get(place)) {
            return false;
        }
    }
    true
}
