//! What an update names: new values of attributes outside the key, by their numbers.
ghost use Rattle.std.specs.Prelude.{◌≡◌, ◌<◌, ◌&&◌, not, nat_eq, is_none, length, slice_index_or, IfOk};
ghost use Rattle.std.specs.List.{list_any, AllByRecursion};
ghost use Rattle.mls_lattice.specs.Policy.{labels_of};
ghost use Rattle.mls_scheme.specs.Scheme.{IsUnder, other_of};
ghost use Rattle.mls_scheme.specs.Fits.{in_interval};

use mls_lattice::{LabelNo, Policy};
use mls_scheme::{Scheme, Value, in_interval};
use std::alloc::AllocError;

/// An equal value, or null.
pub fn copy_value(value: &Option<Value>) -> Result<Option<Value>, AllocError>
    ensures { IfOk result (λ v. v ≡ value.now) }
{
    value.clone()
}

/// Whether one of the values is null.
pub(crate) fn has_null_value(sets: &[(usize, Option<Value>)]) -> bool
    ensures { result ≡ list_any (λ s. is_none s.1) sets.now }
{
    sets.iter().any(|set| set.1.is_none())
}

/// Whether one of the values is null at a class above the key class.
pub(crate) fn has_null_above(
    w: LabelNo,
    key_class: LabelNo,
    sets: &[(usize, Option<Value>)],
) -> bool
    ensures { result ≡ (not (nat_eq w key_class) && list_any (λ s. is_none s.1) sets.now) }
{
    w != key_class && has_null_value(sets)
}

/// The class at an attribute.
fn class_at(pattern: &[LabelNo], attr: usize) -> LabelNo
    ensures { result ≡ slice_index_or pattern.now attr 0 }
{
    match pattern.get(attr) {
        Some(class) => *class,
        None => LabelNo::new(0),
    }
}

/// Whether a named attribute has another class.
pub(crate) fn names_inherited(
    pattern: &[LabelNo],
    w: LabelNo,
    sets: &[(usize, Option<Value>)],
) -> bool
    ensures { result ≡ list_any (λ s. not (nat_eq (slice_index_or pattern.now s.0 0) w)) sets.now }
{
    sets.iter().any(|set| class_at(pattern, set.0) != w)
}

/// Whether a class lies outside the interval of an attribute.
fn is_outside(policy: &Policy, scheme: &Scheme, class: LabelNo, attr: usize) -> bool
    requires class { class < length policy.now.labels }
    requires under { IsUnder (length policy.now.labels) scheme.now }
    requires attr { attr < length scheme.now.others }
    ensures { result ≡ not (in_interval (labels_of policy.now) class (other_of scheme.now attr)) }
{
    !in_interval(policy, class, *scheme.others().get(attr))
}

/// Whether a class lies outside the interval of a named attribute.
pub(crate) fn is_any_outside(
    policy: &Policy,
    scheme: &Scheme,
    class: LabelNo,
    sets: &[(usize, Option<Value>)],
) -> bool
    requires class { class < length policy.now.labels }
    requires under { IsUnder (length policy.now.labels) scheme.now }
    requires fits { AllByRecursion (λ s. s.0 < length scheme.now.others) sets.now }
    ensures { result ≡ list_any (λ s. not (in_interval (labels_of policy.now) class (other_of scheme.now s.0)))
        sets.now }
{
    for set in sets {
        if is_outside(policy, scheme, class, set.0) {
            return true;
        }
    }
    false
}
