//! Intervals of attributes.
ghost use Rattle.std.specs.Prelude.{◌≡◌, ◌<◌, ◌&&◌, length};
ghost use Rattle.std.specs.List.{list_all, AllByRecursion};
ghost use Rattle.mls_lattice.specs.Policy.{labels_of};
ghost use Rattle.mls_scheme.specs.Scheme.{IsAmongLabels, IsUnder};
ghost use Rattle.mls_scheme.specs.Fits.{in_interval};

use mls_lattice::{LabelNo, Policy};
use mls_scheme::{Attributes, Scheme, in_interval};

/// Whether a class lies in the interval of each attribute.
pub(crate) fn in_intervals(policy: &Policy, class: LabelNo, attributes: &Attributes) -> bool
    requires class { class < length policy.now.labels }
    requires among { AllByRecursion (IsAmongLabels (length policy.now.labels)) attributes.now }
    ensures { result ≡ list_all (in_interval (labels_of policy.now) class) attributes.now }
{
    for place in 0..attributes.len() {
        if !in_interval(policy, class, *attributes.get(place)) {
            return false;
        }
    }
    true
}

/// Whether a class lies in the interval of each attribute of a relation, those of the key among them.
pub(crate) fn is_within(policy: &Policy, class: LabelNo, scheme: &Scheme) -> bool
    requires class { class < length policy.now.labels }
    requires under { IsUnder (length policy.now.labels) scheme.now }
    ensures { result ≡ (list_all (in_interval (labels_of policy.now) class) scheme.now.keys
        && list_all (in_interval (labels_of policy.now) class) scheme.now.others) }
{
    in_intervals(policy, class, scheme.keys()) && in_intervals(policy, class, scheme.others())
}
