//! Whether a value and a class may stand at an attribute.
ghost use Rattle.std.specs.Prelude.{◌≡◌, ◌<◌, length};
ghost use Rattle.mls_lattice.specs.Policy.{labels_of};
ghost use Rattle.mls_scheme.specs.Value.{fits_kind};
ghost use Rattle.mls_scheme.specs.Fits.{in_column};

use crate::attributes::Column;
use crate::value::{Kind, Value};
use mls_lattice::{LabelNo, Policy};

/// Whether a class lies in the interval of an attribute.
pub fn in_interval(policy: &Policy, class: LabelNo, column: Column) -> bool
    requires class { class < length policy.now.labels }
    requires low { column.low < length policy.now.labels }
    requires high { column.high < length policy.now.labels }
    ensures { result ≡ in_column (labels_of policy.now) class column }
{
    policy.dominates(class, column.low) && policy.dominates(column.high, class)
}

/// Whether a value is of a kind: null is of every kind.
pub fn fits_kind(value: &Option<Value>, kind: Kind) -> bool
    ensures { result ≡ fits_kind value.now kind }
{
    match value {
        Some(value) => value.is_kind(kind),
        None => true,
    }
}
