//! Entities: keys with their classes.
ghost use Rattle.std.specs.Prelude.{◌≡◌, ◌↔◌, IsTrue};
ghost use Rattle.mls_filterview.specs.Stored.{is_entity};
ghost use Rattle.mls_filterview.specs.Checking.{is_one_entity};

use mls_lattice::LabelNo;
use mls_scheme::{Place, Tuple, Value, same_key};

/// Whether two keys, each with its class, are one entity.
fn is_same_entity(
    left: &[Value],
    left_class: LabelNo,
    right: &[Value],
    right_class: LabelNo,
) -> bool
    ensures { IsTrue result ↔ ((left.now ≡ right.now) × (left_class ≡ right_class)) }
{
    left_class == right_class && same_key(left, right)
}

/// Whether two places differ in class at most.
pub fn is_entity(left: &Place, right: &Place) -> bool
    ensures { result ≡ is_entity left.now right.now }
{
    is_same_entity(&left.key, left.key_class, &right.key, right.key_class)
}

/// Whether two tuples have one key and one key class.
pub(crate) fn is_one_entity(left: &Tuple, right: &Tuple) -> bool
    ensures { result ≡ is_one_entity left.now right.now }
{
    is_same_entity(&left.key, left.key_class, &right.key, right.key_class)
}
