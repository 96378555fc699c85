//! The key that a write names, and the places of its entity.
ghost use Rattle.std.specs.Prelude.{◌≡◌, IfOk, filter_map};
ghost use Rattle.mls_updates.specs.Writes.{has_null, place};

use mls_lattice::{Items, LabelNo};
use mls_scheme::{Place, Value};
use std::alloc::{AllocError, Global};

/// Whether a key value is missing.
pub(crate) fn has_null(key: &[Option<Value>]) -> bool
    ensures { result ≡ has_null key.now }
{
    key.iter().any(|value| value.is_none())
}

/// The values of a key.
fn values_of(alloc: Global, key: &[Option<Value>]) -> Result<Vec<Value>, AllocError>
    ensures { IfOk result (λ values. values.items ≡ filter_map (λ v. v) key.now) }
{
    let mut values = Vec::new(alloc);
    for value in key {
        let Some(value) = value else {
            continue;
        };
        values.push(value.copy()?)?;
    }
    Ok(values)
}

/// The place of the tuple of a class, of the entity that a write names.
pub fn place_of(
    alloc: Global,
    key: &[Option<Value>],
    key_class: LabelNo,
    class: LabelNo,
) -> Result<Place, AllocError>
    ensures { IfOk result (λ p. p ≡ place key.now key_class class) }
{
    let values = values_of(alloc, key)?;
    Ok(Place {
        key: Items::from(values),
        key_class,
        class,
    })
}
