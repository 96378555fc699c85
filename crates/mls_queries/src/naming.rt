//! The entity that a write names.
ghost use Rattle.std.specs.Prelude.{◌≡◌, true, IfSome};
ghost use Rattle.mls_scheme.specs.Spelling.{HasSpelling, IsSpelledKey};
ghost use Rattle.mls_updates.specs.Writes.{named};

use mls_lattice::LabelNo;
use mls_scheme::{Place, Value, Write};
use mls_updates::place_of;
use std::alloc::Global;

/// A text has a length of 32 bits.
const MOST_BYTES: usize = 4_294_967_295;

/// Whether a value has a spelling.
fn has_spelling(value: &Value) -> bool
    ensures { result ≡ true → HasSpelling value.now }
{
    match value {
        Value::Int(number) => {
            let _number = *number;
            true
        }
        Value::Text(text) => text.as_str().len() <= MOST_BYTES,
    }
}

/// Whether a key has a spelling.
fn is_spelled(key: &[Value]) -> bool
    ensures { result ≡ true → IsSpelledKey key.now }
{
    if key.is_empty() || key.len() > 4 {
        return false;
    }
    for value in key {
        if !has_spelling(value) {
            return false;
        }
    }
    true
}

/// The place of the tuple of a class, of the entity that a write at that class names; nothing where its key has no
/// spelling, or where there is no memory for it.
pub(crate) fn place_named(
    alloc: Global,
    write: &Write<Option<Value>>,
    class: LabelNo,
) -> Option<Place>
    ensures named { IfSome result (λ p. p ≡ named class write.now) }
    ensures spelled { IfSome result (λ p. IsSpelledKey p.key) }
{
    let place = place_of(alloc, write.key(), write.key_class(class), class).ok()?;
    if is_spelled(&place.key) {
        Some(place)
    } else {
        None
    }
}
