//! What names refer to.
ghost use Rattle.std.specs.Prelude.{◌≡◌, ◌<◌, length, position, IfSome, bytes_eq};
ghost use Rattle.mls_translang.specs.Fits.{width};
ghost use Rattle.mls_translang.specs.Kinds.{field_of};
ghost use Rattle.mls_parser.specs.Names.{attribute_named, other_named};

use mls_lattice::Str;
use mls_scheme::{Kind, Scheme};
use mls_translang::LoopRow;

/// A name as it is written, and the place of its first byte: the bytes of the whole text are counted from 1.
pub(crate) type Name = (Str, usize);

/// A variable or a parameter, by its place.
#[derive(Clone, Copy)]
pub(crate) enum Referent {
    Variable(usize),
    Parameter(usize),
}

/// The number of an attribute of a row, the key first.
#[tactic(auto, unfolding(crate::specs::Names::attribute_named))]
pub(crate) fn attribute(scheme: &Scheme, name: &str) -> Option<usize>
    ensures exact { result ≡ attribute_named scheme.now name.now }
    ensures within { IfSome result (λ i. i < width scheme.now) }
{
    let keys = scheme.keys();
    match keys.place(name) {
        Some(place) => Some(place),
        None => match scheme.others().place(name) {
            Some(place) => Some(keys.len() + place),
            None => None,
        },
    }
}

/// The number of an attribute outside the key.
#[tactic(auto, unfolding(crate::specs::Names::other_named))]
pub(crate) fn other(scheme: &Scheme, name: &Name) -> Option<usize>
    ensures exact { result ≡ other_named scheme.now name.now.0 }
    ensures within { IfSome result (λ i. i < length scheme.now.others) }
{
    scheme.others().place(name.0.as_str())
}

/// The kind of an attribute of a row, by its number.
pub(crate) fn attribute_kind(scheme: &Scheme, attribute: usize) -> Kind
    requires { attribute < width scheme.now }
    ensures { result ≡ (field_of scheme.now attribute).1.kind }
{
    let keys = scheme.keys();
    if attribute < keys.len() {
        keys.get(attribute).kind
    } else {
        scheme.others().get(attribute - keys.len()).kind
    }
}

/// The depth of the innermost row of a name.
pub(crate) fn row_place(rows: &[LoopRow], name: &str) -> Option<usize>
    ensures exact { result ≡ position (λ r. bytes_eq r.name name.now) rows.now }
    ensures within { IfSome result (λ i. i < length rows.now) }
{
    rows.iter().position(|row| row.name.as_str() == name)
}
