//! Attributes of a relation, by their places and by their names.
ghost use Rattle.std.specs.Prelude.{◌≡◌, ◌≤◌, length, map, take, IfOk, bytes_eq};
ghost use Rattle.std.specs.List.{IsDistinct};

use crate::named::Named;
use crate::value::Kind;
use mls_lattice::LabelNo;
use std::alloc::{AllocError, Global};

/// What is said of an attribute beside its name: low and high are the ends of the interval of its classes.
#[derive(Clone, Copy, PartialEq, Eq)]
pub struct Column {
    pub kind: Kind,
    pub low: LabelNo,
    pub high: LabelNo,
}

/// Attributes by name, in the order of their file.
pub type Attributes = Named<Column>;

/// A copy of the first so many attributes.
pub(crate) fn first_of(
    alloc: Global,
    attributes: &Attributes,
    count: usize,
) -> Result<Attributes, AllocError>
    requires within { count ≤ length attributes.now }
    requires distinct { IsDistinct bytes_eq (map (λ a. a.0) attributes.now) }
    ensures { IfOk result (λ a. a ≡ take count attributes.now) }
{
    let mut first = Named::new(alloc);
    for place in 0..count {
        let name = String::from_str(alloc, attributes.name(place))?;
        first.push(name, *attributes.get(place))?;
    }
    Ok(first)
}
