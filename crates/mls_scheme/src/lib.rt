//! Values, tuples and schemes: what a relation is, and what a tuple of it is.
#![tactic(auto)]

ghost use Rattle.mls_scheme.specs.Document.{SaysOnce};
ghost use Rattle.mls_scheme.specs.Extending.{OldCountsAreOne};
ghost use Rattle.mls_scheme.specs.Order.{AreOrdered};
ghost use Rattle.mls_scheme.specs.Spelling.{AreUnambiguous};

mod attributes;
mod canon;
mod extending;
mod fault;
mod fields;
mod file;
mod fits;
mod key_fault;
mod key_reading;
mod key_writing;
mod named;
mod number;
mod place;
mod reading;
mod scheme;
mod tuple;
mod value;
mod write;

pub use attributes::{Attributes, Column};
pub use fault::SchemeFault;
pub use file::SchemesFile;
pub use fits::{fits_kind, in_interval};
pub use key_fault::KeyFault;
pub use key_reading::{key_of, value_of};
pub use key_writing::{key_bytes, value_bytes};
pub use named::Named;
pub use number::RelNo;
pub use place::Place;
pub use scheme::{Scheme, Schemes};
pub use tuple::{Element, Tuple, tuple_class};
pub use value::{Kind, Value, copy_key, order_keys, same_key};
pub use write::Write;

/// The orders of values and of places are total, and only equal ones tie.
pub fn places_are_ordered()
    ensures { AreOrdered }
{}

/// No two keys have one spelling, and no value's spelling begins another's.
pub fn spellings_are_unambiguous()
    ensures { AreUnambiguous }
{}

/// A text is what schemes extend with one number of attributes for each relation.
pub fn old_counts_are_one()
    ensures { OldCountsAreOne }
{}

/// A text says at most one list of schemes, of one version, under a policy.
pub fn texts_say_schemes_once()
    ensures { SaysOnce }
{}
