//! Labels, modes and policies: who may see and do what.
#![tactic(auto)]

ghost use Rattle.mls_lattice.specs.Lattice.{IsOrder, IsLeastUpperBound, IsGreatestLowerBound};
ghost use Rattle.mls_lattice.specs.Labels.{IsOrderByNumber};
ghost use Rattle.mls_lattice.specs.ReadsPolicy.{ReadingIsExact, SaysOne};
ghost use Rattle.mls_lattice.specs.Extending.{OldLabelsAreOne};

mod canon;
/// The fields of a document: schemes are read by them too.
pub mod document;
mod extending;
mod failed;
mod fault;
mod flow;
mod items;
mod label;
mod labels;
mod matrix;
mod modes;
mod name;
mod names;
mod number;
mod policy;
mod tables;
mod text;
mod time;
mod trail;
mod users;
mod version;

pub use failed::Failed;
pub use fault::{FieldFault, PolicyFault};
pub use flow::{declared, flows, lowest};
pub use items::Items;
pub use label::Label;
pub use modes::Modes;
pub use name::{is_name, is_name_byte};
pub use number::{LabelNo, UserNo};
pub use policy::Policy;
pub use text::{Str, ascii_text, digits_len};
pub use time::{TIME_BYTES, is_time};
pub use trail::{Refused, Step, Trail};
pub use version::Version;

/// Dominance is an order.
pub fn dominance_is_an_order()
    ensures { IsOrder }
{}

/// The join is the least upper bound.
pub fn join_is_least()
    ensures { IsLeastUpperBound }
{}

/// The meet is the greatest lower bound.
pub fn meet_is_greatest()
    ensures { IsGreatestLowerBound }
{}

/// Dominance is an order of the numbers of labels.
pub fn numbers_are_ordered()
    ensures { IsOrderByNumber }
{}

/// The reading of a document gives a policy exactly where the document is that policy's.
pub fn reading_is_exact()
    ensures { ReadingIsExact }
{}

/// A document is that of one policy at most.
pub fn a_document_says_one_policy()
    ensures { SaysOne }
{}

/// A text is that of one number of old labels at most.
pub fn old_labels_are_one()
    ensures { OldLabelsAreOne }
{}
