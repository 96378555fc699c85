//! The least labels with which a transaction may be certified.
#![tactic(auto)]

mod bounds;
mod fault;
mod labelling;
mod labels;
mod laws;
mod least;
mod lines;
mod range;
mod ranges;
mod telling;
mod told;
mod walking;

pub use bounds::Bounds;
pub use fault::LabelFault;
pub use labelling::{label_tx, label_tx2};
pub use laws::calls_tell_few;
pub use least::Labeller;
pub use lines::lines_of;
pub use range::Range;
pub use telling::{whole, words};
pub use told::{Releases, Told, ranges_of};
