//! The command line of mldb: what the program does with its words, on any machine that gives it files.
#![tactic(auto)]

mod accounting;
mod acting;
mod certifying;
mod checking;
mod closing;
mod documents;
mod explained;
mod explaining;
mod listing;
mod looking;
mod machine;
mod named;
mod opening;
mod paths;
mod private;
mod running;
mod showing;
mod shown;
mod telling;

pub use crate::acting::act;
pub use crate::documents::{Advises, ignored_of};
pub use crate::named::words_are_named;
pub use crate::running::{answer_in_any_files, run};
