//! What is told of transactions and of their least labels, and of stores that are opened over copies of their
//! files. The labeller is asked as `certify` asks it, so the labeller's contract alone ties what is told to the
//! least labels.
#![tactic(auto)]

mod chain;
mod copies;
mod diagnosis;
mod explaining;
mod label_lines;
mod labelling;
mod mending;
mod naming;
mod numbering;
mod paths;
mod reading;
mod refusing;
mod rows;
mod search;
mod statements;
mod step;
mod teller;

pub use diagnosis::{Diagnosis, diagnosis_of};
pub use explaining::{Explained, explain};
pub use labelling::Labelling;
