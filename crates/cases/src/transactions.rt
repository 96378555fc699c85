//! Cases of transactions: their texts, what they are printed as, their certificates, their least labels, and what they
//! do.
pub mod checks;
pub mod evaluations;
mod labels;
mod prints;
mod ranges;
pub mod texts;
