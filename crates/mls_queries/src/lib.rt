//! Queries: what is found of a view, and what the expressions of conditions give.
#![tactic(auto)]

mod classes;
mod condition;
mod datum;
mod demand;
mod finding;
mod highest;
mod laws;
mod looking;
mod naming;
mod operator;
mod parts;
mod seen;
mod selecting;
mod selection;
mod views;
mod wanted;

pub use condition::cell;
pub use datum::Datum;
pub use finding::find;
pub use laws::{keys_are_looked_up, queries_use_the_view, rows_that_pass_are_of_the_view};
pub use operator::apply;
pub use selection::Selection;
pub use views::Views;
