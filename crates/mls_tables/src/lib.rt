//! The four tables of a store, the statements on them, and a store that keeps its rows, its last commit and its
//! failures.
#![tactic(auto)]

mod adopting;
mod decode;
mod ghost_store;
mod rewriting;
mod rows;
/// The statements, each over any connection.
pub mod statements;
mod store;

pub use adopting::{AdoptFault, AllRows, read_description, read_store};
pub use decode::are_numbered;
pub use rewriting::rewrite_store;
pub use rows::{AuditRow, CellRow, MetaRow, NodeRow, OwnCell, TupleKey};
pub use store::{StoreFault, TableStore};
