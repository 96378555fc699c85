//! The statements on the four tables, whatever tables follow these. A function makes one call of the engine,
//! since several in one body cost minutes of proof.

/// The audit list.
pub mod audit;
/// The table of cells.
pub mod cell;
/// Changes: their begin and their end.
pub mod change;
/// The tables of a new store.
pub mod creation;
/// The row that describes a store.
pub mod meta;
/// The table of nodes.
pub mod node;
/// The tables that a database has.
pub mod schema;
/// Whole tables of nodes and cells, row by row.
pub(crate) mod streaming;
/// Whole tables, at an adoption.
pub mod whole;
