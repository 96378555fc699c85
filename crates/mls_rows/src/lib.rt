//! Content as the rows of a store: nodes, cells and entries, written, read and found.
#![tactic(auto)]

mod comparing;
mod entity;
mod finding;
mod place;
mod reading;
mod writing;

pub use comparing::{cell_rows, node_rows};
pub use entity::{read_entity, read_pattern};
pub use finding::{Found, entries_of, find, tables_of};
pub use place::{Step, Where};
pub use reading::{BadRow, RowFault, read_entries, read_fragment, read_fragments};
pub use writing::{add_entry, add_tuple, drop_tuple, set_value};
