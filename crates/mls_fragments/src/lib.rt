//! A base over the rows of a store, in files or in memory, and how stores are opened.
#![tactic(auto)]

mod again;
mod base;
mod connecting;
mod design;
mod ghost_content;
mod in_memory;
mod judging;
mod laws;
mod memory_base;
mod memory_file;
mod migrating;
mod noted;
mod open_fault;
mod opening;
mod refusing;

pub use again::let_go;
pub use base::SqlBase;
pub use connecting::connected;
pub use design::Design;
pub use in_memory::InMemory;
pub use laws::{
    blank_is_nothing, database_has_one_holdings, given_back_is_taken, kept_is_found, kept_is_taken,
    rows_hold_one_content, sound_is_taken_as_it_was, widened_is_seen_alike,
};
pub use memory_base::MemoryBase;
pub use memory_file::MemoryFile;
pub use open_fault::OpenFault;
pub use opening::texts_of;
pub use refusing::bad_row;
