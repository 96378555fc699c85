//! What is told to people of a place in a file, of the fields of a policy and schemes, of what these say, and of rows
//! of a store.
#![tactic(auto)]

mod advice;
mod columns;
mod commands;
mod diagram;
mod differences;
mod document;
mod excerpts;
mod forms;
mod habits;
mod ignored;
mod keys;
mod labels;
mod listing;
mod names;
mod nearest;
mod shown;
mod slip;
mod statements;
mod words;

pub use advice::advice_of;
pub use commands::command_advice;
pub use diagram::picture;
pub use differences::{difference_to, relations_to};
pub use document::refused_lines;
pub use excerpts::{excerpt, file_line, typed_excerpt};
pub use forms::{form_at, kinds_at};
pub use ignored::{ignored_in_policy, ignored_in_schemes};
pub use listing::unnamed_objects;
pub use names::{Names, label_name};
pub use nearest::{declared_names, nearest_line, token_at};
pub use slip::Slip;
pub use statements::transaction_advice;
