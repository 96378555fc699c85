//! The model of a multilevel relation: subsumption, views, the stored form and the laws that hold between them.
#![tactic(auto)]

mod assembly;
mod base;
mod checking;
mod entity;
mod entity_rules;
mod filtering;
mod fitting;
mod fragment;
mod laws;
mod maximal;
mod mending;
mod parts;
mod reach;
mod recovering;
mod row;
mod rule;
mod shared;
mod splitting;
mod subsumption;
mod tuple_map;
mod viewing;
mod widening;

pub use assembly::{Values, rows_of, values_of};
pub use base::{Base, BaseFault, abandon, settle};
pub use checking::integrity;
pub use entity::is_entity;
pub use entity_rules::is_same_label;
pub use filtering::{class_number, filter};
pub use fragment::{Cell, Fragment, Node};
pub use laws::{
    content_needs_its_labels, rows_are_the_view, stored_has_integrity, view_is_max_of_low,
    view_of_widened, view_of_widened_table, view_tells_low, views_and_low_agree, views_are_mended,
    widened_was_content, widening_keeps_content,
};
pub use mending::mend;
pub use parts::{entity_parts, gather};
pub use recovering::is_content;
pub use rule::{Broken, Rule};
pub use shared::{SharedTuple, SharedView};
pub use splitting::{add_cells, cells_of, classes_of, node_of, nodes_of};
pub use subsumption::subsumes;
pub use tuple_map::{
    TupleMap, add_parts, elements_at, fragment_of, put_tuple, remove_tuple, with_cell,
};
pub use viewing::{low_tuples, view};
pub use widening::widened;
