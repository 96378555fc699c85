//! The three writes of a multilevel relation, and their laws.
#![tactic(auto)]

mod adding;
mod changing;
mod deciding;
mod deleting;
mod dropping;
mod finding;
mod held;
mod inserting;
mod interval;
mod key;
mod laws;
mod list_base;
mod making;
mod new_tuple;
mod order;
mod outcome;
mod outline;
mod raising;
mod root;
mod sets;
mod setting;
mod tables;
mod updating;
mod writing;

pub use deleting::delete;
pub use inserting::insert;
pub use key::place_of;
pub use laws::{
    high_writes_are_unseen, high_writes_leave_low, low_writes_see_low, low_writes_use_low,
    writes_change_one_entity, writes_expect_nothing, writes_keep_content, writes_keep_form,
};
pub use list_base::ListBase;
pub use outcome::Outcome;
pub use sets::copy_value;
pub use updating::update;
pub use writing::write;
