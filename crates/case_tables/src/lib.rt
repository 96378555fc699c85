//! Tables of cases: files whose cases are lines, or lines with short blocks below them.
#![tactic(auto)]

mod block;
mod narrow;
mod texts;
mod told;

pub use crate::block::{Case, case_at, inner, joined, text_of, unfolded};
pub use crate::narrow::Narrow;
pub use crate::texts::Texts;
pub use crate::told::Told;
