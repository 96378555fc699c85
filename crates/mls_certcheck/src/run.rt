//! What a call gives.
use mls_lattice::{Items, LabelNo};
use mls_scheme::Value;

/// What a call of a transaction gave: labels, each with a value or null that they may see.
#[derive(Drop)]
pub struct Run {
    /// The emitted items, in order.
    pub emitted: Items<(LabelNo, Option<Value>)>,
    /// The released items, in order.
    pub released: Items<(LabelNo, Option<Value>)>,
}
