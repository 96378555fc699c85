//! What one label holds of a relation.
use mls_lattice::{Items, LabelNo};
use mls_scheme::Value;

/// A tuple without its values: its entity, its class, and the class of each element in the order of the scheme.
#[derive(Drop)]
pub struct Node {
    pub key: Items<Value>,
    pub key_class: LabelNo,
    pub label: LabelNo,
    pub pattern: Items<LabelNo>,
}

/// The element of an entity at an attribute and a class. Attributes outside the key are numbered from 0. Its
/// entity is named, since the lists of a fragment are in any order.
#[derive(Drop)]
pub struct Cell {
    pub key: Items<Value>,
    pub key_class: LabelNo,
    pub attr: usize,
    pub label: LabelNo,
    pub value: Option<Value>,
}

/// The tuples of one class, and the elements of that class in them.
#[derive(Drop)]
pub struct Fragment {
    pub nodes: Items<Node>,
    pub cells: Items<Cell>,
}
