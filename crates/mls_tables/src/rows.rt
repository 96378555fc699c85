//! The rows of the four tables.
use mls_lattice::{Items, Str};

/// A row of the table of nodes: a tuple without its values.
#[derive(PartialEq, Eq, PartialOrd, Ord, Drop)]
pub struct NodeRow {
    /// The relation's number.
    pub rel: u32,
    /// The key, as bytes.
    pub ent: Items<u8>,
    /// The number of the key's class.
    pub kclass: u32,
    /// The number of the tuple's class.
    pub label: u32,
    /// The number of each element's class, a byte each.
    pub pattern: Items<u8>,
}

/// A row of the table of cells: one element, which the tuples of its entity share that have it.
#[derive(PartialEq, Eq, PartialOrd, Ord, Drop)]
pub struct CellRow {
    /// The relation's number.
    pub rel: u32,
    /// The key, as bytes.
    pub ent: Items<u8>,
    /// The number of the key's class.
    pub kclass: u32,
    /// The number of the element's class.
    pub label: u32,
    /// The attribute's number among those that are not of the key.
    pub attr: u32,
    /// The value, as bytes.
    pub value: Items<u8>,
}

/// The key of a tuple's own class, which its node and its cells have.
#[derive(Drop)]
pub struct TupleKey {
    /// The relation's number.
    pub rel: u32,
    /// The key, as bytes.
    pub ent: Items<u8>,
    /// The number of the key's class.
    pub kclass: u32,
    /// The number of the tuple's class.
    pub label: u32,
}

/// A cell of a tuple's own class, beside the tuple's node, which has its key.
#[derive(Drop)]
pub struct OwnCell {
    /// The attribute's number among those that are not of the key.
    pub attr: u32,
    /// The value, as bytes.
    pub value: Items<u8>,
}

/// A row of the audit table.
#[derive(PartialEq, Eq, PartialOrd, Ord, Drop)]
pub struct AuditRow {
    /// 1, 2, .. in the order of entries.
    pub number: i64,
    /// The entry, as bytes.
    pub bytes: Items<u8>,
}

/// A row of the table that describes the store.
#[derive(Drop)]
pub struct MetaRow {
    pub id: i64,
    /// The version of this layout of tables.
    pub version: i64,
    /// The canonical text of levels, categories and labels.
    pub lattice: Str,
    /// The canonical text of the schemes.
    pub schemes: Str,
}
