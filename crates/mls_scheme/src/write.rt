//! Writes of tuples.
ghost use Rattle.std.specs.Prelude.{◌≡◌};
ghost use Rattle.mls_scheme.specs.Writes.{key_of, key_class_of};

use mls_lattice::{Items, LabelNo};

/// A write of a relation, at a label that stands beside it. Its operands are values or nulls, or what gives them.
#[derive(Drop)]
pub enum Write<E> {
    /// A new tuple: its key and its other values.
    Insert {
        key: Items<E>,
        values: Items<E>,
    },
    /// New values for the tuple of a key, a key class and the class `from`: attributes outside the key by number,
    /// from 0.
    Update {
        key: Items<E>,
        key_class: LabelNo,
        from: LabelNo,
        sets: Items<(usize, E)>,
    },
    /// The tuples of a key and a key class go: that of the label, and those whose classes dominate it.
    Delete {
        key: Items<E>,
        key_class: LabelNo,
    },
}

impl<E> Write<E> {
    /// The key.
    pub fn key(&self) -> &[E]
        ensures { result.now ≡ key_of self.now }
    {
        match self {
            Write::Insert { key, .. } | Write::Update { key, .. } | Write::Delete { key, .. } =>
                key,
        }
    }

    /// The class of the key. That of a new tuple is the label that it is written at.
    pub fn key_class(&self, at: LabelNo) -> LabelNo
        ensures { result ≡ key_class_of at self.now }
    {
        match self {
            Write::Insert { .. } => at,
            Write::Update { key_class, .. } | Write::Delete { key_class, .. } => *key_class,
        }
    }
}
