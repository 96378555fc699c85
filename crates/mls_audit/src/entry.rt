//! Entries of the audit list.
ghost use Rattle.std.specs.Prelude.{◌≡◌, ◌↔◌, IsTrue, IfOk};
ghost use Rattle.mls_audit.specs.Entry.{label_of};

use mls_lattice::{LabelNo, Str};
use mls_scheme::Value;
use std::alloc::AllocError;

/// What an entry tells.
#[derive(Clone, PartialEq, Eq, Drop)]
pub enum Deed {
    /// The transaction of a name was called.
    Called(Str),
    /// A command was denied, by the number of the denial.
    Denied(u8),
    /// A value, or null, was released.
    Released(Option<Value>),
}

/// An entry of the audit list. The label is the session's level, and that of a release the one to which it was made.
#[derive(Clone, PartialEq, Eq, Drop)]
pub struct Entry {
    pub label: LabelNo,
    /// When its command was given, if the command's line told it.
    pub time: Option<Str>,
    pub user: Str,
    pub session: Str,
    pub deed: Deed,
}

impl Entry {
    /// The label that an entry has.
    pub fn label(&self) -> LabelNo
        ensures { result ≡ label_of self.now }
    {
        self.label
    }

    /// An equal entry.
    pub fn copy(&self) -> Result<Entry, AllocError>
        ensures { IfOk result (λ e. e ≡ self.now) }
    {
        self.clone()
    }

    /// Whether two entries are the same.
    pub fn same(&self, other: &Entry) -> bool
        ensures { IsTrue result ↔ (self.now ≡ other.now) }
    {
        self == other
    }
}
