//! Why a policy is refused.
ghost use Rattle.std.specs.Prelude.{◌≡◌};
ghost use Rattle.mls_lattice.specs.declared.failed.Failed.TheVariants.{Fault};
ghost use Rattle.mls_lattice.specs.Fault.{code_of, word_of, failed_fault_of};

use crate::failed::Failed;
use std::fmt;
use thiserror::Error;

/// Words as texts, for a table of names.
#[macro_export]
macro_rules! words {
    ($($word:ident)*) => { [$(stringify!($word)),*] };
}

/// Why a policy is refused.
#[derive(Clone, Copy, PartialEq, Eq, Debug, Error)]
pub enum PolicyFault {
    /// No TOML document.
    NotToml = 1,
    /// A field is missing.
    MissingField,
    /// A field has the wrong kind.
    WrongKind,
    /// A name stands twice.
    Repeated,
    /// A name is unknown.
    UnknownName,
    /// A list is too long.
    TooMany,
    /// A name is no name.
    BadName,
    /// An interval is empty.
    EmptyInterval,
    /// A growth was refused.
    Memory,
}

/// The names of the faults, in the order of their numbers.
static WORDS: [&str; 9] = words! {
    NotToml MissingField WrongKind Repeated UnknownName TooMany BadName EmptyInterval Memory
};

impl PolicyFault {
    /// The number that messages carry; it never changes.
    pub fn code(self) -> u8
        ensures { result ≡ code_of self }
    {
        self as u8
    }

    /// The name that messages carry beside the number.
    pub fn word(self) -> &'static str
        ensures { result.now ≡ word_of self }
    {
        WORDS[self as usize - 1]
    }
}

/// The name of the fault.
impl fmt::Display for PolicyFault {
    fn fmt<W: fmt::Write>(&self, f: &mut fmt::Formatter<W>) -> fmt::Result {
        f.write_str(self.word())
    }
}

/// Why a field of a document is refused.
#[derive(Clone, Copy)]
pub enum FieldFault {
    MissingField,
    WrongKind,
    Repeated,
    UnknownName,
    TooMany,
    BadName,
    EmptyInterval,
}

impl From<FieldFault> for Failed<FieldFault> {
    ghost from_gives = { λ fault failed. failed ≡ Fault fault };

    fn from(fault: FieldFault) -> Failed<FieldFault> {
        Failed::Fault(fault)
    }
}

impl From<Failed<FieldFault>> for PolicyFault {
    ghost from_gives = { λ failed fault. fault ≡ failed_fault_of failed };

    fn from(failed: Failed<FieldFault>) -> PolicyFault {
        match failed {
            Failed::Memory => PolicyFault::Memory,
            Failed::Fault(FieldFault::MissingField) => PolicyFault::MissingField,
            Failed::Fault(FieldFault::WrongKind) => PolicyFault::WrongKind,
            Failed::Fault(FieldFault::Repeated) => PolicyFault::Repeated,
            Failed::Fault(FieldFault::UnknownName) => PolicyFault::UnknownName,
            Failed::Fault(FieldFault::TooMany) => PolicyFault::TooMany,
            Failed::Fault(FieldFault::BadName) => PolicyFault::BadName,
            Failed::Fault(FieldFault::EmptyInterval) => PolicyFault::EmptyInterval,
        }
    }
}
