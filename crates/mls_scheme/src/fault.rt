//! Why schemes are refused.
ghost use Rattle.std.specs.Prelude.{◌≡◌};
ghost use Rattle.mls_lattice.specs.declared.failed.Failed.TheVariants.{Fault};
ghost use Rattle.mls_scheme.specs.declared.fault.FileFault.TheVariants.{Field};
ghost use Rattle.mls_scheme.specs.Fault.{code_of, word_of, failed_fault_of};

use mls_lattice::{Failed, FieldFault, words};
use std::fmt;
use thiserror::Error;

/// Why schemes are refused.
#[derive(Clone, Copy, PartialEq, Eq, Debug, Error)]
pub enum SchemeFault {
    /// No TOML document.
    NotToml = 1,
    /// A field is missing.
    MissingField,
    /// A field has the wrong kind.
    WrongKind,
    /// A name stands twice.
    Repeated,
    /// A name is unknown.
    UnknownName,
    /// A list is too long.
    TooMany,
    /// A name is no name.
    BadName,
    /// An interval is empty.
    EmptyInterval,
    /// A growth was refused.
    Memory,
    /// A relation has no key.
    NoKey,
    /// Key attributes have different intervals.
    KeyIntervals,
}

/// The names of the faults, in the order of their numbers.
static WORDS: [&str; 11] = words! {
    NotToml MissingField WrongKind Repeated UnknownName TooMany BadName EmptyInterval Memory
    NoKey KeyIntervals
};

impl SchemeFault {
    /// What stands before the word where the fault is printed. The faults that policies have too have their numbers
    /// there.
    pub fn code(self) -> u8
        ensures { result ≡ code_of self }
    {
        self as u8
    }

    /// The variant's name, as the fault is printed.
    pub fn word(self) -> &'static str
        ensures { result.now ≡ word_of self }
    {
        WORDS[self as usize - 1]
    }
}

/// The name of the fault.
impl fmt::Display for SchemeFault {
    fn fmt<W: fmt::Write>(&self, f: &mut fmt::Formatter<W>) -> fmt::Result {
        f.write_str(self.word())
    }
}

/// Why a file of relations is refused.
#[derive(Clone, Copy)]
pub(crate) enum FileFault {
    Field(FieldFault),
    NoKey,
    KeyIntervals,
}

impl From<FieldFault> for FileFault {
    ghost from_gives = { λ field fault. fault ≡ Field field };

    fn from(fault: FieldFault) -> FileFault {
        FileFault::Field(fault)
    }
}

impl From<FileFault> for Failed<FileFault> {
    ghost from_gives = { λ fault failed. failed ≡ Fault fault };

    fn from(fault: FileFault) -> Failed<FileFault> {
        Failed::Fault(fault)
    }
}

impl From<Failed<FileFault>> for SchemeFault {
    ghost from_gives = { λ failed fault. fault ≡ failed_fault_of failed };

    fn from(failed: Failed<FileFault>) -> SchemeFault {
        match failed {
            Failed::Memory => SchemeFault::Memory,
            Failed::Fault(FileFault::NoKey) => SchemeFault::NoKey,
            Failed::Fault(FileFault::KeyIntervals) => SchemeFault::KeyIntervals,
            Failed::Fault(FileFault::Field(fault)) => match fault {
                FieldFault::MissingField => SchemeFault::MissingField,
                FieldFault::WrongKind => SchemeFault::WrongKind,
                FieldFault::Repeated => SchemeFault::Repeated,
                FieldFault::UnknownName => SchemeFault::UnknownName,
                FieldFault::TooMany => SchemeFault::TooMany,
                FieldFault::BadName => SchemeFault::BadName,
                FieldFault::EmptyInterval => SchemeFault::EmptyInterval,
            },
        }
    }
}
