//! Why a text is no certificate, and in which line.
ghost use Rattle.std.specs.Prelude.{◌≡◌};
ghost use Rattle.mls_lattice.specs.declared.failed.Failed.TheVariants.{Fault};
ghost use Rattle.mls_certcheck.specs.Fault.{code_of, word_of, failed_fault_of};

use mls_lattice::{Failed, words};
use std::fmt;
use thiserror::Error;

/// Why a text is no certificate.
#[derive(Clone, Copy, PartialEq, Eq, Debug, Error)]
pub enum CertCause {
    /// The line has the wrong form, or is missing.
    Line = 51,
    /// A label is none.
    Label,
    /// The version is another.
    Version,
    /// A name stands twice.
    Repeated,
    /// A growth was refused.
    Memory,
}

/// The names of the causes, in the order of their numbers.
static WORDS: [&str; 5] = words! {
    Line Label Version Repeated Memory
};

impl CertCause {
    /// The number of the cause.
    pub fn code(self) -> u8
        ensures { result ≡ code_of self }
    {
        self as u8
    }

    /// The name of the cause.
    pub fn word(self) -> &'static str
        ensures { result.now ≡ word_of self }
    {
        WORDS[self as usize - 51]
    }
}

/// The name of the fault.
impl fmt::Display for CertCause {
    fn fmt<W: fmt::Write>(&self, f: &mut fmt::Formatter<W>) -> fmt::Result {
        f.write_str(self.word())
    }
}

/// In which line which fault stands; lines are counted from 1. Want of memory names line 1.
#[derive(Clone, Copy, PartialEq, Eq, Debug, Error)]
#[error("line {line}: {cause}")]
pub struct CertFault {
    pub line: usize,
    pub cause: CertCause,
}

impl From<CertFault> for Failed<CertFault> {
    ghost from_gives = { λ fault failed. failed ≡ Fault fault };

    fn from(fault: CertFault) -> Failed<CertFault> {
        Failed::Fault(fault)
    }
}

impl From<Failed<CertFault>> for CertFault {
    ghost from_gives = { λ failed fault. fault ≡ failed_fault_of failed };

    fn from(failed: Failed<CertFault>) -> CertFault {
        match failed {
            Failed::Memory => CertFault {
                line: 1,
                cause: CertCause::Memory,
            },
            Failed::Fault(fault) => fault,
        }
    }
}
