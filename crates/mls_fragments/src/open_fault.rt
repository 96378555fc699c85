//! Why a store is not opened.
ghost use Rattle.std.specs.Prelude.{◌≡◌};
ghost use Rattle.mls_fragments.specs.OpenFault.{code_of, word_of};
ghost use Rattle.mls_fragments.specs.declared.open_fault.OpenFault.TheVariants.{Memory};

use mls_lattice::{Failed, words};
use mls_rows::{BadRow, RowFault};
use mls_tables::{AdoptFault, StoreFault};
use std::alloc::AllocError;
use std::fmt;
use thiserror::Error;

/// Why a store is not opened.
#[derive(Clone, Copy, Debug, Error)]
pub enum OpenFault {
    /// The store failed.
    Store = 1,
    /// The store is of another policy or other schemes; users and the matrix of rights are not compared.
    OtherPolicy,
    /// The rows are no content.
    BadRows,
    /// A growth was refused.
    Memory,
}

/// The names of the faults, in the order of their numbers.
static WORDS: [&str; 4] = words! {
    Store OtherPolicy BadRows Memory
};

impl OpenFault {
    /// The number of the fault.
    pub fn code(self) -> u8
        ensures { result ≡ code_of self }
    {
        self as u8
    }

    /// The name of the fault.
    pub fn word(self) -> &'static str
        ensures { result.now ≡ word_of self }
    {
        WORDS[self as usize - 1]
    }
}

/// The name of the fault.
impl fmt::Display for OpenFault {
    fn fmt<W: fmt::Write>(&self, f: &mut fmt::Formatter<W>) -> fmt::Result {
        f.write_str(self.word())
    }
}

impl From<AllocError> for OpenFault {
    ghost from_gives = { λ _ e. e ≡ Memory };

    fn from(_e: AllocError) -> OpenFault {
        OpenFault::Memory
    }
}

impl From<StoreFault> for OpenFault {
    ghost use Rattle.mls_fragments.specs.OpenFault.{opening_fault};

    ghost from_gives = { λ f e. e ≡ opening_fault f };

    fn from(fault: StoreFault) -> OpenFault {
        match fault {
            StoreFault::Store => OpenFault::Store,
            StoreFault::Memory => OpenFault::Memory,
        }
    }
}

impl From<AdoptFault> for OpenFault {
    ghost use Rattle.mls_fragments.specs.OpenFault.{adopting_fault};

    ghost from_gives = { λ f e. e ≡ adopting_fault f };

    fn from(fault: AdoptFault) -> OpenFault {
        match fault {
            AdoptFault::Store => OpenFault::Store,
            AdoptFault::Memory => OpenFault::Memory,
            AdoptFault::BadRows => OpenFault::BadRows,
        }
    }
}

impl From<RowFault> for OpenFault {
    ghost use Rattle.mls_fragments.specs.OpenFault.{finding_fault};

    ghost from_gives = { λ f e. e ≡ finding_fault f };

    fn from(fault: RowFault) -> OpenFault {
        match fault {
            Failed::Fault(BadRow) => OpenFault::BadRows,
            Failed::Memory => OpenFault::Memory,
        }
    }
}
