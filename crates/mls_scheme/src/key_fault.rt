//! Why bytes are no key, no value and no entry.
ghost use Rattle.std.specs.Prelude.{◌≡◌};
ghost use Rattle.mls_scheme.specs.declared.key_fault.KeyFault.TheVariants.{Memory};
ghost use Rattle.mls_scheme.specs.KeyWords.{key_word_of};

use mls_lattice::words;
use std::alloc::{AllocError, AllocFailed};
use std::fmt;
use thiserror::Error;

/// Why bytes are no key, begin with no value, or are no entry of the audit list: the first fault from left to right.
#[derive(Clone, Copy, PartialEq, Eq, Debug, Error)]
pub enum KeyFault {
    /// A field passes the end.
    Short,
    /// A tag is unknown, or a key's number of values is not 1 to 4.
    BadTag,
    /// A text is no UTF-8.
    BadText,
    /// Bytes follow the last field.
    Trailing,
    /// A growth was refused.
    Memory,
}

/// The names of the faults, in their order.
static WORDS: [&str; 5] = words! { Short BadTag BadText Trailing Memory };

impl KeyFault {
    /// The name of the fault.
    pub fn word(self) -> &'static str
        ensures { result.now ≡ key_word_of self }
    {
        WORDS[self as usize]
    }
}

/// The name of the fault.
impl fmt::Display for KeyFault {
    fn fmt<W: fmt::Write>(&self, f: &mut fmt::Formatter<W>) -> fmt::Result {
        f.write_str(self.word())
    }
}

impl From<AllocError> for KeyFault {
    ghost from_gives = { λ _ e. e ≡ Memory };

    fn from(_e: AllocError) -> KeyFault {
        KeyFault::Memory
    }
}

impl<T: Drop> From<AllocFailed<T>> for KeyFault {
    ghost from_gives = { λ _ e. e ≡ Memory };

    fn from(_e: AllocFailed<T>) -> KeyFault {
        KeyFault::Memory
    }
}
