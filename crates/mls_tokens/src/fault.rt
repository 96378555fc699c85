//! Why a text is refused by its tokens, and where.
ghost use Rattle.std.specs.Prelude.{◌≡◌};
ghost use Rattle.mls_tokens.specs.declared.fault.TokenCause.TheVariants.{Memory};
ghost use Rattle.mls_tokens.specs.Scanning.{failed_cause_of};

use mls_lattice::Failed;
use std::alloc::{AllocError, AllocFailed};

/// Why a text is refused by its tokens.
#[derive(Clone, Copy, PartialEq, Eq, Debug)]
pub enum TokenCause {
    /// No token stands here.
    Token,
    /// Another token is wanted here, or no more than the end.
    Expected,
    /// A text between quotes has more than 8,192 bytes.
    TooLong,
    /// A growth was refused.
    Memory,
}

/// Why a text is refused, and the place of that byte, counted from 1.
#[derive(Clone, Copy, PartialEq, Eq, Debug)]
pub struct TokenFault {
    pub at: usize,
    pub cause: TokenCause,
}

/// Why no token stands at the front of bytes.
#[derive(Clone, Copy)]
pub(crate) enum ScanFault {
    Token,
    TooLong,
}

impl From<Failed<ScanFault>> for TokenCause {
    ghost from_gives = { λ failed cause. cause ≡ failed_cause_of failed };

    fn from(failed: Failed<ScanFault>) -> TokenCause {
        match failed {
            Failed::Memory => TokenCause::Memory,
            Failed::Fault(ScanFault::Token) => TokenCause::Token,
            Failed::Fault(ScanFault::TooLong) => TokenCause::TooLong,
        }
    }
}

impl From<AllocError> for TokenFault {
    ghost from_gives = { λ _ e. e.cause ≡ Memory };

    fn from(_e: AllocError) -> TokenFault {
        TokenFault {
            at: 0,
            cause: TokenCause::Memory,
        }
    }
}

impl<T: Drop> From<AllocFailed<T>> for TokenFault {
    ghost from_gives = { λ _ e. e.cause ≡ Memory };

    fn from(_e: AllocFailed<T>) -> TokenFault {
        TokenFault {
            at: 0,
            cause: TokenCause::Memory,
        }
    }
}
