ghost use Rattle.std.specs.Prelude.{◌≡◌};
ghost use Rattle.mls_parser.specs.declared.fault.TextCause.TheVariants.{Memory};
ghost use Rattle.mls_parser.specs.Fault.{fault, code_of, word_of, is_before, sooner, least, in_text, lifted};

use mls_lattice::words;
use mls_tokens::{TokenCause, TokenFault, spot_at};
use std::alloc::{AllocError, AllocFailed};
use std::fmt;
use thiserror::Error;

/// Why a text of transactions is refused.
#[derive(Clone, Copy, PartialEq, Eq, Debug, Error)]
pub enum TextCause {
    /// No token stands here.
    Token = 21,
    /// No transaction goes on so.
    Expected,
    /// A name is unknown.
    UnknownName,
    /// An expression has the wrong kind, or a list the wrong length.
    Kind,
    /// A name stands twice.
    Repeated,
    /// Statements or operators stand too deep in one another.
    Depth,
    /// A text is too long, or there are too many of a sort.
    TooLong,
    /// A label does not dominate another.
    LabelOrder,
    /// A growth was refused.
    Memory,
}

/// A fault of the tokens.
impl From<TokenFault> for PlacedFault {
    ghost from_gives = { λ f e. e ≡ lifted f };

    fn from(fault: TokenFault) -> PlacedFault {
        let cause = match fault.cause {
            TokenCause::Token => TextCause::Token,
            TokenCause::Expected => TextCause::Expected,
            TokenCause::TooLong => TextCause::TooLong,
            TokenCause::Memory => TextCause::Memory,
        };
        PlacedFault {
            at: fault.at,
            cause,
        }
    }
}

impl From<AllocError> for PlacedFault {
    ghost from_gives = { λ _ e. e.cause ≡ Memory };

    fn from(_e: AllocError) -> PlacedFault {
        PlacedFault {
            at: 0,
            cause: TextCause::Memory,
        }
    }
}

impl<T: Drop> From<AllocFailed<T>> for PlacedFault {
    ghost from_gives = { λ _ e. e.cause ≡ Memory };

    fn from(_e: AllocFailed<T>) -> PlacedFault {
        PlacedFault {
            at: 0,
            cause: TextCause::Memory,
        }
    }
}

/// The names of the causes, in the order of their numbers.
static WORDS: [&str; 9] = words! {
    Token Expected UnknownName Kind Repeated Depth TooLong LabelOrder Memory
};

impl TextCause {
    /// The number of the cause.
    pub fn code(self) -> u8
        ensures { result ≡ code_of self }
    {
        self as u8
    }

    /// The name of the cause.
    pub fn word(self) -> &'static str
        ensures { result.now ≡ word_of self }
    {
        WORDS[self as usize - 21]
    }
}

/// The name of the fault.
impl fmt::Display for TextCause {
    fn fmt<W: fmt::Write>(&self, f: &mut fmt::Formatter<W>) -> fmt::Result {
        f.write_str(self.word())
    }
}

/// Where in a text of transactions which fault stands: lines, and the bytes of a line, are counted from 1.
#[derive(Clone, Copy, PartialEq, Eq, Debug, Error)]
#[error("line {line}, column {column}: {cause}")]
pub struct TextFault {
    pub line: usize,
    pub column: usize,
    pub cause: TextCause,
}

/// The place of a fault: the bytes of the whole text are counted from 1.
#[derive(Clone, Copy)]
pub struct PlacedFault {
    pub at: usize,
    pub cause: TextCause,
}

impl PlacedFault {
    /// The fault, by its line and column in the text.
    #[tactic(auto, unfolding(crate::specs::Fault::in_text))]
    pub fn in_text(self, bytes: &[u8]) -> TextFault
        ensures { result ≡ in_text bytes.now self }
    {
        let spot = spot_at(bytes, self.at.saturating_sub(1));
        TextFault {
            line: spot.line,
            column: spot.column,
            cause: self.cause,
        }
    }

    #[tactic(auto, unfolding(crate::specs::Fault::is_before))]
    fn is_before(self, other: PlacedFault) -> bool
        ensures { result ≡ is_before self other }
    {
        self.at < other.at || self.at == other.at && self.cause.code() < other.cause.code()
    }
}

/// The fault of a form.
pub fn ill_formed(at: usize, cause: TextCause) -> PlacedFault
    ensures { result ≡ fault at cause }
{
    PlacedFault { at, cause }
}

fn sooner(found: Option<PlacedFault>, fault: PlacedFault) -> PlacedFault
    ensures { result ≡ sooner found fault }
{
    match found {
        Some(first) if !fault.is_before(first) => first,
        _ => fault,
    }
}

/// The least of some faults.
#[tactic(auto, unfolding(crate::specs::Fault::least_from))]
pub(crate) fn least(faults: &[PlacedFault]) -> Option<PlacedFault>
    ensures { result ≡ least faults.now }
{
    let mut found = None;
    for fault in faults {
        found = Some(sooner(found, *fault));
    }
    found
}
