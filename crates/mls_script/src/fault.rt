//! Why a script is refused, and where.
ghost use Rattle.std.specs.Prelude.{◌≡◌};
ghost use Rattle.mls_script.specs.Fault.{code_of, word_of, on_line, in_line};

use mls_lattice::words;
use mls_parser::{PlacedFault, TextCause};
use std::fmt;
use thiserror::Error;

/// Why a script is refused.
#[derive(Clone, Copy, PartialEq, Eq, Debug, Error)]
pub enum ScriptCause {
    /// No token stands here.
    Token = 21,
    /// No command goes on so.
    Expected,
    /// A name is unknown.
    UnknownName,
    /// A value has the wrong kind, or a list the wrong length.
    Kind,
    /// A name stands twice.
    Repeated,
    /// The parts of a condition are nested too deeply, or it has too many tests.
    Depth,
    /// A text is too long.
    TooLong,
    /// A growth was refused.
    Memory = 29,
    /// The last line has no end.
    Unterminated,
}

/// The names of the causes, in the order of their numbers; 28 is told of transactions alone.
static WORDS: [&str; 10] = words! {
    Token Expected UnknownName Kind Repeated Depth TooLong LabelOrder Memory Unterminated
};

impl ScriptCause {
    /// The number of the cause.
    pub fn code(self) -> u8
        ensures { result ≡ code_of self }
    {
        self as u8
    }

    /// The name of the cause.
    pub fn word(self) -> &'static str
        ensures { result.now ≡ word_of self }
    {
        WORDS[self as usize - 21]
    }
}

/// The name of the fault.
impl fmt::Display for ScriptCause {
    fn fmt<W: fmt::Write>(&self, f: &mut fmt::Formatter<W>) -> fmt::Result {
        f.write_str(self.word())
    }
}

/// Where in a script which fault stands: lines and bytes of a line are counted from 1.
#[derive(Clone, Copy, PartialEq, Eq, Debug, Error)]
#[error("line {line}, column {column}: {cause}")]
pub struct ScriptFault {
    pub line: usize,
    pub column: usize,
    pub cause: ScriptCause,
}

/// Where in a line which fault stands: bytes are counted from 1.
#[derive(Clone, Copy)]
pub(crate) struct LineFault {
    pub at: usize,
    pub cause: ScriptCause,
}

impl LineFault {
    /// The fault, in the line of a number.
    pub fn in_line(self, line: usize) -> ScriptFault
        ensures { result ≡ in_line line self }
    {
        ScriptFault {
            line,
            column: self.at,
            cause: self.cause,
        }
    }
}

/// A fault of what is read of a line, which has none of the order of labels.
impl From<PlacedFault> for LineFault {
    ghost from_gives = { λ f e. e ≡ on_line f };

    fn from(fault: PlacedFault) -> LineFault {
        let cause = match fault.cause {
            TextCause::Token => ScriptCause::Token,
            TextCause::Expected => ScriptCause::Expected,
            TextCause::UnknownName => ScriptCause::UnknownName,
            TextCause::Kind | TextCause::LabelOrder => ScriptCause::Kind,
            TextCause::Repeated => ScriptCause::Repeated,
            TextCause::Depth => ScriptCause::Depth,
            TextCause::TooLong => ScriptCause::TooLong,
            TextCause::Memory => ScriptCause::Memory,
        };
        LineFault {
            at: fault.at,
            cause,
        }
    }
}
