//! Why and where runs of scripts stop.
ghost use Rattle.std.specs.Prelude.{◌≡◌};
ghost use Rattle.mls_translang.specs.RunFault.{cause_word};

use mls_lattice::words;

/// Why a run stops.
#[derive(Clone, Copy, PartialEq, Eq, Debug)]
pub enum RunCause {
    /// The store failed.
    Store,
    /// A growth was refused.
    Memory,
    /// The writer refused.
    Write,
}

/// The names of the causes, in their order.
static WORDS: [&str; 3] = words! { Store Memory Write };

impl RunCause {
    /// The name of the cause.
    pub fn word(self) -> &'static str
        ensures { result.now ≡ cause_word self }
    {
        WORDS[self as usize]
    }
}

/// Where a run stops.
#[derive(Clone, Copy, PartialEq, Eq, Debug)]
pub struct RunFault {
    /// The number of the event, from 1.
    pub event: usize,
    pub cause: RunCause,
    /// Whether the change of this event stands.
    pub done: bool,
}
