//! What is said of a command line that is bad, or that asks for help.
ghost use Rattle.std.specs.Prelude.{◌≡◌, OnOk};
ghost use Rattle.std.specs.Io.KnownBytes.{Appends};
ghost use Rattle.mls_host.specs.Words.{memory_text, usage_text, usage_status};

use mls_tokens::{WriteFault, write_bytes};
use std::alloc::AllocError;
use std::io::Write;

/// Why words ask for nothing that can be done.
/// A type of its own: no function that does a job can answer it, and a [`Stop`](crate::Stop), which has no text,
/// is copied.
#[derive(Drop)]
pub enum Usage {
    /// The text that is printed.
    Text(String),
    /// A growth was refused.
    Memory,
}

/// Writes the line that tells want of memory.
pub(crate) fn tell_memory<W: Write>(err: &mut W) -> Result<(), WriteFault<W>>
    ensures { OnOk result (Appends (W.contents err.old) (W.contents err.new) memory_text) }
{
    write_bytes(err, b"mldb: memory\n")
}

impl Usage {
    /// The exit status.
    pub fn status(&self) -> u8
        ensures { result ≡ usage_status self.now }
    {
        match self {
            Usage::Text(_) => 2,
            Usage::Memory => 3,
        }
    }

    /// Writes the text.
    pub fn tell<W: Write>(&self, err: &mut W) -> Result<(), WriteFault<W>>
        ensures { OnOk result (Appends (W.contents err.old) (W.contents err.new) (usage_text self.now)) }
    {
        match self {
            Usage::Text(text) => write_bytes(err, text.as_bytes()),
            Usage::Memory => tell_memory(err),
        }
    }
}

impl From<AllocError> for Usage {
    ghost use Rattle.std.specs.Prelude.{◌≡◌};
    ghost use Rattle.mls_host.specs.declared.usage.Usage.TheVariants.{Memory};

    ghost from_gives = { λ _ e. e ≡ Memory };

    fn from(_error: AllocError) -> Usage {
        Usage::Memory
    }
}
