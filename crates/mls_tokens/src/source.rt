//! Where bytes come from: a reader, or memory.
ghost use Rattle.std.specs.Prelude.{IfOk, IfErr, OnErr, Option, List, ℕ, [], ◌≡◌, true, false};
ghost use Rattle.std.specs.Io.KnownBytes.{Consumes};
ghost use Rattle.mls_tokens.specs.Typing.{IsByte, IsCause};

use crate::typed::TypingFault;
use std::io::{Error, ErrorKind, Read};

/// How often a read that a signal interrupts is tried again.
const MOST_TRIES: u32 = u32::MAX;

/// Bytes that come one by one, since a reader cannot go back, and what tells that reading one has failed.
pub trait Source {
    // The bytes that are still to come, where they are known.
    ghost remaining: { Self → Option (List ℕ) };

    // A read has failed.
    ghost fails: { Self → Type 0 };

    /// The next byte, if there is one.
    fn next_byte(&mut self) -> Result<Option<u8>, TypingFault>
        ensures byte { IfOk result (IsByte (remaining self.old) (remaining self.new)) }
        ensures lost { OnErr result (Consumes (remaining self.old) (remaining self.new) []) }
        ensures failed { IfErr result (IsCause (fails self.new)) };
}

fn fault_of(error: &Error) -> TypingFault {
    if error.kind() == ErrorKind::OutOfMemory {
        TypingFault::Memory
    } else {
        TypingFault::Unreadable
    }
}

/// One read, tried again where a signal interrupts it.
fn read_byte<R: Read>(input: &mut R) -> Result<Option<u8>, TypingFault>
    ensures byte { IfOk result (IsByte (R.remaining input.old) (R.remaining input.new)) }
    ensures lost { OnErr result (Consumes (R.remaining input.old) (R.remaining input.new) []) }
{
    let mut byte = [0u8];
    for _ in 0..MOST_TRIES {
        match input.read(&mut byte) {
            Ok(0) => return Ok(None),
            Ok(_) => return Ok(Some(byte[0])),
            Err(error) => {
                if error.kind() != ErrorKind::Interrupted {
                    return Err(fault_of(&error));
                }
            }
        }
    }
    Err(TypingFault::Unreadable)
}

/// The bytes of any reader, of which nobody knows when it fails: that a read has failed is remembered.
#[derive(Drop)]
pub struct AnyReader<R: Drop> {
    reader: R,
    has_failed: bool,
}

impl<R: Read + Drop> AnyReader<R> {
    /// All bytes of a reader, of which no read has failed.
    pub fn new(reader: R) -> AnyReader<R>
        ensures { result ≡ record { reader = reader; has_failed = false } }
    {
        AnyReader {
            reader,
            has_failed: false,
        }
    }
}

impl<R: Read + Drop> Source for AnyReader<R> {
    ghost remaining = { λ s. R.remaining s.reader };

    ghost fails = { λ s. s.has_failed ≡ true };

    fn next_byte(&mut self) -> Result<Option<u8>, TypingFault> {
        let byte = read_byte(&mut self.reader);
        if byte.is_err() {
            self.has_failed = true;
        }
        byte
    }
}

/// Bytes in memory, of which no read fails.
#[derive(Drop)]
pub struct BytesIn<'a> {
    left: &'a [u8],
}

impl<'a> BytesIn<'a> {
    /// All bytes of a slice.
    pub fn new(left: &'a [u8]) -> BytesIn<'a>
        ensures { result.left.now ≡ left.now }
    {
        BytesIn { left }
    }
}

impl<'a> Source for BytesIn<'a> {
    ghost use Rattle.std.specs.Prelude.{Some};

    ghost remaining = { λ s. Some s.left.now };

    ghost fails = { λ _. ⊥ };

    fn next_byte(&mut self) -> Result<Option<u8>, TypingFault> {
        let Some((byte, left)) = self.left.split_first() else {
            return Ok(None);
        };
        let byte = *byte;
        self.left = left;
        Ok(Some(byte))
    }
}
