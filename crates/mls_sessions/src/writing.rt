//! Bytes written whole.
ghost use Rattle.std.specs.Prelude.{IfOk, OnOk, OnErr, take};
ghost use Rattle.std.specs.Io.{WritesAtMost};
ghost use Rattle.std.specs.Io.KnownBytes.{Keeps, Appends};
ghost use Rattle.mls_sessions.specs.Run.{IsPart};

use std::io::{Error, ErrorKind, Result, Write};

/// How often a write that a signal interrupts is tried again.
const MOST_TRIES: u32 = u32::MAX;

/// Writes some of the bytes: one write, tried again where a signal interrupts it. `write_all` would not say
/// what a failed write leaves.
fn write_some<W: Write>(out: &mut W, bytes: &[u8]) -> Result<usize>
    ensures bound { WritesAtMost result bytes.now }
    ensures ok { IfOk result (λ n. Appends (W.contents out.old) (W.contents out.new) (take n bytes.now)) }
    ensures err { OnErr result (Keeps (W.contents out.old) (W.contents out.new)) }
{
    for _ in 0..MOST_TRIES {
        match out.write(bytes) {
            Ok(n) => return Ok(n),
            Err(e) => {
                if e.kind() != ErrorKind::Interrupted {
                    return Err(e);
                }
            }
        }
    }
    Err(Error::from(ErrorKind::TimedOut))
}

/// Writes all the bytes; where the writer refuses, a first part of them is written.
pub fn write_whole<W: Write>(out: &mut W, bytes: &[u8]) -> Result<()>
    ensures ok { OnOk result (Appends (W.contents out.old) (W.contents out.new) bytes.now) }
    ensures err { OnErr result (IsPart (W.contents out.old) (W.contents out.new) bytes.now) }
{
    let mut rest = bytes;
    while !rest.is_empty() {
        let count = write_some(out, rest)?;
        if count == 0 {
            return Err(Error::from(ErrorKind::WriteZero));
        }
        rest = &rest[count..];
    }
    Ok(())
}
