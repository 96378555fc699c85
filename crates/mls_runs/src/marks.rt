//! The mark behind an answer: a line that begins with `=`.
ghost use Rattle.std.specs.Prelude.{◌≡◌, IfOk};
ghost use Rattle.mls_runs.specs.Marks.{refused_mark, mark_of, IsMarked};

use crate::shell_session::Fate;
use mls_script::ScriptFault;
use mls_sessions::{RunCause, write_whole};
use mls_tokens::Piece::{Number, Text};
use mls_tokens::write_pieces;
use std::alloc::{AllocError, Global};
use std::io::Write;

/// The mark of a line that is refused: the code, the name and the column of its fault.
fn refused_mark(alloc: Global, fault: &ScriptFault) -> Result<Vec<u8>, AllocError>
    ensures { IfOk result (λ v. v.items ≡ refused_mark fault.now) }
{
    let mut mark = Vec::new(alloc);
    let pieces = [
        Text("= "),
        Number(usize::from(fault.cause.code())),
        Text(" "),
        Text(fault.cause.word()),
        Text(" at "),
        Number(fault.column),
        Text("\n"),
    ];
    match write_pieces(&mut mark, &pieces) {
        Ok(()) => Ok(mark),
        Err(_) => Err(AllocError),
    }
}

/// Writes a mark; where the writer refuses, a first part of it is written.
fn write_bytes<W: Write>(out: &mut W, mark: &[u8]) -> Result<(), RunCause>
    ensures { IsMarked mark.now (W.contents out.old) (W.contents out.new) result }
{
    match write_whole(out, mark) {
        Ok(()) => Ok(()),
        Err(_) => Err(RunCause::Write),
    }
}

/// Writes the mark of what became of a line. Where there is no memory for it, nothing is written.
pub(crate) fn write_mark<W: Write>(alloc: Global, fate: &Fate, out: &mut W) -> Result<(), RunCause>
    ensures { IsMarked (mark_of fate.now) (W.contents out.old) (W.contents out.new) result }
{
    match fate {
        Fate::Over | Fate::Unreadable | Fate::Lost(_) => Ok(()),
        Fate::Blank | Fate::Help | Fate::Asked | Fate::Said(_) => write_bytes(out, b"=\n"),
        Fate::TooLong => write_bytes(out, b"= too long\n"),
        Fate::Refused(fault) => match refused_mark(alloc, fault) {
            Ok(mark) => write_bytes(out, &mark),
            Err(_) => Err(RunCause::Memory),
        },
    }
}
