//! What a shell says on standard error.
ghost use Rattle.std.specs.Prelude.{◌≡◌, string_bytes};
ghost use Rattle.mls_host.specs.Hosting.{IsTold};
ghost use Rattle.mls_runs.specs.Shell.{prompt_of, column_of, told_of, end_told};
ghost use Rattle.mls_runs.specs.Explaining.{IsExplained, IsTextOf};

use crate::help::HELP;
use crate::shell_session::{Fate, ShellSession};
use mls_host::{Errors, Tally};
use std::alloc::AllocError;
use std::io::Write;

/// The column in what was typed.
pub(crate) fn column_of(session: &ShellSession, column: usize) -> usize
    ensures { result ≡ column_of session.now column }
{
    let blanks = 2;
    column
        .saturating_sub(session.label.as_str().len())
        .saturating_sub(session.user.as_str().len())
        .saturating_sub(blanks)
        .max(1)
}

/// Shows the prompt, if there is one.
pub(crate) fn ask<E: Write>(err: &mut Errors<E>, session: &ShellSession)
    ensures { IsTold E.contents err.old err.new (prompt_of session.now) }
{
    if session.has_prompt {
        err.tell_prompt(session.label.as_str(), session.user.as_str())
    } else {
        err.tell(b"")
    }
}

/// Tells what is to be said of a line.
pub(crate) fn tell_fate<E: Write>(
    err: &mut Errors<E>,
    session: &ShellSession,
    number: usize,
    fate: &Fate,
)
    ensures { IsTold E.contents err.old err.new (told_of session.now number fate.now) }
{
    match fate {
        Fate::Help => err.tell(HELP.as_bytes()),
        Fate::Refused(fault) => {
            err.tell_fault(number, column_of(session, fault.column), fault.cause)
        }
        Fate::TooLong => err.tell_line(number, "too long"),
        Fate::Unreadable => err.tell_line(number, "unreadable"),
        Fate::Over | Fate::Blank | Fate::Asked | Fate::Said(_) | Fate::Lost(_) => err.tell(b""),
    }
}

/// Tells at the end how many lines are done, where nobody types at a terminal.
pub(crate) fn tell_end<E: Write>(err: &mut Errors<E>, session: &ShellSession, tally: &Tally)
    ensures { IsTold E.contents err.old err.new (end_told session.now tally.now) }
{
    if session.has_prompt {
        err.tell(b"")
    } else {
        err.tell_tally(tally)
    }
}

/// Tells more, where somebody reads it and there is memory for it.
pub(crate) fn tell_more<E: Write>(
    err: &mut Errors<E>,
    session: &ShellSession,
    text: Result<String, AllocError>,
)
    ensures { IsExplained session.now.is_watched (IsTextOf string_bytes text) (IsTold E.contents err.old err.new) }
{
    match text {
        Ok(text) if session.is_watched => err.tell(text.as_bytes()),
        _ => err.tell(b""),
    }
}
