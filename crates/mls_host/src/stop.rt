//! Why a command ends without success, and how that is told.
ghost use Rattle.std.specs.Prelude.{◌≡◌, ◌++◌, OnOk};
ghost use Rattle.std.specs.Io.KnownBytes.{Appends};
ghost use Rattle.mls_host.specs.Stop.{run_text, served_text, turned_text, stop_text, stop_status, ended, served};
ghost use Rattle.mls_host.specs.Stop.{turned, unclosed_text, closing_text};

use crate::ending::Ending;
use crate::host::CloseFault;
use crate::reason::{Reason, Role, tell_fault};
use mls_fragments::OpenFault;
use mls_tokens::Piece::{Number, Text};
use mls_tokens::{WriteFault, write_bytes, write_pieces};
use mls_translang::{RunCause, RunFault};
use std::alloc::AllocError;
use std::io::Write;

/// Why a command ends without success.
#[derive(Clone, Copy)]
pub enum Stop {
    /// It was given up before anything was written.
    Before(Reason),
    /// It was given up at a fault, and whether its store was closed then.
    Run { fault: RunFault, is_closed: bool },
    /// All was done, and the store was not closed. The lines are written, so it is told as the store's and not as the
    /// run's.
    NotClosed,
    /// What a command other than a run prints was not taken.
    Output,
    /// A desk was given up: which of its lines it was at would tell of all of them.
    Served { cause: RunCause, is_closed: bool },
    /// A line of a desk could not be read.
    Unread,
    /// An audit list was not turned: no entry of it is dropped.
    Turned { cause: RunCause, is_closed: bool },
}

/// Tells that a store was not closed.
fn tell_unclosed<W: Write>(err: &mut W) -> Result<(), WriteFault<W>>
    ensures { OnOk result (Appends (W.contents err.old) (W.contents err.new) unclosed_text) }
{
    tell_fault(
        err,
        Role::Store.word(),
        OpenFault::Store.code(),
        OpenFault::Store.word(),
    )
}

/// Tells that behind a fault, if the store was not closed.
fn tell_closing<W: Write>(err: &mut W, is_closed: bool) -> Result<(), WriteFault<W>>
    ensures { OnOk result (Appends (W.contents err.old) (W.contents err.new) (closing_text is_closed)) }
{
    if is_closed {
        return Ok(());
    }
    tell_unclosed(err)
}

fn tell_run_line<W: Write>(err: &mut W, fault: &RunFault) -> Result<(), WriteFault<W>>
    ensures { OnOk result (Appends (W.contents err.old) (W.contents err.new) (run_text fault.now)) }
{
    let pieces = [
        Text("mldb: run: "),
        Text(fault.cause.word()),
        Text(" at "),
        Number(fault.event),
        Text("\n"),
    ];
    write_pieces(err, &pieces)
}

fn tell_run<W: Write>(err: &mut W, fault: &RunFault, is_closed: bool) -> Result<(), WriteFault<W>>
    ensures { OnOk result (Appends (W.contents err.old) (W.contents err.new)
        (run_text fault.now ++ closing_text is_closed)) }
{
    tell_run_line(err, fault)?;
    tell_closing(err, is_closed)
}

fn tell_served_line<W: Write>(err: &mut W, cause: RunCause) -> Result<(), WriteFault<W>>
    ensures { OnOk result (Appends (W.contents err.old) (W.contents err.new) (served_text cause)) }
{
    let pieces = [Text("mldb: serve: "), Text(cause.word()), Text("\n")];
    write_pieces(err, &pieces)
}

fn tell_served<W: Write>(err: &mut W, cause: RunCause, is_closed: bool) -> Result<(), WriteFault<W>>
    ensures { OnOk result (Appends (W.contents err.old) (W.contents err.new)
        (served_text cause ++ closing_text is_closed)) }
{
    tell_served_line(err, cause)?;
    tell_closing(err, is_closed)
}

fn tell_turned_line<W: Write>(err: &mut W, cause: RunCause) -> Result<(), WriteFault<W>>
    ensures { OnOk result (Appends (W.contents err.old) (W.contents err.new) (turned_text cause)) }
{
    let pieces = [Text("mldb: turn: "), Text(cause.word()), Text("\n")];
    write_pieces(err, &pieces)
}

fn tell_turned<W: Write>(err: &mut W, cause: RunCause, is_closed: bool) -> Result<(), WriteFault<W>>
    ensures { OnOk result (Appends (W.contents err.old) (W.contents err.new)
        (turned_text cause ++ closing_text is_closed)) }
{
    tell_turned_line(err, cause)?;
    tell_closing(err, is_closed)
}

impl Stop {
    /// The exit status: 2 where an input was refused, 1 where a line of a desk was not read, 3 for store, writing and
    /// memory.
    pub fn status(&self) -> u8
        ensures { result ≡ stop_status self.now }
    {
        match self {
            Stop::Before(reason) => reason.status(),
            Stop::Unread => 1,
            Stop::NotClosed | Stop::Output => 3,
            Stop::Run { .. } | Stop::Served { .. } | Stop::Turned { .. } => 3,
        }
    }

    /// Writes the line that tells the stop, and behind a fault another where the store was not closed.
    pub fn tell<W: Write>(&self, err: &mut W) -> Result<(), WriteFault<W>>
        ensures { OnOk result (Appends (W.contents err.old) (W.contents err.new) (stop_text self.now)) }
    {
        match self {
            Stop::Before(reason) => reason.tell(err),
            Stop::Run { fault, is_closed } => tell_run(err, fault, *is_closed),
            Stop::NotClosed => tell_unclosed(err),
            Stop::Output => write_bytes(err, b"mldb: output: Write\n"),
            Stop::Served { cause, is_closed } => tell_served(err, *cause, *is_closed),
            Stop::Unread => write_bytes(err, b"mldb: serve: Unreadable\n"),
            Stop::Turned { cause, is_closed } => tell_turned(err, *cause, *is_closed),
        }
    }
}

/// How a run or a shell ended whose store was closed, or not.
pub fn ended<T: Drop>(
    outcome: Result<T, RunFault>,
    closed: Result<(), CloseFault>,
) -> Result<T, Stop>
    ensures { result ≡ ended outcome closed }
{
    match (outcome, closed) {
        (Err(fault), Ok(())) => Err(Stop::Run {
            fault,
            is_closed: true,
        }),
        (Err(fault), Err(_)) => Err(Stop::Run {
            fault,
            is_closed: false,
        }),
        (Ok(_), Err(_)) => Err(Stop::NotClosed),
        (Ok(end), Ok(())) => Ok(end),
    }
}

/// How a desk ended, as it is told: a fault without the number of a line, and a line that could not be read as a stop.
pub fn served(outcome: Result<Ending, Stop>) -> Result<Ending, Stop>
    ensures { result ≡ served outcome }
{
    match outcome {
        Ok(Ending::Well) => Ok(Ending::Well),
        Ok(Ending::Refused) => Err(Stop::Unread),
        Err(Stop::Run { fault, is_closed }) => Err(Stop::Served {
            cause: fault.cause,
            is_closed,
        }),
        Err(stop) => Err(stop),
    }
}

/// How a turning ended, as it is told: a fault without a number.
pub fn turned(outcome: Result<(), Stop>) -> Result<Ending, Stop>
    ensures { result ≡ turned outcome }
{
    match outcome {
        Ok(()) => Ok(Ending::Well),
        Err(Stop::Run { fault, is_closed }) => Err(Stop::Turned {
            cause: fault.cause,
            is_closed,
        }),
        Err(stop) => Err(stop),
    }
}

impl From<AllocError> for Stop {
    ghost use Rattle.std.specs.Prelude.{◌≡◌};
    ghost use Rattle.mls_host.specs.declared.reason.Reason.TheVariants.{Memory};
    ghost use Rattle.mls_host.specs.declared.stop.Stop.TheVariants.{Before};

    ghost from_gives = { λ _ e. e ≡ Before Memory };

    fn from(_error: AllocError) -> Stop {
        Stop::Before(Reason::Memory)
    }
}

impl From<Reason> for Stop {
    ghost use Rattle.std.specs.Prelude.{◌≡◌};
    ghost use Rattle.mls_host.specs.declared.stop.Stop.TheVariants.{Before};

    ghost from_gives = { λ r e. e ≡ Before r };

    fn from(reason: Reason) -> Stop {
        Stop::Before(reason)
    }
}
