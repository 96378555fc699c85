//! What becomes of a line of a desk.
//! That a line opens a session under another name is asked after the reading of the line, so a fault of the line comes
//! first. The column is that of the fourth token behind any time, which a line that tells an opening has.
ghost use Rattle.std.specs.Prelude.{◌≡◌, IfOk};
ghost use Rattle.std.specs.List.{AllByRecursion, list_any};
ghost use Rattle.mls_translang.specs.Event.{EventFits};
ghost use Rattle.mls_runs.specs.Typed.{Becomes};
ghost use Rattle.mls_runs.specs.Shell.{FateFits, IsLineRead};
ghost use Rattle.mls_runs.specs.Desk.{opens_other, untimed, name_column, IsDeskFate};
ghost use Rattle.mls_runs.specs.Reading.{fate_of_events, fate_of};

use crate::shell_session::Fate;
use mls_lattice::{Items, Policy};
use mls_scheme::Schemes;
use mls_script::{ScriptCause, ScriptFault, script};
use mls_sessions::RunCause;
use mls_tokens::{TokenFault, Tokens, Typed, TypedLines, TypingFault};
use mls_translang::{Command, Event};
use std::alloc::Global;
use std::io::Write;

/// Whether an event opens its session for a user of another name.
fn opens_other(event: &Event) -> bool
    ensures { result ≡ opens_other event.now }
{
    match &event.command {
        Command::Open(user) => user.as_str() != event.session.as_str(),
        _ => false,
    }
}

fn open_others(events: &[Event]) -> bool
    ensures { result ≡ list_any opens_other events.now }
{
    for event in events {
        if opens_other(event) {
            return true;
        }
    }
    false
}

/// Passes any time.
fn pass_time(tokens: &mut Tokens)
    ensures { tokens.new.placed ≡ untimed tokens.old.placed }
{
    if tokens.starts_with_text() {
        let _time = tokens.pop();
    }
}

/// The column of the fourth token of a line, behind any time: of the user that an opening names.
fn name_column(alloc: Global, line: &[u8]) -> Result<usize, TokenFault>
    ensures { IfOk result (λ n. n ≡ name_column line.now) }
{
    let mut tokens = Tokens::new(alloc, line)?;
    pass_time(&mut tokens);
    let _label = tokens.pop();
    let _session = tokens.pop();
    let _verb = tokens.pop();
    match tokens.pop() {
        Some(user) => Ok(user.at),
        None => Ok(1),
    }
}

/// What becomes of a line that tells events.
fn fate_of_events(
    alloc: Global,
    policy: &Policy,
    schemes: &Schemes,
    line: &[u8],
    events: Vec<Event>,
) -> Fate
    requires fits { AllByRecursion (EventFits policy.now schemes.now) events.items }
    ensures is { Becomes (fate_of_events line.now events.items) result }
    ensures fits { FateFits policy.now schemes.now result }
{
    if !open_others(&events) {
        return Fate::Said(Items::from(events));
    }
    match name_column(alloc, line) {
        Ok(column) => Fate::Refused(ScriptFault {
            line: 1,
            column,
            cause: ScriptCause::Expected,
        }),
        Err(_) => Fate::Lost(RunCause::Memory),
    }
}

/// What becomes of a line.
fn fate_of(alloc: Global, policy: &Policy, schemes: &Schemes, line: &[u8]) -> Fate
    ensures is { Becomes (fate_of policy.now schemes.now line.now) result }
    ensures fits { FateFits policy.now schemes.now result }
{
    if line.is_empty() {
        return Fate::Over;
    }
    match script(alloc, policy, schemes, line) {
        Ok(events) => fate_of_events(alloc, policy, schemes, line, events),
        Err(fault) if fault.cause == ScriptCause::Memory => Fate::Lost(RunCause::Memory),
        Err(fault) => Fate::Refused(fault),
    }
}

/// Reads the next line, when all that was written is there, and says what becomes of it.
pub(crate) fn next_fate<L: TypedLines, W: Write>(
    alloc: Global,
    policy: &Policy,
    schemes: &Schemes,
    lines: &mut L,
    out: &mut W,
) -> Fate
    ensures read { IsLineRead L.echo (IsDeskFate policy.now schemes.now) (L.remaining lines.old) (L.remaining lines.new)
        (W.contents out.old) (W.contents out.new) (L.breaks lines.new) result }
    ensures fits { FateFits policy.now schemes.now result }
{
    match lines.next_line(alloc, out) {
        Ok(Typed::Line(line)) => fate_of(alloc, policy, schemes, &line),
        Ok(Typed::TooLong) => Fate::TooLong,
        Err(TypingFault::Unreadable) => Fate::Unreadable,
        Err(TypingFault::Memory) => Fate::Lost(RunCause::Memory),
        Err(TypingFault::Output) => Fate::Lost(RunCause::Write),
    }
}
