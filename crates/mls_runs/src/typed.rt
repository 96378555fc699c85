//! What a typed line tells.
ghost use Rattle.std.specs.Prelude.{◌≡◌, ◌∷◌, ◌++◌, ◌||◌, [], codes, IfOk, bytes_eq};
ghost use Rattle.std.specs.List.{AllByRecursion, list_all};
ghost use Rattle.mls_translang.specs.Event.{EventFits};
ghost use Rattle.mls_script.specs.Reading.{GivesScript, script_at};
ghost use Rattle.mls_runs.specs.Shell.{prefix_of, opening, is_own, fate_of_events, is_asked, meant};
ghost use Rattle.mls_runs.specs.Shell.{FateFits, IsShellLineRead};
ghost use Rattle.mls_runs.specs.Typed.{fate_of_fault, fate_of, Becomes};

use crate::shell_session::{Fate, ShellSession};
use mls_lattice::{Items, Policy, Str};
use mls_scheme::Schemes;
use mls_script::{ScriptCause, ScriptFault, script};
use mls_sessions::RunCause;
use mls_tokens::{Typed, TypedLines, TypingFault};
use mls_translang::{Command, Event};
use std::alloc::{AllocError, Global};
use std::io::Write;

/// The event that opens the session. It is made from the words and never from a text, of which an LF in a word would
/// make two lines.
pub(crate) fn opening(alloc: Global, session: &ShellSession) -> Result<Vec<Event>, AllocError>
    ensures { IfOk result (λ v. v.items ≡ opening session.now ∷ []) }
{
    let mut events = Vec::new(alloc);
    events.push(Event {
        level: session.level,
        session: Str::copy_of(alloc, session.user.as_str())?,
        time: None,
        command: Command::Open(Str::copy_of(alloc, session.user.as_str())?),
    })?;
    Ok(events)
}

fn is_own(session: &ShellSession, event: &Event) -> bool
    ensures { result ≡ is_own session.now event.now }
{
    event.level == session.level && event.session.as_str() == session.user.as_str()
}

fn are_own(session: &ShellSession, events: &[Event]) -> bool
    ensures { result ≡ list_all (is_own session.now) events.now }
{
    for event in events {
        if !is_own(session, event) {
            return false;
        }
    }
    true
}

/// What becomes of a line that tells events.
fn fate_of_events(session: &ShellSession, events: Vec<Event>) -> Fate
    ensures { result ≡ fate_of_events session.now events.items }
{
    if are_own(session, &events) {
        Fate::Said(Items::from(events))
    } else {
        Fate::Refused(ScriptFault {
            line: 1,
            column: 1,
            cause: ScriptCause::Expected,
        })
    }
}

/// What becomes of a line that is no command.
fn fate_of_fault(
    alloc: Global,
    policy: &Policy,
    schemes: &Schemes,
    line: &[u8],
    fault: ScriptFault,
) -> Fate
    ensures { Becomes (fate_of_fault fault (script_at policy.now schemes.now line.now)) result }
{
    match script(alloc, policy, schemes, line) {
        Ok(events) => {
            if events.is_empty() {
                Fate::Blank
            } else {
                Fate::Refused(fault)
            }
        }
        Err(alone) if alone.cause == ScriptCause::Memory => Fate::Lost(RunCause::Memory),
        Err(_) => Fate::Refused(fault),
    }
}

/// A line behind the words that stand before it in a script.
pub(crate) fn text_of(
    alloc: Global,
    session: &ShellSession,
    line: &[u8],
) -> Result<Vec<u8>, AllocError>
    ensures { IfOk result (λ v. v.items ≡ prefix_of session.now ++ line.now) }
{
    let (label, user) = (session.label.as_str(), session.user.as_str());
    let mut text = format!(in alloc; "{label} {user} ")?.into_bytes();
    text.extend_from_slice(line)?;
    Ok(text)
}

/// The events that a line tells behind those words.
fn events_of(
    alloc: Global,
    policy: &Policy,
    schemes: &Schemes,
    session: &ShellSession,
    line: &[u8],
) -> Result<Vec<Event>, ScriptFault>
    ensures exact { GivesScript (λ v. v.items) result (script_at policy.now schemes.now
        (prefix_of session.now ++ line.now)) }
    ensures fits { IfOk result (λ v. AllByRecursion (EventFits policy.now schemes.now) v.items) }
{
    match text_of(alloc, session, line) {
        Ok(text) => script(alloc, policy, schemes, &text),
        Err(_) => Err(ScriptFault {
            line: 1,
            column: 1,
            cause: ScriptCause::Memory,
        }),
    }
}

/// Whether a line asks which commands there are.
fn is_help(line: &[u8]) -> bool
    ensures { result ≡ bytes_eq line.now (codes "help\n") }
{
    line == b"help\n".as_slice()
}

/// Whether a line asks for more at a terminal.
fn is_asked(session: &ShellSession, line: &[u8]) -> bool
    ensures { result ≡ is_asked session.now line.now }
{
    session.has_prompt
        && (line == b"describe\n".as_slice()
            || line.starts_with(b"describe ")
            || line.starts_with(b"help "))
}

fn is_farewell(line: &[u8]) -> bool
    ensures { result ≡ (bytes_eq line.now (codes "quit\n") || bytes_eq line.now (codes "exit\n")) }
{
    line == b"quit\n".as_slice() || line == b"exit\n".as_slice()
}

/// What a line means.
fn meant<'a>(session: &ShellSession, line: &'a [u8]) -> &'a [u8]
    ensures { result.now ≡ meant session.now line.now }
{
    if session.has_prompt && is_farewell(line) {
        b"close\n"
    } else {
        line
    }
}

/// What becomes of a line.
fn fate_of(
    alloc: Global,
    policy: &Policy,
    schemes: &Schemes,
    session: &ShellSession,
    line: &[u8],
) -> Fate
    ensures is { Becomes (fate_of policy.now schemes.now session.now line.now) result }
    ensures fits { FateFits policy.now schemes.now result }
{
    if line.is_empty() {
        return Fate::Over;
    }
    if is_help(line) {
        return Fate::Help;
    }
    if is_asked(session, line) {
        return Fate::Asked;
    }
    let line = meant(session, line);
    match events_of(alloc, policy, schemes, session, line) {
        Ok(events) => fate_of_events(session, events),
        Err(fault) if fault.cause == ScriptCause::Memory => Fate::Lost(RunCause::Memory),
        Err(fault) => fate_of_fault(alloc, policy, schemes, line, fault),
    }
}

/// Reads the next line, when all that was written is there, and says what becomes of it. Its bytes are put into
/// `heard`.
pub(crate) fn next_fate<L: TypedLines, W: Write>(
    alloc: Global,
    policy: &Policy,
    schemes: &Schemes,
    session: &ShellSession,
    lines: &mut L,
    out: &mut W,
    heard: &mut Vec<u8>,
) -> Fate
    requires { heard.old.items ≡ [] }
    ensures read { IsShellLineRead L.echo policy.now schemes.now session.now (L.remaining lines.old)
        (L.remaining lines.new) (W.contents out.old) (W.contents out.new) (L.breaks lines.new) result heard.new.items }
    ensures fits { FateFits policy.now schemes.now result }
{
    policy.use_invariant();
    schemes.use_invariant();
    match lines.next_line(alloc, out) {
        Ok(Typed::Line(line)) => {
            let fate = fate_of(alloc, policy, schemes, session, &line);
            *heard = line;
            fate
        }
        Ok(Typed::TooLong) => Fate::TooLong,
        Err(TypingFault::Unreadable) => Fate::Unreadable,
        Err(TypingFault::Memory) => Fate::Lost(RunCause::Memory),
        Err(TypingFault::Output) => Fate::Lost(RunCause::Write),
    }
}
