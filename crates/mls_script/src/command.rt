//! A line: any time, a level, a session and a command.
ghost use Rattle.std.specs.Prelude.{◌≡◌};
ghost use Rattle.mls_parser.specs.Noted.{GivesPlaced, token};
ghost use Rattle.mls_parser.specs.Words.{pass_known};
ghost use Rattle.mls_translang.specs.declared.event.Command.TheVariants as commands;
ghost use Rattle.mls_script.specs.Reading.{verb_of_token, viewed_at, call_at, command_at, time_at, event_at, timed_at};
ghost use Rattle.mls_script.specs.Reading.{told_at};

use crate::batch::batch;
use crate::grammar::{VERBS, Verb, verb_among};
use crate::lists::list;
use crate::parts::{Look, Written, delete, insert, looking, update};
use mls_lattice::{Items, Policy, Str, is_time};
use mls_parser::{PlacedFault, Reader, TextCause, ill_formed};
use mls_scheme::Schemes;
use mls_tokens::Token;
use mls_translang::{Command, Event};
use std::alloc::Global;

fn verb_of_token(token: &Token) -> Option<Verb>
    ensures { result ≡ verb_of_token token.now }
{
    match token {
        Token::Word(word) => verb_among(&VERBS, word.as_str()),
        _ => None,
    }
}

/// Passes a verb, and gives its place too.
fn verb(reader: &mut Reader) -> Result<(Verb, usize), PlacedFault>
    ensures { GivesPlaced (λ x. ((x.0, x.1), reader.new)) result (token (pass_known verb_of_token) reader.old) }
{
    let first = reader.tokens.pop().ok_or(reader.tokens.refused())?;
    let verb = verb_of_token(&first.token).ok_or(ill_formed(first.at, TextCause::Expected))?;
    Ok((verb, first.at))
}

// ---- commands, behind the verb

fn viewed(
    alloc: Global,
    policy: &Policy,
    schemes: &Schemes,
    counts: bool,
    reader: &mut Reader,
) -> Result<Command, PlacedFault>
    ensures { GivesPlaced (λ c. (c, reader.new)) result (viewed_at policy.now schemes.now counts reader.old) }
{
    let Look {
        relation,
        label,
        query,
    } = looking(alloc, policy, schemes, counts, reader)?;
    Ok(Command::View {
        relation,
        label,
        query,
        counts,
    })
}

fn written(write: Written) -> Command
    ensures { result ≡ commands.Write write.0 write.1 }
{
    let (relation, write) = write;
    Command::Write { relation, write }
}

#[tactic(auto, unfolding(crate::specs::Reading::call_at))]
fn call(alloc: Global, reader: &mut Reader) -> Result<Command, PlacedFault>
    ensures { GivesPlaced (λ c. (c, reader.new)) result (call_at reader.old) }
{
    let (tx, _) = reader.name()?;
    let args = list(alloc, reader, None)?;
    Ok(Command::Call { tx, args })
}

fn command(
    alloc: Global,
    policy: &Policy,
    schemes: &Schemes,
    verb: Verb,
    reader: &mut Reader,
) -> Result<Command, PlacedFault>
    ensures { GivesPlaced (λ c. (c, reader.new)) result (command_at policy.now schemes.now verb reader.old) }
{
    match verb {
        Verb::Open => Ok(Command::Open(reader.name()?.0)),
        Verb::Close => Ok(Command::Close),
        Verb::Audit => Ok(Command::Audit),
        Verb::View => viewed(alloc, policy, schemes, false, reader),
        Verb::Count => viewed(alloc, policy, schemes, true, reader),
        Verb::Dump => {
            let relation = reader.relation(schemes)?;
            Ok(Command::Dump { relation })
        }
        Verb::Insert => Ok(written(insert(alloc, schemes, reader)?)),
        Verb::Update => Ok(written(update(alloc, policy, schemes, reader)?)),
        Verb::Delete => Ok(written(delete(alloc, policy, schemes, reader)?)),
        Verb::Call => call(alloc, reader),
        Verb::All => Ok(Command::All(batch(alloc, policy, schemes, reader)?)),
    }
}

// ---- lines

/// The time at the front of a line, where one is: a text that has to be a time.
#[tactic(auto, unfolding(crate::specs::Reading::time_at))]
fn time(reader: &mut Reader) -> Result<Option<Str>, PlacedFault>
    ensures { GivesPlaced (λ t. (t, reader.new)) result (time_at reader.old) }
{
    match reader.tokens.takes_text()? {
        Some((text, at)) => {
            reader.note(is_time(text.as_str().as_bytes()), at, TextCause::Kind)?;
            Ok(Some(text))
        }
        None => Ok(None),
    }
}

#[tactic(auto, unfolding(crate::specs::Reading::event_at))]
fn event(
    alloc: Global,
    policy: &Policy,
    schemes: &Schemes,
    time: Option<Str>,
    reader: &mut Reader,
) -> Result<Event, PlacedFault>
    ensures { GivesPlaced (λ e. (e, reader.new)) result (event_at policy.now schemes.now time reader.old) }
{
    let level = reader.label(policy)?;
    let (session, _) = reader.name()?;
    let (verb, _) = verb(reader)?;
    let command = command(alloc, policy, schemes, verb, reader)?;
    Ok(Event {
        level,
        session,
        time,
        command,
    })
}

/// A time, where one is, and an event.
#[tactic(auto, unfolding(crate::specs::Reading::timed_at))]
fn timed(
    alloc: Global,
    policy: &Policy,
    schemes: &Schemes,
    reader: &mut Reader,
) -> Result<Event, PlacedFault>
    ensures { GivesPlaced (λ e. (e, reader.new)) result (timed_at policy.now schemes.now reader.old) }
{
    let time = time(reader)?;
    event(alloc, policy, schemes, time, reader)
}

/// The event that a line tells, if it is not blank.
#[tactic(auto, unfolding(crate::specs::Reading::told_at))]
pub(crate) fn told(
    alloc: Global,
    policy: &Policy,
    schemes: &Schemes,
    reader: &mut Reader,
) -> Result<Option<Event>, PlacedFault>
    ensures { GivesPlaced (λ o. (o, reader.new)) result (told_at policy.now schemes.now reader.old) }
{
    if reader.has_ended() {
        return Ok(None);
    }
    let event = timed(alloc, policy, schemes, reader)?;
    reader.tokens.end()?;
    Ok(Some(event))
}
