//! A shell: a session whose commands are typed, each answered before the next is read.
ghost use Rattle.std.specs.Prelude.{◌≡◌, ◌<◌, ◌∷◌, ◌||◌, [], false, not, length, Some, OnOk, Err};
ghost use Rattle.mls_machine.specs.Observation.{EventsFit};
ghost use Rattle.mls_sessions.specs.Access.{ArePermitted};
ghost use Rattle.mls_sessions.specs.Engine.{site, world_of, IsAtRest, IsEngineReady, Continues, Leaves};
ghost use Rattle.mls_sessions.specs.Run.{notice_in};
ghost use Rattle.mls_host.specs.Ending.{ending_if};
ghost use Rattle.mls_host.specs.Hosting.{IsAppended, IsTold};
ghost use Rattle.mls_certcheck.specs.Site.{site_of};
ghost use Rattle.mls_runs.specs.Access.{AreLinesPermitted};
ghost use Rattle.mls_runs.specs.Shell.{opening, audience_at, events_of, is_short, end_told, is_last};
ghost use Rattle.mls_runs.specs.Shell.{
  is_lost,
  noticed_by,
  FateFits,
  MayTalk,
  IsShellFate,
  IsShellFollowed,
  IsConversation,
  IsShell,
};

use crate::explaining::{Explains, Listener};
use crate::form::form_of;
use crate::shell_session::{Fate, ShellSession};
use crate::tally::{NO_LINES, is_short, tally_with};
use crate::telling::{ask, tell_end, tell_fate, tell_more};
use crate::typed::next_fate;
use mls_filterview::Base;
use mls_host::{Ending, Errors, Tally, ending_if};
use mls_lattice::{Items, Policy};
use mls_machine::Audience;
use mls_scheme::Schemes;
use mls_sessions::{Engine, Notice, RunCause, RunFault, Stored, run_to};
use mls_tokens::TypedLines;
use mls_translang::Event;
use std::alloc::Global;
use std::io::Write;

/// Its level, which is shown tables where somebody types at a terminal.
fn audience_at(session: &ShellSession) -> Audience
    ensures { result ≡ audience_at session.now }
{
    Audience {
        reader: Some(session.level),
        form: form_of(session.has_prompt),
    }
}

/// Answers the events of a line, for the level of the session alone. A fault is told as one of the line.
fn answer<B: Base, W: Write>(
    engine: &mut Engine<B>,
    session: &ShellSession,
    line: usize,
    events: &[Event],
    out: &mut W,
) -> Result<(), RunFault>
    requires ready { IsEngineReady B.seen engine.old }
    requires fits { EventsFit (site engine.old) events.now }
    requires level { session.now.level < length (site engine.old).policy.labels }
    ensures continues { Continues B.seen engine.old engine.new result }
    ensures access { ArePermitted B.seen (site engine.old) events.now engine.old.base engine.new.base }
    ensures followed { (B.seen engine.new.base).is_clean → IsShellFollowed (site engine.old) (audience_at session.now)
        (world_of B.seen engine.old) events.now (W.contents out.old) (W.contents out.new)
        (world_of B.seen engine.new) line result }
    ensures noticed { (B.seen engine.new.base).is_clean → OnOk result (engine.new.notice
        ≡ notice_in (site engine.old) (world_of B.seen engine.old) events.now) }
{
    match run_to(engine, events, audience_at(session), out) {
        Ok(()) => Ok(()),
        Err(fault) => Err(RunFault {
            event: line,
            cause: fault.cause,
            done: fault.done,
        }),
    }
}

/// Does what becomes of a line.
fn follow<B: Base, W: Write>(
    engine: &mut Engine<B>,
    session: &ShellSession,
    line: usize,
    fate: &Fate,
    out: &mut W,
) -> Result<(), RunFault>
    requires ready { IsEngineReady B.seen engine.old }
    requires fits { FateFits (site engine.old).policy (site engine.old).schemes fate.now }
    requires level { session.now.level < length (site engine.old).policy.labels }
    ensures continues { Continues B.seen engine.old engine.new result }
    ensures access { ArePermitted B.seen (site engine.old) (events_of fate.now) engine.old.base engine.new.base }
    ensures followed { (B.seen engine.new.base).is_clean → IsShellFollowed (site engine.old) (audience_at session.now)
        (world_of B.seen engine.old) (events_of fate.now) (W.contents out.old) (W.contents out.new)
        (world_of B.seen engine.new) line result }
    ensures found { OnOk result (is_lost fate.now ≡ false) }
    ensures noticed { (B.seen engine.new.base).is_clean → OnOk result (noticed_by fate.now engine.new.notice
        ≡ notice_in (site engine.old) (world_of B.seen engine.old) (events_of fate.now)) }
{
    match fate {
        Fate::Said(events) => answer(engine, session, line, events, out),
        Fate::Lost(cause) => Err(RunFault {
            event: line,
            cause: *cause,
            done: false,
        }),
        _ => Ok(()),
    }
}

/// Why the event of a line was not done, if it told any.
fn noticed<B: Base>(engine: &Engine<B>, fate: &Fate) -> Option<Notice>
    ensures { result ≡ noticed_by fate.now engine.now.notice }
{
    match fate {
        Fate::Said(_) => engine.notice(),
        _ => None,
    }
}

/// Who is told why what a session asks for is not done: the session, under what the engine is under.
fn listener_of<'a, B: Base>(
    alloc: Global,
    engine: &'a Engine<B>,
    policy: &'a Policy,
    schemes: &'a Schemes,
    session: &'a ShellSession,
) -> Listener<'a>
    requires policy { (site engine.now).policy ≡ policy.now }
    requires schemes { (site engine.now).schemes ≡ schemes.now }
    ensures site { site_of result.policy.now result.schemes.now result.stored.now ≡ site engine.now }
    ensures session { result.session.now ≡ session.now }
{
    Listener {
        alloc,
        policy,
        schemes,
        stored: engine.stored(),
        session,
    }
}

/// Whether no line is read behind it.
pub(crate) fn is_last(fate: &Fate) -> bool
    ensures { result ≡ is_last fate.now }
{
    match fate {
        Fate::Over | Fate::Unreadable | Fate::Lost(_) => true,
        _ => false,
    }
}

/// Ends a shell that is not given up: tells how many lines are done, and says whether all are.
fn finish<E: Write>(
    err: &mut Errors<E>,
    session: &ShellSession,
    was_opened: bool,
    tally: &Tally,
) -> Ending
    ensures told { IsTold E.contents err.old err.new (end_told session.now tally.now) }
    ensures is { result ≡ ending_if (not was_opened || is_short tally.now) }
{
    tell_end(err, session, tally);
    ending_if(!was_opened || is_short(tally))
}

/// Opens the session, and answers each line before it reads the next, as long as the session is open and there are
/// lines. What is
/// refused is explained where somebody reads that.
fn converse<X: Explains, B: Base, L: TypedLines, W: Write, E: Write>(
    alloc: Global,
    engine: &mut Engine<B>,
    policy: &Policy,
    schemes: &Schemes,
    session: &ShellSession,
    first: &[Event],
    lines: &mut L,
    out: &mut W,
    err: &mut Errors<E>,
) -> Result<Ending, RunFault>
    requires ready { IsEngineReady B.seen engine.old }
    requires policy { (site engine.old).policy ≡ policy.now }
    requires schemes { (site engine.old).schemes ≡ schemes.now }
    requires first { first.now ≡ opening session.now ∷ [] }
    requires fits { EventsFit (site engine.old) (opening session.now ∷ []) }
    requires level { session.now.level < length policy.now.labels }
    ensures continues { Continues B.seen engine.old engine.new result }
    ensures access { AreLinesPermitted B.seen (site engine.old) L.echo (IsShellFate policy.now schemes.now session.now)
        (L.remaining lines.old) (L.remaining lines.new) engine.old.base engine.new.base }
    ensures conversation { (B.seen engine.new.base).is_clean → IsConversation X.explaining L.echo (site engine.old)
        session.now (L.remaining lines.old) (L.remaining lines.new) (W.contents out.old) (W.contents out.new)
        (L.breaks lines.new)
        (IsTold E.contents err.old err.new) result (world_of B.seen engine.old) (world_of B.seen engine.new) }
{
    answer(engine, session, 0, first, out)?;
    let to = listener_of(alloc, engine, policy, schemes, session);
    let greeting = X::greeting(&to, first, engine.notice());
    tell_more(err, session, greeting);
    let was_opened = engine.is_open(session.level, session.user.as_str());
    let mut tally = NO_LINES;
    for before in 0..usize::MAX {
        if !engine.is_open(session.level, session.user.as_str()) {
            return Ok(finish(err, session, was_opened, &tally));
        }
        ask(err, session);
        let mut heard = Vec::new(alloc);
        let fate = next_fate(alloc, policy, schemes, session, lines, out, &mut heard);
        tell_fate(err, session, before + 1, &fate);
        follow(engine, session, before + 1, &fate, out)?;
        let notice = noticed(engine, &fate);
        let to = listener_of(alloc, engine, policy, schemes, session);
        let words = X::words(&to, &heard, &fate, notice);
        tell_more(err, session, words);
        tally = tally_with(tally, &fate, notice);
        if is_last(&fate) {
            return Ok(finish(err, session, was_opened, &tally));
        }
    }
    Err(RunFault {
        event: usize::MAX,
        cause: RunCause::Memory,
        done: false,
    })
}

/// A shell over a base, which is given back: the opening, and then line by line the events that each tells. A line that
/// tells none is
/// refused on standard error, and nothing of it is done.
///
/// What is written is what a run writes of these events for the level of the session alone, and each answer stands
/// before the next line
/// is read: a host that shows each line among what is written shows it right before its answer.
pub(crate) fn shell_over_base<X: Explains, B: Base, L: TypedLines, W: Write, E: Write>(
    alloc: Global,
    policy: &Policy,
    schemes: &Schemes,
    stored: Items<Stored>,
    base: B,
    session: &ShellSession,
    first: &[Event],
    lines: &mut L,
    out: &mut W,
    err: &mut Errors<E>,
) -> (Result<Ending, RunFault>, B)
    requires may { MayTalk (site_of policy.now schemes.now stored) session.now first.now }
    requires rest { IsAtRest B.seen policy.now schemes.now base }
    ensures leaves { Leaves B.seen base result.1 result.0 }
    // No line reads up, and none writes down. To open the session reads and changes nothing.
    ensures access { AreLinesPermitted B.seen (site_of policy.now schemes.now stored) L.echo
        (IsShellFate policy.now schemes.now session.now) (L.remaining lines.old) (L.remaining lines.new) base result.1 }
    ensures shell { (B.seen result.1).is_clean → IsShell X.explaining L.echo (site_of policy.now schemes.now stored)
        session.now (L.remaining lines.old) (L.remaining lines.new) (L.breaks lines.new)
        (IsAppended W.contents out.old out.new)
        (IsTold E.contents err.old err.new) result.0 (B.seen base).state.now (B.seen result.1).state.now }
{
    let mut engine = Engine::new(alloc, base, policy, schemes, stored);
    let outcome = converse::<X, B, L, W, E>(
        alloc,
        &mut engine,
        policy,
        schemes,
        session,
        first,
        lines,
        out,
        err,
    );
    (outcome, engine.finish())
}
