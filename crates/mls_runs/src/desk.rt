//! A desk: lines of many sessions, each answered before the next is read.
//! Blank lines and comments tell no events: no case of their own. A mark that tells a fault is made before any of it is
//! written. A read that fails is told as a refusal, since all that was answered stands; no mark is printed.
ghost use Rattle.std.specs.Prelude.{◌≡◌, ◌≤◌, false, [], length, OnOk};
ghost use Rattle.mls_machine.specs.Observation.{EventsFit};
ghost use Rattle.mls_sessions.specs.Access.{ArePermitted};
ghost use Rattle.mls_sessions.specs.Engine.{site, world_of, MayServe, IsAtRest, IsEngineReady, Continues, Leaves};
ghost use Rattle.mls_host.specs.Hosting.{IsAppended};
ghost use Rattle.mls_certcheck.specs.Site.{site_of};
ghost use Rattle.mls_runs.specs.Shell.{events_of, is_failed, is_lost};
ghost use Rattle.mls_runs.specs.Desk.{IsDeskFate, TellsOne, IsDeskFollowed, IsService, IsDesk};
ghost use Rattle.mls_runs.specs.Marks.{mark_of};
ghost use Rattle.mls_runs.specs.Access.{AreLinesPermitted};

use crate::marks::write_mark;
use crate::reading::next_fate;
use crate::shell::is_last;
use crate::shell_session::Fate;
use mls_filterview::Base;
use mls_host::{Ending, ending_if};
use mls_lattice::{Items, Policy};
use mls_machine::{Audience, Form};
use mls_scheme::Schemes;
use mls_sessions::{Engine, RunCause, RunFault, Stored, run_to};
use mls_tokens::TypedLines;
use mls_translang::Event;
use std::alloc::Global;
use std::io::Write;

/// Answers the event of a line, if there is one, for the level of its session alone.
fn answer<B: Base, W: Write>(
    engine: &mut Engine<B>,
    events: &[Event],
    out: &mut W,
) -> Result<(), RunFault>
    requires ready { IsEngineReady B.seen engine.old }
    requires fits { EventsFit (site engine.old) events.now }
    requires one { length events.now ≤ 1 }
    ensures continues { Continues B.seen engine.old engine.new result }
    ensures access { ArePermitted B.seen (site engine.old) events.now engine.old.base engine.new.base }
    ensures done { (B.seen engine.new.base).is_clean → IsDeskFollowed (site engine.old) (world_of B.seen engine.old)
        events.now [] (W.contents out.old) (W.contents out.new) (world_of B.seen engine.new) result }
{
    match events {
        [] => Ok(()),
        [event, ..] => {
            let audience = Audience {
                reader: Some(event.level),
                form: Form::Lines,
            };
            run_to(engine, events, audience, out)
        }
    }
}

/// Does what becomes of a line, without its mark. The number of a fault is no line's: it is 0, or that of an event
/// among those of the line.
fn perform<B: Base, W: Write>(
    engine: &mut Engine<B>,
    fate: &Fate,
    out: &mut W,
) -> Result<(), RunFault>
    requires ready { IsEngineReady B.seen engine.old }
    requires line { TellsOne (site engine.old).policy (site engine.old).schemes fate.now }
    ensures continues { Continues B.seen engine.old engine.new result }
    ensures access { ArePermitted B.seen (site engine.old) (events_of fate.now) engine.old.base engine.new.base }
    ensures done { (B.seen engine.new.base).is_clean → IsDeskFollowed (site engine.old) (world_of B.seen engine.old)
        (events_of fate.now) [] (W.contents out.old) (W.contents out.new) (world_of B.seen engine.new) result }
    ensures found { OnOk result (is_lost fate.now ≡ false) }
{
    match fate {
        Fate::Said(events) => answer(engine, events, out),
        Fate::Lost(cause) => Err(RunFault {
            event: 0,
            cause: *cause,
            done: false,
        }),
        _ => Ok(()),
    }
}

/// Does what becomes of a line, and writes its mark behind that.
fn follow<B: Base, W: Write>(
    alloc: Global,
    engine: &mut Engine<B>,
    fate: &Fate,
    out: &mut W,
) -> Result<(), RunFault>
    requires ready { IsEngineReady B.seen engine.old }
    requires line { TellsOne (site engine.old).policy (site engine.old).schemes fate.now }
    ensures continues { Continues B.seen engine.old engine.new result }
    ensures access { ArePermitted B.seen (site engine.old) (events_of fate.now) engine.old.base engine.new.base }
    ensures followed { (B.seen engine.new.base).is_clean → IsDeskFollowed (site engine.old)
        (world_of B.seen engine.old) (events_of fate.now) (mark_of fate.now)
        (W.contents out.old) (W.contents out.new) (world_of B.seen engine.new) result }
    ensures found { OnOk result (is_lost fate.now ≡ false) }
{
    perform(engine, fate, out)?;
    match write_mark(alloc, fate, out) {
        Ok(()) => Ok(()),
        Err(cause) => Err(RunFault {
            event: 0,
            cause,
            done: true,
        }),
    }
}

fn is_failed(fate: &Fate) -> bool
    ensures { result ≡ is_failed fate.now }
{
    match fate {
        Fate::Unreadable => true,
        _ => false,
    }
}

/// Answers each line before it reads the next, as long as there are lines.
fn serve<B: Base, L: TypedLines, W: Write>(
    alloc: Global,
    engine: &mut Engine<B>,
    policy: &Policy,
    schemes: &Schemes,
    lines: &mut L,
    out: &mut W,
) -> Result<Ending, RunFault>
    requires ready { IsEngineReady B.seen engine.old }
    requires policy { (site engine.old).policy ≡ policy.now }
    requires schemes { (site engine.old).schemes ≡ schemes.now }
    ensures continues { Continues B.seen engine.old engine.new result }
    ensures access { AreLinesPermitted B.seen (site engine.old) L.echo (IsDeskFate policy.now schemes.now)
        (L.remaining lines.old) (L.remaining lines.new) engine.old.base engine.new.base }
    ensures service { (B.seen engine.new.base).is_clean → IsService L.echo (site engine.old) (L.remaining lines.old)
        (L.remaining lines.new) (L.breaks lines.new) (IsAppended W.contents out.old out.new) result
        (world_of B.seen engine.old) (world_of B.seen engine.new) }
{
    for _ in 0..u64::MAX {
        let fate = next_fate(alloc, policy, schemes, lines, out);
        follow(alloc, engine, &fate, out)?;
        if is_last(&fate) {
            return Ok(ending_if(is_failed(&fate)));
        }
    }
    Err(RunFault {
        event: 0,
        cause: RunCause::Memory,
        done: false,
    })
}

/// A desk over a base, which is given back: line by line the events that each tells, as a script's line does, each
/// answered for the level
/// of its session alone, and behind each answer its mark. Of a line that tells none nothing is done.
///
/// Each answer stands before the next line is read: a host that shows each line among what is written shows it right
/// before its answer.
/// What sessions are answered whose levels a level dominates passes nothing down to that level but what is released.
pub(crate) fn desk_over_base<B: Base, L: TypedLines, W: Write>(
    alloc: Global,
    policy: &Policy,
    schemes: &Schemes,
    stored: Items<Stored>,
    base: B,
    lines: &mut L,
    out: &mut W,
) -> (Result<Ending, RunFault>, B)
    requires may { MayServe (site_of policy.now schemes.now stored) }
    requires rest { IsAtRest B.seen policy.now schemes.now base }
    ensures leaves { Leaves B.seen base result.1 result.0 }
    // No line reads up, and none writes down.
    ensures access { AreLinesPermitted B.seen (site_of policy.now schemes.now stored) L.echo
        (IsDeskFate policy.now schemes.now) (L.remaining lines.old) (L.remaining lines.new) base result.1 }
    ensures desk { (B.seen result.1).is_clean → IsDesk L.echo (site_of policy.now schemes.now stored)
        (L.remaining lines.old)
        (L.remaining lines.new) (L.breaks lines.new) (IsAppended W.contents out.old out.new) result.0
        (B.seen base).state.now (B.seen result.1).state.now }
{
    let mut engine = Engine::new(alloc, base, policy, schemes, stored);
    let outcome = serve(alloc, &mut engine, policy, schemes, lines, out);
    (outcome, engine.finish())
}
