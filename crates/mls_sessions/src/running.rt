//! Runs: events answered in order, and their replies written, whole or what one reader may see of them.
ghost use Rattle.std.specs.Prelude.{◌≡◌, ◌≢◌, ℕ, ◌<◌, true, length, take, IfOk, IfErr, OnOk};
ghost use Rattle.std.specs.Prelude.{IfSome};
ghost use Rattle.mls_translang.specs.Event.{EventFits};
ghost use Rattle.mls_machine.specs.Machine.{step};
ghost use Rattle.mls_machine.specs.Printable.{ReplyIsKnown};
ghost use Rattle.mls_machine.specs.Observation.{EventsFit, PassesOnlyReleasesDown};
ghost use Rattle.mls_machine.specs.Showing.{reply_shows, everyone};
ghost use Rattle.mls_machine.specs.Laws.{KeepsIntegrity};
ghost use Rattle.mls_sessions.specs.Sessions.{site_of_run};
ghost use Rattle.mls_machine.specs.Known.{HasKnownNumbers};
ghost use Rattle.mls_sessions.specs.Access.{IsPermitted, ArePermitted};
ghost use Rattle.mls_sessions.specs.Engine.{site, world_of, IsEngineReady, Continues};
ghost use Rattle.mls_sessions.specs.Run.{
  notice_of,
  last_of,
  notice_in,
  IsWhole,
  IsStopped,
  IsFaultOf,
  IsEventAnswered,
  IsHalted,
};

use crate::cause::{cause_of, fault_at};
use crate::engine::Engine;
use crate::notice::next_notice;
use crate::site::Site;
use crate::writing::write_whole;
use mls_filterview::Base;
use mls_machine::{Audience, Form, Reply, is_known, shown_to};
use mls_translang::{Event, RunCause, RunFault};
use std::io::Write;

/// The lines of the reply to an event that the audience is shown. `Store` is the cause where a class is not declared,
/// as
/// may be over a store that gives other content than was written.
fn text_of(
    site: &Site,
    event: &Event,
    reply: &Reply,
    audience: &Audience,
) -> Result<Vec<u8>, RunCause>
    requires fits { EventFits site.now.policy.now site.now.schemes.now event.now }
    requires known { HasKnownNumbers site.now.policy.now reply.now }
    requires reader { IfSome audience.now.reader (λ c. c < length site.now.policy.now.labels) }
    ensures done { IfOk result (λ v. v.items ≡ reply_shows (site_of_run site.now) audience.now event.now reply.now) }
    ensures failed { ReplyIsKnown site.now.policy.now reply.now → IfErr result (λ c. c ≡ RunCause.Memory) }
    ensures write { IfErr result (λ c. c ≢ RunCause.Write) }
{
    if !is_known(site.policy, reply) {
        return Err(RunCause::Store);
    }
    match shown_to(
        site.alloc,
        site.policy,
        site.schemes,
        event,
        reply,
        *audience,
    ) {
        Ok(bytes) => Ok(bytes),
        Err(_) => Err(RunCause::Memory),
    }
}

/// Answers one event, which has a number, notes why it was not done, and writes the lines of the reply that the
/// audience is
/// shown. Where there are none, nothing is asked of the writer.
fn answer<B: Base, W: Write>(
    engine: &mut Engine<B>,
    number: usize,
    event: &Event,
    audience: &Audience,
    out: &mut W,
) -> Result<(), RunFault>
    requires ready { IsEngineReady B.seen engine.old }
    requires fits { EventFits (site engine.old).policy (site engine.old).schemes event.now }
    requires reader { IfSome audience.now.reader (λ c. c < length (site engine.old).policy.labels) }
    ensures continues { Continues B.seen engine.old engine.new result }
    ensures access { IsPermitted B.seen (site engine.old) event.now engine.old.base engine.new.base }
    ensures done { (B.seen engine.new.base).is_clean → OnOk result (IsEventAnswered (site engine.old) audience.now
        (world_of B.seen engine.old) event.now
        (W.contents out.old) (W.contents out.new) (world_of B.seen engine.new)) }
    ensures stopped { (B.seen engine.new.base).is_clean → IfErr result
        (λ f. IsHalted (site engine.old) audience.now (world_of B.seen engine.old) event.now
        (W.contents out.old) (W.contents out.new) (world_of B.seen engine.new) f.cause f.done) }
    ensures fault { IfErr result (λ f. (f.event ≡ number) × (f.cause ≡ RunCause.Write → f.done ≡ true)) }
    ensures noticed { (B.seen engine.new.base).is_clean → OnOk result (engine.new.notice ≡ last_of (notice_of
        (step (site engine.old) (world_of B.seen engine.old) event.now).reply) engine.old.notice) }
{
    let earlier = engine.notice;
    let reply = match engine.step(event) {
        Ok(reply) => reply,
        Err(fault) => return Err(fault_at(number, cause_of(fault), false)),
    };
    engine.notice = next_notice(earlier, &reply);
    let bytes = match text_of(&engine.site, event, &reply, audience) {
        Ok(bytes) => bytes,
        Err(cause) => return Err(fault_at(number, cause, true)),
    };
    match write_whole(out, &bytes) {
        Ok(()) => Ok(()),
        Err(_) => Err(fault_at(number, RunCause::Write, true)),
    }
}

/// Answers events in order, and writes of the reply of each, before the next begins, what the audience is shown: the
/// lines
/// whose labels its reader dominates, or all lines where it has none, in its form.
///
/// The first event that fails stops it: `Store` where the store fails, `Memory` where a growth is refused, `Write`
/// where
/// the writer refuses. That it stopped, and where, is not decided by what the reader sees.
///
/// What a level is shown passes nothing down to it but what calls release: the lines whose labels it dominates are the
/// same, in each form, for any second world that looks alike to it and any second list of events of which it sees the
/// same, and so is what it
/// sees of the end, where the runs release the same to it, or where it dominates all that the calls that it sees can
/// read.
pub fn run_to<B: Base, W: Write>(
    engine: &mut Engine<B>,
    events: &[Event],
    audience: Audience,
    out: &mut W,
) -> Result<(), RunFault>
    requires ready { IsEngineReady B.seen engine.old }
    requires fits { EventsFit (site engine.old) events.now }
    requires reader { IfSome audience.reader (λ c. c < length (site engine.old).policy.labels) }
    ensures continues { Continues B.seen engine.old engine.new result }
    // No event reads up, and none writes down.
    ensures access { ArePermitted B.seen (site engine.old) events.now engine.old.base engine.new.base }
    ensures ok { (B.seen engine.new.base).is_clean → OnOk result (IsWhole (site engine.old) audience
        (world_of B.seen engine.old) events.now
        (W.contents out.old) (W.contents out.new) (world_of B.seen engine.new)) }
    ensures err { (B.seen engine.new.base).is_clean → IfErr result (IsStopped (site engine.old) audience
        (world_of B.seen engine.old) events.now
        (W.contents out.old) (W.contents out.new) (world_of B.seen engine.new)) }
    ensures fault { IfErr result (IsFaultOf events.now) }
    // Each database on the way has the four integrity properties.
    ensures integrity { (B.seen engine.new.base).is_clean → KeepsIntegrity (site engine.old)
        (world_of B.seen engine.old) events.now }
    // No information flows down but what is released: over all events, and over the first n of them.
    ensures secret { (B.seen engine.new.base).is_clean → (n : ℕ) → PassesOnlyReleasesDown (site engine.old)
        (world_of B.seen engine.old) (take n events.now) }
    // What is noticed afterwards is why the last of them that was not done was not.
    ensures noticed { (B.seen engine.new.base).is_clean → OnOk result (engine.new.notice
        ≡ notice_in (site engine.old) (world_of B.seen engine.old) events.now) }
{
    engine.notice = None;
    let audience = &audience;
    for (place, event) in events.iter().enumerate() {
        answer(engine, place + 1, event, audience, out)?;
    }
    Ok(())
}

/// Answers events in order, and writes the lines of the reply of each before the next begins: [`run_to`] for no one
/// reader.
pub fn run<B: Base, W: Write>(
    engine: &mut Engine<B>,
    events: &[Event],
    out: &mut W,
) -> Result<(), RunFault>
    requires ready { IsEngineReady B.seen engine.old }
    requires fits { EventsFit (site engine.old) events.now }
    ensures continues { Continues B.seen engine.old engine.new result }
    ensures access { ArePermitted B.seen (site engine.old) events.now engine.old.base engine.new.base }
    ensures ok { (B.seen engine.new.base).is_clean → OnOk result (IsWhole (site engine.old) everyone
        (world_of B.seen engine.old) events.now
        (W.contents out.old) (W.contents out.new) (world_of B.seen engine.new)) }
    ensures err { (B.seen engine.new.base).is_clean → IfErr result (IsStopped (site engine.old) everyone
        (world_of B.seen engine.old) events.now
        (W.contents out.old) (W.contents out.new) (world_of B.seen engine.new)) }
    ensures fault { IfErr result (IsFaultOf events.now) }
    ensures integrity { (B.seen engine.new.base).is_clean → KeepsIntegrity (site engine.old)
        (world_of B.seen engine.old) events.now }
    ensures secret { (B.seen engine.new.base).is_clean → (n : ℕ) → PassesOnlyReleasesDown (site engine.old)
        (world_of B.seen engine.old) (take n events.now) }
{
    let everyone = Audience {
        reader: None,
        form: Form::Lines,
    };
    run_to(engine, events, everyone, out)
}
