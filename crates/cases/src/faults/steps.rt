//! What a step leaves where a call of the base fails.
ghost use Rattle.std.specs.Prelude.{◌<◌, ◌≤◌, length, IfSome};
ghost use Rattle.std.specs.List.{AllByRecursion};
ghost use Rattle.mls_translang.specs.Event.{EventFits};
ghost use Rattle.mls_machine.specs.Observation.{EventsFit};
ghost use Rattle.mls_certcheck.specs.Site.{site_of};
ghost use Rattle.mls_sessions.specs.Engine.{site, MayServe, IsAtRest, IsEngineReady, IsKept};

use super::runs::{Failure, Scripts};
use super::stored::stored_in;
use crate::sample::Sample;
use case_tables::{Narrow, Told, text_of};
use mls_filterview::{Base, BaseFault};
use mls_lattice::Items;
use mls_sessions::{Engine, Stored, run};
use mls_translang::Event;
use std::alloc::Global;

/// Answers events in order, up to the first that fails: its number, from 1, and why.
fn step_to_fault<B: Base>(engine: &mut Engine<B>, events: &[Event]) -> Option<(usize, BaseFault)>
    requires ready { IsEngineReady B.seen engine.old }
    requires fits { EventsFit (site engine.old) events.now }
    ensures kept { IsKept B.seen engine.old engine.new }
    ensures number { IfSome result (λ r. (0 < r.0) × (r.0 ≤ length events.now)) }
{
    for (place, event) in events.iter().enumerate() {
        if let Err(fault) = engine.step(event) {
            return Some((place + 1, fault));
        }
    }
    None
}

/// Steps through events over a base, up to the first that fails. The replies are to what is asked of the engine
/// afterwards: the questions,
/// and the events from the one that failed on.
fn step_over<B: Base>(
    alloc: Global,
    sample: &Sample<'_>,
    stored: Items<Stored>,
    base: B,
    scripts: Scripts<'_>,
    replies: &mut Narrow,
) -> (Option<(usize, BaseFault)>, B)
    requires serves { MayServe (site_of sample.now.policy.now sample.now.schemes.now stored) }
    requires events { AllByRecursion (EventFits sample.now.policy.now sample.now.schemes.now) scripts.events.now }
    requires questions { AllByRecursion (EventFits sample.now.policy.now sample.now.schemes.now) scripts.questions.now }
    requires rest { IsAtRest B.seen sample.now.policy.now sample.now.schemes.now base }
{
    let mut engine = Engine::new(alloc, base, sample.policy, sample.schemes, stored);
    let stop = step_to_fault(&mut engine, scripts.events);
    if let Some((number, _)) = stop {
        let _ = run(&mut engine, scripts.questions, replies);
        let _ = run(&mut engine, &scripts.events[number - 1..], replies);
    }
    (stop, engine.finish())
}

fn fault_word(fault: BaseFault) -> &'static str {
    match fault {
        BaseFault::Store => "Store",
        BaseFault::Memory => "Memory",
        BaseFault::NotBegun => "NotBegun",
        BaseFault::Begun => "Begun",
    }
}

fn push_stop(number: usize, fault: BaseFault, out: &mut Told) {
    out.push(fault_word(fault));
    out.push(" at step ");
    out.push_count(number);
    out.push("\n");
}

/// Adds which step of a script fails, and what the engine answers afterwards; and answers whether none failed.
pub fn push_steps(
    alloc: Global,
    sample: &Sample<'_>,
    scripts: Scripts<'_>,
    failure: Failure,
    out: &mut Told,
) -> bool
    requires events { AllByRecursion (EventFits sample.now.policy.now sample.now.schemes.now) scripts.events.now }
    requires questions { AllByRecursion (EventFits sample.now.policy.now sample.now.schemes.now) scripts.questions.now }
{
    let Some(stored) = stored_in(alloc, sample, scripts.transactions) else {
        out.fail();
        return true;
    };
    let mut replies = Narrow::wide(alloc);
    let base = failure.base(alloc);
    let (stop, _base) = step_over(alloc, sample, stored, base, scripts, &mut replies);
    match stop {
        Some((number, fault)) => push_stop(number, fault, out),
        None => out.push("all steps well\n"),
    }
    out.push_indented(text_of(&replies.bytes));
    stop.is_none()
}
