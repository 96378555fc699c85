//! The outcomes of a script, where one call after another fails.
ghost use Rattle.std.specs.List.{AllByRecursion};
ghost use Rattle.mls_translang.specs.Event.{EventFits};

use super::runs::{Failure, Scripts, What, push_outcome};
use super::steps::push_steps;
use crate::sample::Sample;
use case_tables::Told;
use mls_script::script;
use std::alloc::Global;

/// How the events of a script are answered.
#[derive(Clone, Copy)]
pub enum Way {
    /// By a run.
    Run,
    /// Each by a step of its own.
    Steps,
}

/// Adds an outcome where it differs from the last one.
fn push_new(last: &Told, next: &Told, out: &mut Told) {
    if next.text.as_str() != last.text.as_str() {
        out.push(&next.text);
    }
    if !next.is_whole {
        out.fail();
    }
}

/// The most calls after which one fails.
const MOST: u64 = 200;

/// Tells the outcomes of a script where a call fails after none, one, two and so on, up to the one in which all is
/// well. Of outcomes
/// that follow each other and are equal one is told.
fn tell_outcomes(
    alloc: Global,
    sample: &Sample<'_>,
    scripts: Scripts<'_>,
    way: Way,
    what: What,
    out: &mut Told,
)
    requires events { AllByRecursion (EventFits sample.now.policy.now sample.now.schemes.now) scripts.events.now }
    requires questions { AllByRecursion (EventFits sample.now.policy.now sample.now.schemes.now) scripts.questions.now }
{
    let mut last = Told::new(alloc);
    for after in 0..MOST {
        let mut next = Told::new(alloc);
        let failure = Failure { what, after };
        let is_well = match way {
            Way::Run => push_outcome(alloc, sample, scripts, failure, &mut next),
            Way::Steps => push_steps(alloc, sample, scripts, failure, &mut next),
        };
        push_new(&last, &next, out);
        if is_well {
            return;
        }
        last = next;
    }
}

fn tell_trials(
    alloc: Global,
    sample: &Sample<'_>,
    trials: &[(Way, What)],
    scripts: Scripts<'_>,
    out: &mut Told,
)
    requires events { AllByRecursion (EventFits sample.now.policy.now sample.now.schemes.now) scripts.events.now }
    requires questions { AllByRecursion (EventFits sample.now.policy.now sample.now.schemes.now) scripts.questions.now }
{
    for &(way, what) in trials {
        tell_outcomes(alloc, sample, scripts, way, what, out);
    }
}

/// Tells the script of a file: the events are its own.
pub fn tell_script(
    alloc: Global,
    sample: &Sample<'_>,
    trials: &[(Way, What)],
    text: &str,
    scripts: Scripts<'_>,
    out: &mut Told,
)
    requires questions { AllByRecursion (EventFits sample.now.policy.now sample.now.schemes.now) scripts.questions.now }
{
    match script(alloc, sample.policy, sample.schemes, text.as_bytes()) {
        Ok(events) => {
            let scripts = Scripts {
                events: &events,
                ..scripts
            };
            tell_trials(alloc, sample, trials, scripts, out);
        }
        Err(_) => out.push("no script\n"),
    }
}
