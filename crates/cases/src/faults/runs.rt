//! What a run leaves where a call of the base, or a write, fails.
ghost use Rattle.std.specs.Prelude.{◌≡◌, false, []};
ghost use Rattle.std.specs.List.{AllByRecursion};
ghost use Rattle.mls_translang.specs.Event.{EventFits};
ghost use Rattle.mls_filterview.specs.Content.{no_content};
ghost use Rattle.mls_audit.specs.Sound.{IsSoundContent};
ghost use Rattle.mls_certcheck.specs.Site.{site_of};
ghost use Rattle.mls_sessions.specs.Engine.{MayServe, IsAtRest};

use super::faulty::{Fault, Faulty};
use super::stored::stored_in;
use crate::sample::Sample;
use case_tables::{Narrow, Told, text_of};
use mls_filterview::Base;
use mls_lattice::Items;
use mls_sessions::{Engine, RunFault, Stored, run};
use mls_translang::Event;
use mls_updates::ListBase;
use std::alloc::Global;

/// What fails: a call of the base by its store or for want of memory, each call that reads a fragment, or a write of a
/// whole reply or of a
/// few bytes; after so many that don't.
#[derive(Clone, Copy)]
pub struct Failure {
    pub what: What,
    pub after: u64,
}

/// The bytes of a write, where a reply takes several.
const PIECE: usize = 22;

/// What a failure is one of.
#[derive(Clone, Copy)]
pub enum What {
    Store,
    Memory,
    Fragments,
    Write,
    Piece,
}

impl Failure {
    /// The calls of a base that fail.
    fn fault(self) -> Fault {
        let (after, most) = match self.what {
            What::Store | What::Memory => (self.after, 1),
            What::Fragments => (self.after, u64::MAX),
            What::Write | What::Piece => (0, 0),
        };
        Fault {
            after,
            most,
            of_fragments: matches!(self.what, What::Fragments),
            is_memory: matches!(self.what, What::Memory),
        }
    }

    /// An empty base of which calls fail, or none where a write does.
    pub fn base(self, alloc: Global) -> Faulty<ListBase>
        ensures { (⟦<ListBase as Base>⟧.seen result.base).state
            ≡ record { now = no_content; kept = no_content; begun = false } }
    {
        Faulty::new(ListBase::new(alloc), self.fault())
    }

    fn writer(self, alloc: Global) -> Narrow {
        match self.what {
            What::Write => Narrow::new(alloc, self.after, usize::MAX),
            What::Piece => Narrow::new(alloc, self.after, PIECE),
            _ => Narrow::wide(alloc),
        }
    }
}

/// Two scripts, the events whose run fails and those that ask afterwards what the base holds, and the transactions that
/// they call.
#[derive(Clone, Copy)]
pub struct Scripts<'a> {
    pub events: &'a [Event],
    pub questions: &'a [Event],
    pub transactions: &'a str,
}

/// No stored transactions.
fn none_stored(alloc: Global) -> Items<Stored>
    ensures { result ≡ [] }
{
    Items::from(Vec::new(alloc))
}

/// Runs events over a base.
fn run_over<B: Base>(
    alloc: Global,
    sample: &Sample<'_>,
    stored: Items<Stored>,
    base: B,
    events: &[Event],
    out: &mut Narrow,
) -> (Result<(), RunFault>, B)
    requires serves { MayServe (site_of sample.now.policy.now sample.now.schemes.now stored) }
    requires fits { AllByRecursion (EventFits sample.now.policy.now sample.now.schemes.now) events.now }
    requires rest { IsAtRest B.seen sample.now.policy.now sample.now.schemes.now base }
    ensures { IsAtRest B.seen sample.now.policy.now sample.now.schemes.now result.1 }
{
    let mut engine = Engine::new(alloc, base, sample.policy, sample.schemes, stored);
    let end = run(&mut engine, events, out);
    (end, engine.finish())
}

fn push_end(end: Result<(), RunFault>, out: &mut Told) {
    match end {
        Ok(()) => out.push("all well\n"),
        Err(fault) => {
            out.push(fault.cause.word());
            out.push(" at ");
            out.push_count(fault.event);
            out.push_line(if fault.done { ", done" } else { ", not done" });
        }
    }
}

/// Adds what a base answers to questions.
fn push_answers(
    alloc: Global,
    sample: &Sample<'_>,
    base: ListBase,
    questions: &[Event],
    out: &mut Told,
)
    requires fits { AllByRecursion (EventFits sample.now.policy.now sample.now.schemes.now) questions.now }
    requires idle { (⟦<ListBase as Base>⟧.seen base).state.begun ≡ false }
    requires sound { IsSoundContent sample.now.policy.now sample.now.schemes.now
        (⟦<ListBase as Base>⟧.seen base).state.now }
{
    let none = none_stored(alloc);
    let mut answers = Narrow::wide(alloc);
    let _ = run_over(alloc, sample, none, base, questions, &mut answers);
    out.push_indented(text_of(&answers.bytes));
}

/// Adds how the run of a script ends, the replies before its end, and what the base then holds; and answers whether all
/// was well.
pub fn push_outcome(
    alloc: Global,
    sample: &Sample<'_>,
    scripts: Scripts<'_>,
    failure: Failure,
    out: &mut Told,
) -> bool
    requires events { AllByRecursion (EventFits sample.now.policy.now sample.now.schemes.now) scripts.events.now }
    requires questions { AllByRecursion (EventFits sample.now.policy.now sample.now.schemes.now) scripts.questions.now }
{
    let Some(stored) = stored_in(alloc, sample, scripts.transactions) else {
        out.fail();
        return true;
    };
    let mut replies = failure.writer(alloc);
    let base = failure.base(alloc);
    let events = scripts.events;
    let (end, base) = run_over(alloc, sample, stored, base, events, &mut replies);
    push_end(end, out);
    out.push_indented(text_of(&replies.bytes));
    out.push("  --\n");
    push_answers(alloc, sample, base.finish(), scripts.questions, out);
    end.is_ok()
}
