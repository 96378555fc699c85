//! Runs over a base.
ghost use Rattle.std.specs.Prelude.{◌≡◌, false, [], IfSome};
ghost use Rattle.mls_lattice.specs.Policy.{labels_of};
ghost use Rattle.mls_filterview.specs.Stored.{AreContent};
ghost use Rattle.mls_audit.specs.Sound.{IsSoundContent};
ghost use Rattle.mls_translang.specs.Fits.{IsReadUnder};
ghost use Rattle.mls_certcheck.specs.MeaningLaws.{ArgsFit};
ghost use Rattle.mls_certcheck.specs.Site.{AreRead, site_of};
ghost use Rattle.mls_sessions.specs.Engine.{IsAtRest};
ghost use Rattle.mls_runs.specs.History.{IsPrepared};

use crate::labels::labels_over;
use crate::site::Site;
use case_tables::Narrow;
use mls_certcheck::{Certified, Stored};
use mls_filterview::{Base, BaseFault, abandon};
use mls_host::stored_from;
use mls_machine::{Audience, Form};
use mls_runs::{Run, run_over_base};
use mls_script::script;
use mls_sessions::{RunCause, RunFault, turn};
use mls_trusted::evaluate;
use std::alloc::Global;

/// What is done over a base.
#[derive(Clone, Copy)]
pub enum Task<'a> {
    /// A script is run.
    Run(&'a str),
    /// The first of the stored transactions is evaluated alone.
    Evaluate,
    /// The audit list is turned.
    Turn,
    /// What each label holds of each relation is written.
    Labels,
}

/// How that ends.
#[derive(Clone, Copy)]
pub enum End {
    /// All is done.
    Whole,
    /// The event of this number, from 1, is not answered, or not whole.
    Stopped(RunFault),
    /// The work is not begun.
    Failed,
}

fn end_of(outcome: Result<(), RunFault>) -> End {
    match outcome {
        Ok(()) => End::Whole,
        Err(fault) => End::Stopped(fault),
    }
}

/// The cause that a fault of a base is, where it is that of a call.
fn cause_of(fault: BaseFault) -> Option<RunCause> {
    match fault {
        BaseFault::Store => Some(RunCause::Store),
        BaseFault::Memory => Some(RunCause::Memory),
        BaseFault::NotBegun | BaseFault::Begun => None,
    }
}

/// How calls of a base end that a fault of it stops.
pub fn stop_of(fault: BaseFault) -> End {
    match cause_of(fault) {
        Some(cause) => End::Stopped(RunFault {
            event: 1,
            cause,
            done: false,
        }),
        None => End::Failed,
    }
}

/// The run of a script, with what is stored.
pub fn run_of(alloc: Global, site: &Site<'_>, text: &str) -> Option<Run>
    ensures { IfSome result (IsPrepared site.now.policy site.now.file.schemes) }
{
    let policy = &site.policy;
    let schemes = &site.file.schemes;
    let transactions = site.transactions.as_bytes();
    let certificates = site.certificates.as_bytes();
    let Ok(stored) = stored_from(alloc, policy, schemes, transactions, certificates) else {
        return None;
    };
    let Ok(events) = script(alloc, policy, schemes, text.as_bytes()) else {
        return None;
    };
    Some(Run { stored, events })
}

/// Answers the events of a run over a base.
fn run_over<B: Base>(
    alloc: Global,
    site: &Site<'_>,
    run: Run,
    base: B,
    out: &mut Narrow,
) -> (End, B)
    requires prepared { IsPrepared site.now.policy site.now.file.schemes run }
    requires rest { IsAtRest B.seen site.now.policy site.now.file.schemes base }
    ensures { (B.seen result.1).state.begun ≡ false }
{
    let Run { stored, events } = run;
    let policy = &site.policy;
    let schemes = &site.file.schemes;
    let everyone = Audience {
        reader: None,
        form: Form::Lines,
    };
    let (outcome, left) = run_over_base(
        alloc, policy, schemes, stored, base, &events, everyone, out,
    );
    (end_of(outcome), left)
}

/// Evaluates a transaction that takes no arguments.
fn evaluate_alone<B: Base>(
    alloc: Global,
    site: &Site<'_>,
    certified: &Certified,
    base: &mut B,
) -> End
    requires read { IsReadUnder site.now.policy site.now.file.schemes certified.now.tx }
    requires args { ArgsFit certified.now.tx [] }
    requires content { (B.seen base.old).is_clean → AreContent (labels_of site.now.policy) site.now.file.schemes
        (B.seen base.old).state.now.db }
{
    let (policy, schemes) = (&site.policy, &site.file.schemes);
    match evaluate(alloc, base, policy, schemes, certified, &[]) {
        Ok(_) => End::Whole,
        Err(fault) => stop_of(fault),
    }
}

/// Evaluates the first of these transactions, which takes no arguments.
fn evaluate_first<B: Base>(alloc: Global, site: &Site<'_>, stored: &[Stored], base: &mut B) -> End
    requires read { AreRead (site_of site.now.policy site.now.file.schemes stored.now) }
    requires content { (B.seen base.old).is_clean → AreContent (labels_of site.now.policy) site.now.file.schemes
        (B.seen base.old).state.now.db }
{
    let [Stored::Certified(certified), ..] = stored else {
        return End::Failed;
    };
    if !certified.tx().params().is_empty() {
        return End::Failed;
    }
    evaluate_alone(alloc, site, certified, base)
}

/// Evaluates the first transaction that a run stores over a base.
fn evaluate_over<B: Base>(alloc: Global, site: &Site<'_>, run: &Run, base: B) -> (End, B)
    requires prepared { IsPrepared site.now.policy site.now.file.schemes run.now }
    requires sound { (B.seen base).is_clean → IsSoundContent site.now.policy site.now.file.schemes
        (B.seen base).state.now }
    ensures { (B.seen result.1).state.begun ≡ false }
{
    let mut base = base;
    let end = evaluate_first(alloc, site, &run.stored, &mut base);
    abandon(&mut base);
    (end, base)
}

/// Turns the audit list over a base.
fn turn_over<B: Base>(alloc: Global, site: &Site<'_>, base: B, out: &mut Narrow) -> (End, B)
    requires idle { (B.seen base).state.begun ≡ false }
    ensures { (B.seen result.1).state.begun ≡ false }
{
    let mut base = base;
    let end = match turn(alloc, &site.policy, &mut base, None, out) {
        Ok(()) => End::Whole,
        Err(fault) => End::Stopped(RunFault { event: 1, ..fault }),
    };
    (end, base)
}

/// Runs a script over a base.
fn run_script<B: Base>(
    alloc: Global,
    site: &Site<'_>,
    text: &str,
    base: B,
    out: &mut Narrow,
) -> (End, B)
    requires { IsAtRest B.seen site.now.policy site.now.file.schemes base }
    ensures { (B.seen result.1).state.begun ≡ false }
{
    match run_of(alloc, site, text) {
        Some(run) => run_over(alloc, site, run, base, out),
        None => (End::Failed, base),
    }
}

/// Evaluates the first of the stored transactions over a base.
fn evaluate_stored<B: Base>(alloc: Global, site: &Site<'_>, base: B) -> (End, B)
    requires { IsAtRest B.seen site.now.policy site.now.file.schemes base }
    ensures { (B.seen result.1).state.begun ≡ false }
{
    match run_of(alloc, site, "") {
        Some(run) => evaluate_over(alloc, site, &run, base),
        None => (End::Failed, base),
    }
}

/// Does a task over a base.
pub fn do_task<B: Base>(
    alloc: Global,
    site: &Site<'_>,
    task: Task<'_>,
    base: B,
    out: &mut Narrow,
) -> (End, B)
    requires { IsAtRest B.seen site.now.policy site.now.file.schemes base }
    ensures { (B.seen result.1).state.begun ≡ false }
{
    match task {
        Task::Run(text) => run_script(alloc, site, text, base, out),
        Task::Evaluate => evaluate_stored(alloc, site, base),
        Task::Turn => turn_over(alloc, site, base, out),
        Task::Labels => labels_over(alloc, site, base, out),
    }
}
