//! Histories: runs one after another over the files of one store, which are closed and opened between.
ghost use Rattle.std.specs.Prelude.{◌≡◌, ◌<◌, [], ◌∷◌, length, map, option_map, IfErr, OnOk, IfSome};
ghost use Rattle.std.specs.List.{AllByRecursion};
ghost use Rattle.mls_lattice.specs.Labels.{AreDistinct};
ghost use Rattle.mls_lattice.specs.Policy.{labels_of};
ghost use Rattle.mls_scheme.specs.Scheme.{AreUnder};
ghost use Rattle.mls_host.specs.Hosting.{IsAppended};
ghost use Rattle.mls_runs.specs.History.{run_of, cause_of, IsPrepared, AreRunsOver, IsBrokenOff, IsHistoryFault};

use crate::running::run_over_base;
use mls_fragments::{OpenFault, SqlBase};
use mls_lattice::{Items, Policy};
use mls_machine::Audience;
use mls_scheme::SchemesFile;
use mls_sessions::{RunFault, Stored};
use mls_translang::Event;
use sqlite::{FileStore, Files, Options};
use sqlite_disk::Disk;
use std::alloc::Global;
use std::io::Write;
use std::snapshot::Snapshot;

/// A run of a history: what it stores, and its events.
#[derive(Drop)]
pub struct Run {
    pub stored: Items<Stored>,
    pub events: Vec<Event>,
}

/// Why a history is broken off.
#[derive(Clone, Copy)]
pub enum HistoryCause {
    /// The store was not opened for the run.
    Unopened(OpenFault),
    /// The run stopped. Its store was closed.
    Stopped(RunFault),
    /// The run ended, or stopped, and its store was not closed.
    NotClosed,
}

/// Which run breaks a history off, from 1, and why.
#[derive(Clone, Copy)]
pub struct HistoryFault {
    pub run: usize,
    pub cause: HistoryCause,
}

/// Why a run that stopped breaks its history off.
fn ended(outcome: Result<(), RunFault>) -> Result<(), HistoryCause>
    ensures { result ≡ cause_of outcome }
{
    match outcome {
        Ok(()) => Ok(()),
        Err(fault) => Err(HistoryCause::Stopped(fault)),
    }
}

/// The audience, again.
fn same_audience(audience: &Audience) -> Audience
    ensures { result ≡ audience.now }
{
    *audience
}

/// Answers the events of a run over the store in files, which is opened and closed for it. For contracts alone comes
/// the base that was to be closed, where it was not.
fn run_over_files<D: Disk + Drop, W: Write>(
    alloc: Global,
    policy: &Policy,
    file: &SchemesFile,
    run: Run,
    files: Files<D>,
    options: Options,
    audience: &Audience,
    out: &mut W,
) -> (
    Result<(), HistoryCause>,
    Files<D>,
    Option<Snapshot<SqlBase<FileStore<D>>>>,
)
    requires under { AreUnder (length policy.now.labels) file.now.schemes }
    requires distinct { AreDistinct (labels_of policy.now) }
    requires prepared { IsPrepared policy.now file.now.schemes run }
    requires declared { IfSome audience.now.reader (λ c. c < length policy.now.labels) }
    ensures whole { OnOk result.0 (AreRunsOver D.Disk policy.now file.now audience.now files
        (run_of policy.now file.now.schemes run ∷ []) (IsAppended W.contents out.old out.new) result.1) }
    ensures broken { IfErr result.0 (IsBrokenOff D.Disk policy.now file.now audience.now files []
        (run_of policy.now file.now.schemes run) (IsAppended W.contents out.old out.new) result.1
        (option_map (λ s. s.value) result.2)) }
{
    let base = match SqlBase::open_files(alloc, files, options, policy, file) {
        Ok(base) => base,
        Err((fault, files)) => return (Err(HistoryCause::Unopened(fault)), files, None),
    };
    let Run { stored, events } = run;
    let schemes = &file.schemes;
    let audience = same_audience(audience);
    let (outcome, left) = run_over_base(
        alloc, policy, schemes, stored, base, &events, audience, out,
    );
    let unclosed = Snapshot::of(&left);
    match left.close_files() {
        Ok(files) => (ended(outcome), files, None),
        Err((_, files)) => (Err(HistoryCause::NotClosed), files, Some(unclosed)),
    }
}

/// Answers a history of runs over the store in files, which is opened and closed for each run, for an audience. A
/// fault breaks the history off. The files come back as they are then.
/// One policy and schemes serve all runs. Where a run stopped and its store was not closed either, the fault is
/// `NotClosed`: of the files it is known only what they may recover to. For contracts alone comes the base that was to
/// be closed then.
pub fn run_history<D: Disk + Drop, W: Write>(
    alloc: Global,
    policy: &Policy,
    file: &SchemesFile,
    runs: Vec<Run>,
    files: Files<D>,
    options: Options,
    audience: Audience,
    out: &mut W,
) -> (
    Result<(), HistoryFault>,
    Files<D>,
    Option<Snapshot<SqlBase<FileStore<D>>>>,
)
    requires under { AreUnder (length policy.now.labels) file.now.schemes }
    requires prepared { AllByRecursion (IsPrepared policy.now file.now.schemes) runs.items }
    requires declared { IfSome audience.reader (λ c. c < length policy.now.labels) }
    ensures whole { OnOk result.0 (AreRunsOver D.Disk policy.now file.now audience files
        (map (run_of policy.now file.now.schemes) runs.items) (IsAppended W.contents out.old out.new) result.1) }
    ensures broken { IfErr result.0 (IsHistoryFault D.Disk policy.now file.now audience files
        (map (run_of policy.now file.now.schemes) runs.items) (IsAppended W.contents out.old out.new) result.1
        (option_map (λ s. s.value) result.2)) }
{
    policy.use_invariant();
    let mut left = files;
    let mut number = 0;
    for run in runs {
        number += 1;
        let (outcome, files, unclosed) = run_over_files(
            alloc, policy, file, run, left, options, &audience, out,
        );
        left = files;
        if let Err(cause) = outcome {
            return (Err(HistoryFault { run: number, cause }), left, unclosed);
        }
    }
    (Ok(()), left, None)
}
