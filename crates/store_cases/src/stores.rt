//! Work over stores, from the bytes of their files to the bytes of their files.
ghost use Rattle.std.specs.Prelude.{◌≡◌, ◌<◌, false, length, IfOk};
ghost use Rattle.std.specs.List.{AllByRecursion};
ghost use Rattle.mls_audit.specs.Sound.{IsSoundContent};
ghost use Rattle.mls_fragments.specs.Based.{state_of};
ghost use Rattle.mls_runs.specs.History.{IsPrepared};

use crate::disks::{Calls, Copies, Medium};
use crate::runs::{End, Task, do_task};
use crate::site::Site;
use case_tables::{Narrow, Told};
use mls_fragments::{OpenFault, SqlBase, connected, let_go};
use mls_lattice::LabelNo;
use mls_machine::{Audience, Form};
use mls_runs::{HistoryFault, Run, run_history};
use sqlite::{Alter, Connection, Error, ErrorCode, FileStore, Files, Options};
use sqlite_disk::{Fuse, Memory};
use std::alloc::Global;

/// Room for the few pages of these stores, since each opening makes all of it; and the log is copied into the database
/// file soon.
fn options() -> Options {
    Options {
        cache_pages: 8,
        spill_pages: 8,
        checkpoint_frames: 3,
        seed: 7,
    }
}

/// What is done over a store.
#[derive(Clone, Copy)]
pub enum Work<'a> {
    /// Statements are executed.
    Execute(&'a str),
    /// A task is done over a base under a site.
    Do(&'a Site<'a>, Task<'a>),
}

/// Work over a store, what of it stops, and whether the store is closed where the work ends well: else its
/// files are left as they are. It is data, so that one function alone works over the type of a store.
#[derive(Clone, Copy)]
pub struct Job<'a> {
    pub work: Work<'a>,
    pub calls: Calls,
    pub closes: bool,
}

impl<'a> Job<'a> {
    /// Nothing stops, and the store is closed.
    pub fn closed(work: Work<'a>) -> Job<'a> {
        Job {
            work,
            calls: Calls::ALL,
            closes: true,
        }
    }

    /// Nothing stops, and the files are left as they are.
    pub fn left(work: Work<'a>) -> Job<'a> {
        Job {
            work,
            calls: Calls::ALL,
            closes: false,
        }
    }
}

/// How work over a store ends.
#[derive(Clone, Copy)]
pub enum Outcome {
    /// The files are not opened.
    Unopened(OpenFault),
    /// The store is refused.
    Refused(OpenFault),
    /// The work is done so far.
    Ended(End),
    /// The work is done, and the store is not closed.
    Unclosed(OpenFault),
}

/// What an error of the store's files is.
fn fault_of(error: Error) -> OpenFault {
    match error {
        Error::SqliteFailure(ErrorCode::OutOfMemory) => OpenFault::Memory,
        _ => OpenFault::Store,
    }
}

impl Outcome {
    /// Whether all went well.
    pub fn is_whole(self) -> bool {
        matches!(self, Outcome::Ended(End::Whole))
    }

    /// Adds how it ends.
    pub fn tell(self, out: &mut Told) {
        match self {
            Outcome::Unopened(_) => out.push("not opened"),
            Outcome::Refused(fault) => {
                out.push_count(usize::from(fault.code()));
                out.push(" ");
                out.push(fault.word());
            }
            Outcome::Ended(End::Whole) => out.push("all well"),
            Outcome::Ended(End::Stopped(_)) => out.push("stopped"),
            Outcome::Ended(End::Failed) => out.push("failed"),
            Outcome::Unclosed(_) => out.push("not closed"),
        }
    }
}

/// How work ended, what it replied, and the bytes of the files then: those that were written, and those that were
/// synced.
#[derive(Drop)]
pub struct Done {
    pub outcome: Outcome,
    pub replies: Vec<u8>,
    pub written: Copies,
    pub synced: Copies,
}

/// A base over the store of a connection.
fn adopted<S: Alter>(
    alloc: Global,
    site: &Site<'_>,
    conn: Connection<S>,
) -> Result<SqlBase<S>, (OpenFault, Connection<S>)>
    ensures mode { IfOk result (λ b. (state_of b).begun ≡ false) }
    ensures sound { IfOk result (λ b. IsSoundContent site.now.policy site.now.file.schemes (state_of b).now) }
{
    if !conn.is_autocommit() {
        return Err((OpenFault::Store, conn));
    }
    SqlBase::adopt(alloc, conn, &site.policy, &site.file)
}

/// Does a task over the store of a connection.
fn do_over<S: Alter>(
    alloc: Global,
    site: &Site<'_>,
    task: Task<'_>,
    conn: Connection<S>,
    out: &mut Narrow,
) -> (Outcome, Connection<S>) {
    match adopted(alloc, site, conn) {
        Ok(base) => {
            let (end, base) = do_task(alloc, site, task, base, out);
            (Outcome::Ended(end), base.into_connection())
        }
        Err((fault, conn)) => (Outcome::Refused(fault), conn),
    }
}

/// Executes statements over the store of a connection.
fn execute_over<S: Alter>(sql: &str, conn: Connection<S>) -> (Outcome, Connection<S>) {
    let mut conn = conn;
    let end = match conn.execute_batch(sql) {
        Ok(()) => End::Whole,
        Err(_) => End::Failed,
    };
    (Outcome::Ended(end), conn)
}

/// Does work over the store of a connection.
fn work_over<S: Alter>(
    alloc: Global,
    job: Job<'_>,
    conn: Connection<S>,
    out: &mut Narrow,
) -> (Outcome, Connection<S>) {
    match job.work {
        Work::Execute(sql) => execute_over(sql, conn),
        Work::Do(site, task) => do_over(alloc, site, task, conn, out),
    }
}

/// The files of a store after work, which is closed, or whose files are left as they are.
fn files_of<D: Medium>(
    outcome: Outcome,
    conn: Connection<FileStore<D>>,
    closes: bool,
) -> (Outcome, Files<D>) {
    if !closes {
        return (outcome, let_go(conn));
    }
    match conn.close_files() {
        Ok(files) => (outcome, files),
        Err((error, store)) => (Outcome::Unclosed(fault_of(error)), store.close()),
    }
}

/// Does work over the store in files. It calls one function over the store's own type, which is dear to prove.
fn work_in<D: Medium>(
    alloc: Global,
    job: Job<'_>,
    files: Files<D>,
    out: &mut Narrow,
) -> (Outcome, Files<D>) {
    match connected(alloc, files, options()) {
        Ok(conn) => {
            let (outcome, conn) = work_over(alloc, job, conn, out);
            files_of(outcome, conn, job.closes && outcome.is_whole())
        }
        Err((fault, files)) => (Outcome::Unopened(fault), files),
    }
}

/// The bytes of files as they were written, and as they are after the machine went down.
fn copies_of<D: Medium>(alloc: Global, files: &mut Files<D>) -> Option<(Copies, Copies)> {
    let written = Copies::of(alloc, files)?;
    files.log.crash();
    files.db.crash();
    let synced = Copies::of(alloc, files)?;
    Some((written, synced))
}

/// Does work over files with these bytes on such disks.
fn do_job_on<D: Medium>(alloc: Global, job: Job<'_>, start: &Copies) -> Option<Done> {
    let files = start.files::<D>(alloc, job.calls)?;
    let mut out = Narrow::new(alloc, job.calls.replies, usize::MAX);
    let (outcome, mut files) = work_in(alloc, job, files, &mut out);
    let (written, synced) = copies_of(alloc, &mut files)?;
    Some(Done {
        outcome,
        replies: out.bytes,
        written,
        synced,
    })
}

/// Does work over files with these bytes.
pub fn do_job(alloc: Global, job: Job<'_>, start: &Copies) -> Option<Done> {
    do_job_on::<Fuse<Memory>>(alloc, job, start)
}

/// The closed files of a new store, after a script.
pub fn made(alloc: Global, site: &Site<'_>, script: &str) -> Option<Copies> {
    let work = Work::Do(site, Task::Run(script));
    let done = do_job(alloc, Job::closed(work), &Copies::none(alloc))?;
    Some(done.written)
}

/// What a level is shown of a history over a new store on such disks, and how that ends.
fn history_on<D: Medium>(
    alloc: Global,
    site: &Site<'_>,
    level: LabelNo,
    runs: Vec<Run>,
) -> Option<(Result<(), HistoryFault>, Vec<u8>)>
    requires level { level < length site.now.policy.labels }
    requires prepared { AllByRecursion (IsPrepared site.now.policy site.now.file.schemes) runs.items }
{
    let files = Copies::none(alloc).files::<D>(alloc, Calls::ALL)?;
    let mut out = Narrow::wide(alloc);
    let audience = Audience {
        reader: Some(level),
        form: Form::Lines,
    };
    let (policy, file) = (&site.policy, &site.file);
    let (outcome, _, _) = run_history(
        alloc,
        policy,
        file,
        runs,
        files,
        options(),
        audience,
        &mut out,
    );
    Some((outcome, out.bytes))
}

/// What a level is shown of a history over a new store, and how that ends.
pub fn history(
    alloc: Global,
    site: &Site<'_>,
    level: LabelNo,
    runs: Vec<Run>,
) -> Option<(Result<(), HistoryFault>, Vec<u8>)>
    requires level { level < length site.now.policy.labels }
    requires prepared { AllByRecursion (IsPrepared site.now.policy site.now.file.schemes) runs.items }
{
    history_on::<Fuse<Memory>>(alloc, site, level, runs)
}
