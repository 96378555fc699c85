//! The store that a command names, which is looked at and not opened.
ghost use Rattle.std.specs.Prelude.{◌≡◌, ◌≢◌, ◌&&◌, ◌++◌, length, nat_eq, true, false, Some, None, [], string_bytes};
ghost use Rattle.std.specs.Prelude.{IfOk, OnOk, IfSome};
ghost use Rattle.mls_host.specs.Words.{named};
ghost use Rattle.mls_host.specs.declared.host.StoreCause.TheVariants as causes;
ghost use Rattle.mls_advice.specs.Excerpt.{Begins};
ghost use Rattle.mls_command.specs.Looking.{makes_store, IsSeen, IsSight, IsFound, found_text, found_ending};
ghost use Rattle.mls_command.specs.Looking.{IsStoreAccount};

use crate::accounting::listing_of;
use crate::listing::Listing;
use crate::telling::push_reason;
use mls_advice::file_line;
use mls_explain::{Diagnosis, diagnosis_of};
use mls_fragments::OpenFault;
use mls_host::{
    Ending, Host, Job, Reason, Setting, StoreCause, StoreFiles, Task, ending_if, setting_of,
};
use std::alloc::{AllocError, Global};

pub(crate) const ACCEPTED: &str = "All inputs are accepted.\n";

const NO_FOLDER: &str = "  There is no such folder.\n  Make it, or name another path.\n";

const NO_RIGHT: &str =
    "  The file may not be read and written.\n  See to its rights and its folder's.\n";

const NO_FILE: &str = "  What stands there is no plain file of one name.\n  Name another path.\n";

const IN_USE: &str = "  Another process has the store open.\n  Wait until it ends, or end it.\n";

const JOURNAL: &str =
    "  SQLite left a journal beside the file.\n  Open the file with sqlite3, which plays it back.\n";

const UNREADABLE: &str = "  The file cannot be read.\n  See to its disk.\n";

const ABSENT: &str = "  There is no store.\n  Name one that is there.\n";

/// Why the files of a store are not read, and what to do; none for want of memory.
fn cause_text(cause: StoreCause) -> Option<&'static str>
    ensures { IfSome result (λ _. cause ≢ causes.Memory) }
{
    match cause {
        StoreCause::NoFolder => Some(NO_FOLDER),
        StoreCause::NoRight => Some(NO_RIGHT),
        StoreCause::NoFile => Some(NO_FILE),
        StoreCause::InUse => Some(IN_USE),
        StoreCause::Journal => Some(JOURNAL),
        StoreCause::Unreadable => Some(UNREADABLE),
        StoreCause::Memory => None,
    }
}

/// What is found of a store whose files are not shown.
fn diagnosis_of_hidden(alloc: Global, cause: StoreCause) -> Result<Diagnosis, AllocError>
    ensures fault { IfOk result (λ d. d.fault ≡ Some OpenFault.Store) }
    ensures cause { IfOk result (λ d. cause ≢ causes.Memory) }
{
    match cause_text(cause) {
        Some(text) => Ok(Diagnosis {
            fault: Some(OpenFault::Store),
            text: Vec::from_slice(alloc, text.as_bytes())?,
        }),
        None => Err(AllocError),
    }
}

fn are_empty(files: &StoreFiles) -> bool
    ensures { result ≡ (nat_eq (length files.now.log.items) 0 && nat_eq (length files.now.db.items) 0) }
{
    files.log.is_empty() && files.db.is_empty()
}

/// Whether there is no store, and its task makes none.
fn is_absent(task: Task, files: &StoreFiles) -> bool
    ensures { result ≡ true → (makes_store task.entry ≡ false) × (files.now.log.items ≡ [])
        × (files.now.db.items ≡ []) }
{
    match task {
        Task::Turn { .. } => are_empty(files),
        _ => false,
    }
}

/// What is found of a store with the bytes of these files.
fn seen_of(
    alloc: Global,
    setting: &Setting,
    task: Task,
    files: &StoreFiles,
) -> Result<Diagnosis, AllocError>
    ensures { IfOk result (λ d. IsSeen setting.now task.entry files.now.log.items files.now.db.items d.fault) }
{
    if !is_absent(task, files) {
        return diagnosis_of(alloc, &files.log, &files.db, &setting.policy, &setting.file);
    }
    Ok(Diagnosis {
        fault: Some(OpenFault::Store),
        text: Vec::from_slice(alloc, ABSENT.as_bytes())?,
    })
}

/// What is found of the store at a path, whose files stay as they are.
fn sight_of<H: Host>(
    alloc: Global,
    host: &H,
    setting: &Setting,
    task: Task,
    path: &str,
) -> Result<Diagnosis, AllocError>
    ensures { IfOk result (λ d. IsSight (H.hosting host.now) setting.now task.entry path.now d.fault) }
{
    match host.store_files(alloc, path) {
        Ok(files) => seen_of(alloc, setting, task, &files),
        Err(cause) => diagnosis_of_hidden(alloc, cause),
    }
}

/// What is found of a task's store: nothing wrong, where none is named.
fn found_of<H: Host>(
    alloc: Global,
    host: &H,
    setting: &Setting,
    task: Task,
    store: Option<&str>,
) -> Result<Diagnosis, AllocError>
    ensures { IfOk result (λ d. IsFound (H.hosting host.now) setting.now task.entry (named store.entry) d.fault) }
{
    match store {
        Some(path) => sight_of(alloc, host, setting, task, path),
        None => Ok(Diagnosis {
            fault: None,
            text: Vec::new(alloc),
        }),
    }
}

/// The file of a store, and what is found of it.
fn lines_of(alloc: Global, store: Option<&str>, found: &Diagnosis) -> Result<Vec<u8>, AllocError> {
    let mut text = match store {
        Some(path) => file_line(alloc, path)?.into_bytes(),
        None => Vec::new(alloc),
    };
    text.extend_from_slice(&found.text)?;
    Ok(text)
}

/// Appends the line that tells that all inputs are accepted.
fn push_accepted(text: &mut Vec<u8>) -> Result<(), AllocError>
    ensures { OnOk result (text.new.items ≡ text.old.items ++ found_text None) }
{
    text.extend_from_slice(ACCEPTED.as_bytes())
}

/// The line that tells that all inputs are accepted, with lines about rights, or why the store is not opened, with what
/// is found of it.
fn found_text(
    alloc: Global,
    store: Option<&str>,
    found: &Diagnosis,
    objects: &str,
) -> Result<Vec<u8>, AllocError>
    ensures { IfOk result (λ v. Begins (found_text found.now.fault) v.items) }
{
    match found.fault {
        None => {
            let mut text = Vec::new(alloc);
            push_accepted(&mut text)?;
            text.extend_from_slice(objects.as_bytes())?;
            Ok(text)
        }
        Some(fault) => {
            let lines = lines_of(alloc, store, found)?;
            let mut text = Vec::new(alloc);
            push_reason(&mut text, &Reason::Store(fault))?;
            text.extend_from_slice(&lines)?;
            Ok(text)
        }
    }
}

/// How that ends, where this is said of fields that nobody reads.
fn found_ending(found: &Diagnosis, ignored: &str) -> Ending
    ensures { result ≡ found_ending found.now.fault ignored.now }
{
    match found.fault {
        None => ending_if(!ignored.is_empty()),
        Some(_) => Ending::Refused,
    }
}

/// What is told where all inputs are accepted: of the store, where one is named, of rights, and of fields that nobody
/// reads.
pub(crate) fn store_account<H: Host>(
    alloc: Global,
    host: &H,
    setting: &Setting,
    task: Task,
    store: Option<&str>,
    ignored: &str,
    objects: &str,
) -> Result<Listing, AllocError>
    ensures { IfOk result (λ l. IsStoreAccount (H.hosting host.now) setting.now task.entry (λ text. text ≡ ignored.now)
        (named store.entry) l.text.items (string_bytes l.told) l.ending) }
{
    let found = found_of(alloc, host, setting, task, store)?;
    let mut text = found_text(alloc, store, &found, objects)?;
    text.extend_from_slice(ignored.as_bytes())?;
    Ok(listing_of(alloc, text, found_ending(&found, ignored)))
}

/// What is told of the store of a job that was not opened, whose policy and schemes are read once more.
pub(crate) fn store_lines<H: Host>(
    alloc: Global,
    host: &H,
    job: Job,
) -> Result<Vec<u8>, AllocError> {
    let Ok(setting) = setting_of(alloc, host, job) else {
        return Ok(Vec::new(alloc));
    };
    let found = found_of(alloc, host, &setting, job.task, job.files.store)?;
    lines_of(alloc, job.files.store, &found)
}
