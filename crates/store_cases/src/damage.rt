//! Stores that are damaged, and how they are refused.
use crate::disks::Copies;
use crate::runs::Task;
use crate::site::Site;
use crate::stores::{Job, Work, do_job};
use case_tables::{Told, text_of};
use mls_explain::diagnosis_of;
use std::alloc::Global;

/// What differs of files from what they were.
fn change_of(files: &Copies, before: &Copies) -> &'static str {
    if files.db.as_slice() != before.db.as_slice() {
        return "file changed";
    }
    if files.log.as_slice() != before.log.as_slice() {
        return "log changed";
    }
    "unchanged"
}

/// Tells how the store in files is opened or refused, and what of them is changed by that. The files are those that it
/// leaves then.
fn tell_opening(alloc: Global, site: &Site<'_>, files: &mut Copies, out: &mut Told) {
    match do_job(alloc, Job::left(Work::Do(site, Task::Run(""))), files) {
        Some(done) => {
            done.outcome.tell(out);
            out.push(", ");
            out.push(change_of(&done.written, files));
            *files = done.written;
        }
        None => out.fail(),
    }
}

/// Tells what is found of the store in files, where it is refused.
fn tell_diagnosis(alloc: Global, site: &Site<'_>, files: &Copies, out: &mut Told) {
    match diagnosis_of(alloc, &files.log, &files.db, &site.policy, &site.file) {
        Ok(found) => out.push(text_of(&found.text)),
        Err(_) => out.fail(),
    }
}

/// The files of a store after statements.
fn damaged(alloc: Global, sql: &str, files: &Copies) -> Option<Copies> {
    let done = do_job(alloc, Job::closed(Work::Execute(sql)), files)?;
    if done.outcome.is_whole() {
        Some(done.written)
    } else {
        None
    }
}

/// Tells how the store in damaged files is refused, twice since the first opening after a change may begin the log
/// anew; and what is found of it.
fn tell_refusal(alloc: Global, site: &Site<'_>, head: &str, files: &mut Copies, out: &mut Told) {
    tell_opening(alloc, site, files, out);
    out.push("; ");
    tell_opening(alloc, site, files, out);
    out.push(": ");
    out.push_line(head);
    tell_diagnosis(alloc, site, files, out);
}

/// Damages the store in files by the statements below a head, and tells how it is refused: a case is `POLICY: title` or
/// `POLICY SCHEMES: title`.
pub fn tell(alloc: Global, site: &Site<'_>, head: &str, sql: &str, files: &Copies, out: &mut Told) {
    match damaged(alloc, sql, files) {
        Some(files) => {
            let mut files = files;
            tell_refusal(alloc, site, head, &mut files, out);
        }
        None => out.fail(),
    }
}
