//! Stores that are opened again.
use crate::disks::{Calls, Copies};
use crate::runs::Task;
use crate::site::Site;
use crate::stores::{Job, Work, do_job};
use case_tables::{Told, text_of};
use std::alloc::Global;

/// Tells how a job over the store in files ends, and what it prints. The files are those that it leaves then.
fn tell_job(alloc: Global, job: Job<'_>, files: &mut Copies, out: &mut Told) {
    match do_job(alloc, job, files) {
        Some(done) => {
            out.push("  ");
            done.outcome.tell(out);
            out.push("\n");
            out.push_indented(text_of(&done.replies));
            *files = done.written;
        }
        None => out.fail(),
    }
}

/// Tells what a script prints over the store in files, which are new or those that the case before left: a case is
/// `FIRST LAST POLICY` or `FIRST LAST POLICY SCHEMES`, and its script below.
pub fn tell(
    alloc: Global,
    site: &Site<'_>,
    head: &str,
    script: &str,
    files: &mut Copies,
    out: &mut Told,
) {
    if head.starts_with("new ") {
        *files = Copies::none(alloc);
    }
    let job = Job {
        work: Work::Do(site, Task::Run(script)),
        calls: Calls::ALL,
        closes: head.contains(" closed "),
    };
    tell_job(alloc, job, files, out);
}
