//! What bases hold, as texts.
use crate::disks::Copies;
use crate::runs::{End, Task, do_task};
use crate::site::Site;
use crate::stores::{Done, Job, Outcome, Work, do_job};
use case_tables::{Narrow, Told, text_of};
use mls_updates::ListBase;
use std::alloc::Global;

/// The reply to the first event of the probe, which asks for all that there is.
static MARK: &str = "U U/probe opened ann\n";

/// Adds what the probe was answered.
fn push_probed(replies: &[u8], out: &mut Told) {
    match text_of(replies).split_once(MARK) {
        Some((_, content)) => out.push(content),
        None => out.fail(),
    }
}

/// What a base over lists answers to a script, if all is well.
fn answered(alloc: Global, site: &Site<'_>, script: &str) -> Option<Narrow> {
    let mut out = Narrow::wide(alloc);
    let base = ListBase::new(alloc);
    let (end, _base) = do_task(alloc, site, Task::Run(script), base, &mut out);
    match end {
        End::Whole => Some(out),
        _ => None,
    }
}

/// Adds what a base over lists holds after a script, which the probe ends.
pub fn push_lists(alloc: Global, site: &Site<'_>, script: &str, out: &mut Told) {
    match answered(alloc, site, script) {
        Some(replies) => push_probed(&replies.bytes, out),
        None => out.fail(),
    }
}

fn push_done(done: &Done, out: &mut Told) {
    match done.outcome {
        Outcome::Ended(End::Whole) => push_probed(&done.replies, out),
        Outcome::Refused(fault) => out.push(fault.word()),
        _ => out.fail(),
    }
}

/// Adds what the store in files holds under a site, or why it is refused.
pub fn push_held(alloc: Global, site: &Site<'_>, probe: &str, copies: &Copies, out: &mut Told) {
    let job = Job::left(Work::Do(site, Task::Run(probe)));
    match do_job(alloc, job, copies) {
        Some(done) => push_done(&done, out),
        None => out.fail(),
    }
}
