//! Stores whose logs are cut short.
use crate::disks::Copies;
use crate::stops::{Plan, content_in};
use crate::stores::{Job, Work, do_job};
use case_tables::Told;
use std::alloc::{AllocError, Global};

/// The log is cut after so many bytes, and after twice as many, and so on.
const STEP: usize = 500;

/// The first part of the log, and the database file.
fn cut(alloc: Global, copies: &Copies, length: usize) -> Result<Copies, AllocError> {
    let log = copies.log[..length.min(copies.log.len())].to_vec(alloc)?;
    let db = copies.db.clone()?;
    Ok(Copies { log, db })
}

/// The first place of what files hold, or the place behind all.
fn place_of(alloc: Global, plan: &Plan<'_>, copies: &Copies) -> usize {
    let found = content_in(alloc, plan, copies);
    for (place, content) in plan.contents.iter().enumerate() {
        if found.is_whole && content.as_str() == found.text.as_str() {
            return place;
        }
    }
    plan.contents.len()
}

/// Counts what a part of the log leaves.
fn count_part(
    alloc: Global,
    plan: &Plan<'_>,
    copies: &Copies,
    length: usize,
    counts: &mut [usize],
) -> Result<(), AllocError> {
    let part = cut(alloc, copies, length)?;
    if let Some(count) = counts.get_mut(place_of(alloc, plan, &part)) {
        *count = count.saturating_add(1);
    }
    Ok(())
}

/// Tells how many parts leave what is after an event, and how many none of that.
fn tell_counts(plan: &Plan<'_>, counts: &[usize], out: &mut Told) {
    for (place, count) in counts.iter().enumerate() {
        if *count > 0 {
            out.push("  ");
            out.push_count(*count);
            out.push(" parts: ");
            let is_wrong = place >= plan.contents.len();
            out.push_line(if is_wrong { "wrong" } else { plan.name(place) });
        }
    }
}

fn tell_parts(
    alloc: Global,
    plan: &Plan<'_>,
    copies: &Copies,
    out: &mut Told,
) -> Result<(), AllocError> {
    let mut counts = Vec::new(alloc);
    counts.resize(plan.contents.len().saturating_add(1), 0usize)?;
    for part in 0..copies.log.len() / STEP {
        count_part(alloc, plan, copies, part.saturating_mul(STEP), &mut counts)?;
    }
    tell_counts(plan, &counts, out);
    Ok(())
}

/// Tells what is found after a task whose store is not closed, where its log is cut short: how many of the parts leave
/// what is after an event.
pub fn tell_cuts(alloc: Global, plan: &Plan<'_>, out: &mut Told) {
    match do_job(alloc, Job::left(Work::Do(plan.site, plan.task)), plan.start) {
        Some(done) => {
            let told = tell_parts(alloc, plan, &done.written, out);
            out.note(told);
        }
        None => out.fail(),
    }
}
