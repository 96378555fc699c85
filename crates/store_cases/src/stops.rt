//! Tasks that are stopped at each call of a disk, and what is found in their stores afterwards.
use crate::contents::push_held;
use crate::counts::{Counts, Found, Place};
use crate::cuts::tell_cuts;
use crate::disks::{Calls, Copies};
use crate::runs::{End, Task};
use crate::site::Site;
use crate::stores::{Done, Job, Outcome, Work, do_job};
use case_tables::Told;
use std::alloc::{AllocError, Global};

/// What is stopped over which files, and what is to be found: the content before the task and after each of its events.
#[derive(Clone, Copy)]
pub struct Plan<'a> {
    pub site: &'a Site<'a>,
    /// The site of the store before the task, where that migrates it: what this site finds is told too.
    pub earlier: Option<&'a Site<'a>>,
    pub start: &'a Copies,
    pub task: Task<'a>,
    /// The names of the events, a line each.
    pub events: &'a str,
    pub contents: &'a [String],
    pub probe: &'a str,
}

impl<'a> Plan<'a> {
    /// The name of a place of stops: the opening, one of the events, or the closing.
    pub fn name(&self, place: usize) -> &'a str {
        match place.checked_sub(1) {
            Some(event) => self.events.lines().nth(event).unwrap_or("closing"),
            None => "opening",
        }
    }
}

/// What stops, which is `log`, `file` or `writer`, and the number of calls after which it is stopped first.
#[derive(Clone, Copy)]
struct Series<'a> {
    part: &'a str,
    from: u64,
}

/// The series of a line: what stops and, where it is not 0, after how many calls first.
fn series_of<'a>(line: &'a str) -> Series<'a> {
    let (part, from) = line.split_once(' ').unwrap_or((line, "0"));
    let from = from.parse::<u64>().unwrap_or(0);
    Series { part, from }
}

/// How many calls a part of a series takes before it stops.
fn calls_of(series: &str, part: &str, calls: u64) -> u64 {
    if series == part { calls } else { u64::MAX }
}

/// A series has fewer places than this.
const MOST: u64 = 1000;

/// A task, which a stop ends after so many calls; the store is closed then, but that of an evaluation.
fn job_of<'a>(plan: &Plan<'a>, series: &str, calls: u64) -> Job<'a> {
    Job {
        work: Work::Do(plan.site, plan.task),
        calls: Calls {
            log: calls_of(series, "log", calls),
            db: calls_of(series, "file", calls),
            replies: calls_of(series, "writer", calls),
        },
        closes: !matches!(plan.task, Task::Evaluate),
    }
}

/// What the store in files holds, and then what it holds under the earlier site.
pub fn content_in(alloc: Global, plan: &Plan<'_>, copies: &Copies) -> Told {
    let mut content = Told::new(alloc);
    push_held(alloc, plan.site, plan.probe, copies, &mut content);
    if let Some(earlier) = plan.earlier {
        push_held(alloc, earlier, plan.probe, copies, &mut content);
    }
    content
}

/// The place of a stop, where there is one: the opening, one of the events, or the closing. A migration is the first
/// event.
fn place_of(outcome: Outcome, plan: &Plan<'_>) -> Option<Place> {
    let (number, cause) = match outcome {
        Outcome::Unopened(fault) => (0, fault.word()),
        Outcome::Refused(fault) => (usize::from(plan.earlier.is_some()), fault.word()),
        Outcome::Ended(End::Stopped(fault)) => (fault.event, fault.cause.word()),
        Outcome::Unclosed(fault) => (plan.contents.len(), fault.word()),
        Outcome::Ended(End::Whole | End::Failed) => return None,
    };
    let done = matches!(outcome, Outcome::Ended(End::Stopped(fault)) if fault.done);
    Some(Place {
        number,
        done,
        cause,
    })
}

/// Notes what a stop of a series leaves, or what is left where there is no stop, which is as after a stop in the
/// closing; and answers
/// whether there was one.
fn note_done(alloc: Global, plan: &Plan<'_>, done: &Done, calls: u64, counts: &mut Counts) -> bool {
    let found = Found {
        synced: content_in(alloc, plan, &done.synced),
        written: content_in(alloc, plan, &done.written),
    };
    match place_of(done.outcome, plan) {
        Some(place) => {
            counts.note(plan.contents, place, &found, calls);
            true
        }
        None => {
            counts.end(plan.contents, &found);
            false
        }
    }
}

/// Notes what is left after so many calls of a series, and answers whether it was stopped.
fn note_stop(alloc: Global, plan: &Plan<'_>, part: &str, calls: u64, counts: &mut Counts) -> bool {
    match do_job(alloc, job_of(plan, part, calls), plan.start) {
        Some(done) => note_done(alloc, plan, &done, calls, counts),
        None => {
            counts.fail();
            false
        }
    }
}

/// Tells what the stops of a series leave, place by place.
fn tell_series(
    alloc: Global,
    plan: &Plan<'_>,
    series: Series<'_>,
    out: &mut Told,
) -> Result<(), AllocError> {
    let mut counts = Counts::new(alloc, plan.contents.len().saturating_add(1))?;
    for calls in series.from..MOST {
        if !note_stop(alloc, plan, series.part, calls, &mut counts) {
            break;
        }
    }
    counts.tell(plan, out);
    Ok(())
}

/// Tells a line of a table: a series, or `cut`.
pub fn tell_stops(alloc: Global, plan: &Plan<'_>, head: &str, out: &mut Told) {
    if head == "cut" {
        return tell_cuts(alloc, plan, out);
    }
    let told = tell_series(alloc, plan, series_of(head), out);
    out.note(told);
}
