//! Two histories of runs over stores in files, and what a level is shown of them.
ghost use Rattle.std.specs.Prelude.{◌<◌, ◌≤◌, length, IfSome};
ghost use Rattle.std.specs.List.{AllByRecursion};
ghost use Rattle.mls_runs.specs.History.{IsPrepared};

use crate::runs::run_of;
use crate::site::Site;
use crate::stores::history;
use case_tables::{Case, Told, inner, text_of};
use mls_lattice::LabelNo;
use mls_runs::{HistoryFault, Run};
use std::alloc::{AllocError, Global};

/// The event of a line for a history, without its mark, if the line is for it: of two with a bar between, that of the
/// history.
fn event_of<'a>(line: &'a str, history: &str) -> Option<&'a str> {
    let (mark, event) = line.split_once(' ')?;
    if mark != "=" && mark != history {
        return None;
    }
    match event.split_once(" | ") {
        Some((first, second)) => Some(if history == "1" { first } else { second }),
        None => Some(event),
    }
}

/// The script of the lines of a run for a history.
fn script_of(alloc: Global, lines: &[&str], history: &str) -> Result<String, AllocError> {
    let mut text = Told::new(alloc);
    for line in lines {
        if let Some(event) = event_of(inner(line), history) {
            text.push_line(event);
        }
    }
    text.finish()
}

/// The place of the first line that ends a run.
fn first_end(lines: &[&str]) -> usize
    ensures { result ≤ length lines.now }
{
    for (at, line) in lines.iter().enumerate() {
        if inner(line) == "--" {
            return at;
        }
    }
    lines.len()
}

/// The run of the lines of a case up to the next end of a run.
fn next_run(alloc: Global, site: &Site<'_>, lines: &[&str], history: &str) -> Option<Run>
    ensures { IfSome result (IsPrepared site.now.policy site.now.file.schemes) }
{
    let text = script_of(alloc, &lines[..first_end(lines)], history).ok()?;
    run_of(alloc, site, &text)
}

/// Whether a run begins at a line of a case.
fn begins_run(lines: &[&str], at: usize) -> bool
    requires { at < length lines.now }
{
    at == 0 || inner(lines[at - 1]) == "--"
}

/// The runs of a case for a history.
#[tactic(auto, using(crate::proofs::StartLemmas::all_more))]
fn runs_of(alloc: Global, site: &Site<'_>, lines: &[&str], history: &str) -> Option<Vec<Run>>
    ensures { IfSome result (λ runs. AllByRecursion (IsPrepared site.now.policy site.now.file.schemes) runs.items) }
{
    let mut runs = Vec::new(alloc);
    for at in 0..lines.len() {
        if begins_run(lines, at) {
            runs.push(next_run(alloc, site, &lines[at..], history)?)
                .ok()?;
        }
    }
    Some(runs)
}

/// Tells how a history ends.
fn tell_end(outcome: Result<(), HistoryFault>, out: &mut Told) {
    match outcome {
        Ok(()) => out.push_line("all well"),
        Err(fault) => {
            out.push("broken off at run ");
            out.push_count(fault.run);
            out.push("\n");
        }
    }
}

/// The level that a case names, if the policy has it.
fn level_of(site: &Site<'_>, head: &str) -> Option<LabelNo>
    ensures { IfSome result (λ c. c < length site.now.policy.labels) }
{
    let (name, _) = head.split_once(':')?;
    site.policy.label(name)
}

/// Tells what a level is shown of a history over a new store, and how that ends.
fn tell_shown(alloc: Global, site: &Site<'_>, level: LabelNo, runs: Vec<Run>, out: &mut Told)
    requires level { level < length site.now.policy.labels }
    requires prepared { AllByRecursion (IsPrepared site.now.policy site.now.file.schemes) runs.items }
{
    match history(alloc, site, level, runs) {
        Some((outcome, replies)) => {
            tell_end(outcome, out);
            out.push(text_of(&replies));
        }
        None => out.fail(),
    }
}

/// What is told of the history of this number.
fn shown(alloc: Global, site: &Site<'_>, level: LabelNo, lines: &[&str], number: &str) -> Told
    requires { level < length site.now.policy.labels }
{
    let mut told = Told::new(alloc);
    match runs_of(alloc, site, lines, number) {
        Some(runs) => tell_shown(alloc, site, level, runs, &mut told),
        None => told.push("no runs\n"),
    }
    told
}

/// Tells what a level is shown of two histories.
fn tell_both(first: &Told, second: &Told, out: &mut Told) {
    out.push_indented(&first.text);
    if first.text.as_str() == second.text.as_str() {
        out.push_line("  the same");
    } else {
        out.push_line("  other");
        out.push_indented(&second.text);
    }
    if !first.is_whole || !second.is_whole {
        out.fail();
    }
}

/// Tells what a level is shown of two histories: a case is `LEVEL: title`, and the events of both below.
pub fn tell(alloc: Global, site: &Site<'_>, case: &Case<'_>, out: &mut Told) {
    match level_of(site, case.head) {
        Some(level) => {
            let first = shown(alloc, site, level, case.body, "1");
            let second = shown(alloc, site, level, case.body, "2");
            tell_both(&first, &second, out);
        }
        None => out.push_line("  no level"),
    }
}
