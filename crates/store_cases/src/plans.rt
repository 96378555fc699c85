//! What is stopped in the tables of stops, and what it may leave.
use crate::contents::push_lists;
use crate::disks::Copies;
use crate::runs::Task;
use crate::site::{Bench, Site};
use crate::stops::Plan;
use case_tables::Told;
use mls_fragments::OpenFault;

/// What is stopped.
#[derive(Clone, Copy)]
pub enum Stops {
    /// The run of a script over a new store.
    Run,
    /// The evaluation of a transaction over a new store, which leaves what the events of a script leave.
    Evaluation,
    /// A turning of the audit list.
    Turning,
    /// A migration to a wider site. Two scripts make the same content under each of the two sites.
    Migration,
}

/// The name of the site to which a store of `policy.toml` is migrated.
static WIDE: &str = "wide.policy.toml wide.schemes.toml";

/// The events of a plan, a line each.
fn events_of<'a>(bench: &Bench<'a>, stops: Stops) -> &'a str {
    match stops {
        Stops::Run => bench.texts.named("stops.script"),
        Stops::Evaluation => "evaluation",
        Stops::Turning => "turning",
        Stops::Migration => "migration",
    }
}

/// What is stopped over these files, and what it may leave in them.
pub fn plan_of<'a>(
    bench: &'a Bench<'a>,
    stops: Stops,
    start: &'a Copies,
    contents: &'a [String],
) -> Option<Plan<'a>> {
    let (site, earlier, task) = match stops {
        Stops::Run => {
            let script = bench.texts.named("stops.script");
            (bench.site("policy.toml")?, None, Task::Run(script))
        }
        Stops::Evaluation => (bench.site("pair")?, None, Task::Evaluate),
        Stops::Turning => (bench.site("policy.toml")?, None, Task::Turn),
        Stops::Migration => (bench.site(WIDE)?, bench.site("policy.toml"), Task::Run("")),
    };
    Some(Plan {
        site,
        earlier,
        start,
        task,
        events: events_of(bench, stops),
        contents,
        probe: bench.texts.named("probe.script"),
    })
}

/// Adds the first lines of a text.
fn push_lines(text: &str, count: usize, out: &mut Told) {
    let mut left = count;
    for line in text.lines() {
        if left > 0 {
            out.push_line(line);
        }
        left = left.saturating_sub(1);
    }
}

/// Adds what lists hold under a site after the first lines of a script.
fn push_after(bench: &Bench<'_>, site: &Site<'_>, script: &str, count: usize, out: &mut Told) {
    let mut text = Told::new(bench.alloc);
    push_lines(bench.texts.named(script), count, &mut text);
    text.push(bench.texts.named("probe.script"));
    push_lists(bench.alloc, site, &text.text, out);
    if !text.is_whole {
        out.fail();
    }
}

/// Adds the same of the site of a name.
fn push_under(bench: &Bench<'_>, site: &str, script: &str, count: usize, out: &mut Told) {
    match bench.site(site) {
        Some(site) => push_after(bench, site, script, count, out),
        None => out.fail(),
    }
}

/// Adds what a turning leaves of what a script leaves: no entry.
fn push_turned(bench: &Bench<'_>, script: &str, out: &mut Told) {
    let mut content = Told::new(bench.alloc);
    push_under(bench, "policy.toml", script, usize::MAX, &mut content);
    for line in content.text.lines() {
        if !line.contains(" entry ") {
            out.push_line(line);
        }
    }
    if !content.is_whole {
        out.fail();
    }
}

/// Adds what is found before a migration, or after it: what lists hold under the site, and then what they hold under
/// the earlier one,
/// which refuses a store that is migrated.
fn push_migrated(bench: &Bench<'_>, is_done: bool, out: &mut Told) {
    push_under(bench, WIDE, "widened.script", usize::MAX, out);
    if is_done {
        out.push(OpenFault::OtherPolicy.word());
    } else {
        push_under(bench, "policy.toml", "migration.script", usize::MAX, out);
    }
}

/// Adds what is found after so many events.
fn push_content(bench: &Bench<'_>, stops: Stops, count: usize, out: &mut Told) {
    match (stops, count) {
        (Stops::Run, _) => push_under(bench, "policy.toml", "stops.script", count, out),
        (Stops::Evaluation, 0) => push_under(bench, "pair", "evaluation.script", 0, out),
        (Stops::Evaluation, _) => {
            push_under(bench, "pair", "evaluation.script", usize::MAX, out);
        }
        (Stops::Turning, 0) => {
            push_under(bench, "policy.toml", "stops.script", usize::MAX, out);
        }
        (Stops::Turning, _) => push_turned(bench, "stops.script", out),
        (Stops::Migration, _) => push_migrated(bench, count > 0, out),
    }
}

fn content_of(bench: &Bench<'_>, stops: Stops, count: usize) -> Option<String> {
    let mut content = Told::new(bench.alloc);
    push_content(bench, stops, count, &mut content);
    content.finish().ok()
}

/// What is found before the events of a plan, and after each of them.
pub fn contents_of(bench: &Bench<'_>, stops: Stops) -> Option<Vec<String>> {
    let mut contents = Vec::new(bench.alloc);
    contents.push(content_of(bench, stops, 0)?).ok()?;
    for _ in events_of(bench, stops).lines() {
        let count = contents.len();
        contents.push(content_of(bench, stops, count)?).ok()?;
    }
    Some(contents)
}
