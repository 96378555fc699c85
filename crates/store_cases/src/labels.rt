//! What labels hold of relations, read label by label: over a store in files and over lists.
ghost use Rattle.std.specs.Prelude.{◌≡◌, ◌<◌, false, length};

use crate::runs::{End, Task, do_task, stop_of};
use crate::site::Site;
use crate::stores::{Job, Outcome, Work, do_job, made};
use case_tables::{Narrow, Told, text_of};
use mls_filterview::{Base, BaseFault, Fragment, abandon};
use mls_lattice::LabelNo;
use mls_scheme::RelNo;
use mls_updates::ListBase;
use std::alloc::Global;
use std::io::Write;

/// Adds how many tuples and how many elements a label holds, if it holds any.
fn tell_fragment(relation: &str, label: &str, fragment: &Fragment, out: &mut Told) {
    if fragment.nodes.is_empty() && fragment.cells.is_empty() {
        return;
    }
    out.push(relation);
    out.push(" ");
    out.push(label);
    out.push(": tuples ");
    out.push_count(fragment.nodes.len());
    out.push(", elements ");
    out.push_count(fragment.cells.len());
    out.push("\n");
}

/// Tells what each label holds of a relation.
fn tell_relation<B: Base>(
    site: &Site<'_>,
    base: &mut B,
    relation: RelNo,
    out: &mut Told,
) -> Result<(), BaseFault>
    requires { relation < length site.now.file.schemes }
{
    site.policy.use_invariant();
    let name = site.file.schemes.scheme(relation).name();
    for number in 0..site.policy.label_count() {
        let label = LabelNo::new(number as u8);
        let fragment = base.fragment(relation, label)?;
        tell_fragment(name, site.policy.name(label), &fragment, out);
    }
    Ok(())
}

/// Tells what each label holds of each relation.
fn tell_relations<B: Base>(site: &Site<'_>, base: &mut B, out: &mut Told) -> Result<(), BaseFault> {
    site.file.schemes.use_invariant();
    for number in 0..site.file.schemes.count() {
        tell_relation(site, base, RelNo::new(number as u8), out)?;
    }
    Ok(())
}

/// Writes what each label holds of each relation over a base.
pub fn labels_over<B: Base>(alloc: Global, site: &Site<'_>, base: B, out: &mut Narrow) -> (End, B)
    ensures { (B.seen result.1).state.begun ≡ false }
{
    let mut base = base;
    let mut told = Told::new(alloc);
    let end = match tell_relations(site, &mut base, &mut told) {
        Ok(()) => End::Whole,
        Err(fault) => stop_of(fault),
    };
    abandon(&mut base);
    let written = match told.finish() {
        Ok(text) => out.write_all(text.as_bytes()).is_ok(),
        Err(_) => false,
    };
    if !written {
        return (End::Failed, base);
    }
    (end, base)
}

/// Tells how reading a base ends, and what is read.
fn tell_read(name: &str, outcome: Outcome, read: &[u8], told: &mut Told) {
    told.push("  ");
    told.push(name);
    told.push(": ");
    outcome.tell(told);
    told.push("\n");
    told.push_indented(text_of(read));
}

/// What labels hold over lists after a script.
fn labels_of(alloc: Global, site: &Site<'_>, script: &str, out: &mut Narrow) -> End {
    let mut replies = Narrow::wide(alloc);
    let base = ListBase::new(alloc);
    let (end, base) = do_task(alloc, site, Task::Run(script), base, &mut replies);
    match end {
        End::Whole => {
            let (end, _base) = labels_over(alloc, site, base, out);
            end
        }
        end => end,
    }
}

/// Tells what each label holds of the store in files.
fn tell_store(alloc: Global, site: &Site<'_>, script: &str, told: &mut Told) -> Option<()> {
    let files = made(alloc, site, script)?;
    let done = do_job(alloc, Job::closed(Work::Do(site, Task::Labels)), &files)?;
    tell_read("store", done.outcome, &done.replies, told);
    Some(())
}

/// Tells what each label holds after a script, of a store in files and of lists.
pub fn tell(alloc: Global, site: &Site<'_>, script: &str, told: &mut Told) {
    if tell_store(alloc, site, script, told).is_none() {
        told.fail();
    }
    let mut out = Narrow::wide(alloc);
    let end = labels_of(alloc, site, script, &mut out);
    tell_read("lists", Outcome::Ended(end), &out.bytes, told);
}
