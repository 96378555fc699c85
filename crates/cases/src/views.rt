//! Lists of tuples: what a level sees, which rule they break, which subsumes which, and their classes.
ghost use Rattle.std.specs.Prelude.{length};
ghost use Rattle.std.specs.List.{AllByRecursion};
ghost use Rattle.mls_scheme.specs.Tuple.{HasClassesBelow};

use crate::lookups::push_label;
use crate::sample::Sample;
use crate::tuples::{label_of, push_tuples, tuples_of};
use case_tables::{Case, Told};
use mls_filterview::{Broken, filter, integrity, subsumes};
use mls_lattice::Policy;
use mls_scheme::{Tuple, tuple_class};
use std::alloc::Global;

fn tell_filter(alloc: Global, policy: &Policy, level: &str, tuples: &[Tuple], out: &mut Told)
    requires { AllByRecursion (HasClassesBelow (length policy.now.labels)) tuples.now }
{
    let Some(level) = label_of(policy, level) else {
        return out.push("  no label\n");
    };
    match filter(alloc, policy, tuples, level) {
        Ok(seen) => push_tuples(policy, &seen, out),
        Err(_) => out.fail(),
    }
}

fn push_broken(broken: Broken, out: &mut Told) {
    let growth = writeln!(out.text, "  row {} {:?}", broken.row, broken.rule);
    out.note(growth);
}

fn tell_integrity(sample: &Sample<'_>, relation: &str, tuples: &[Tuple], out: &mut Told)
    requires { AllByRecursion (HasClassesBelow (length sample.now.policy.now.labels)) tuples.now }
{
    let Some(relation) = sample.schemes.relation(relation) else {
        return out.push("  no relation\n");
    };
    match integrity(sample.policy, sample.schemes.scheme(relation), tuples) {
        None => out.push("  stored\n"),
        Some(broken) => push_broken(broken, out),
    }
}

fn push_subsumed(left: &Tuple, tuples: &[Tuple], out: &mut Told) {
    for right in tuples {
        out.push(if subsumes(left, right) { " yes" } else { " no" });
    }
}

/// Tells of each tuple, in a line, whether it subsumes each one.
fn tell_subsumes(tuples: &[Tuple], out: &mut Told) {
    for left in tuples {
        out.push(" ");
        push_subsumed(left, tuples, out);
        out.push("\n");
    }
}

fn tell_classes(policy: &Policy, tuples: &[Tuple], out: &mut Told)
    requires { AllByRecursion (HasClassesBelow (length policy.now.labels)) tuples.now }
{
    for tuple in tuples {
        out.push(" ");
        push_label(tuple_class(policy, tuple), out);
        out.push("\n");
    }
}

fn tell_tuples(alloc: Global, sample: &Sample<'_>, head: &str, tuples: &[Tuple], out: &mut Told)
    requires { AllByRecursion (HasClassesBelow (length sample.now.policy.now.labels)) tuples.now }
{
    let words = head.split_once(':').map_or(head, |parts| parts.0);
    let (kind, name) = words.split_once(' ').unwrap_or((words, ""));
    match kind {
        "filter" => tell_filter(alloc, sample.policy, name, tuples, out),
        "integrity" => tell_integrity(sample, name, tuples, out),
        "subsumes" => tell_subsumes(tuples, out),
        _ => tell_classes(sample.policy, tuples, out),
    }
}

/// Tells of lists of tuples: a case is `filter LABEL: title`, `integrity RELATION: title`, `subsumes: title` or
/// `classes: title`.
pub fn push(alloc: Global, sample: &Sample<'_>, case: &Case<'_>, out: &mut Told) {
    match tuples_of(alloc, sample.policy, case.body) {
        Some(tuples) => tell_tuples(alloc, sample, case.head, &tuples, out),
        None => out.push("  no tuples\n"),
    }
}
