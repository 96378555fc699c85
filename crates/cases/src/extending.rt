//! Older policies and schemes, which policies and schemes extend.
use crate::sample::Sample;
use crate::show::push_fault;
use case_tables::{Told, joined, unfolded};
use mls_lattice::Policy;
use mls_scheme::SchemesFile;
use std::alloc::{AllocError, Global};

/// Adds whether a policy extends an old text, and how many of its labels are those of the text.
fn push_policy(
    alloc: Global,
    policy: &Policy,
    old: &[u8],
    out: &mut Told,
) -> Result<(), AllocError> {
    out.push(if policy.extends(alloc, old)? {
        "yes"
    } else {
        "no"
    });
    if let Some(labels) = policy.labels_before(alloc, old)? {
        out.push(" ");
        out.push_count(labels);
    }
    Ok(())
}

fn push_counts(counts: &[usize], out: &mut Told) {
    out.push("yes");
    for &count in counts {
        out.push(" ");
        out.push_count(count);
    }
}

/// Adds whether schemes extend an old text, and how many of their attributes are those of the text.
fn push_schemes(alloc: Global, sample: &Sample<'_>, old: &[u8], out: &mut Told) {
    match sample.schemes.extends(alloc, sample.policy, old) {
        Ok(Some(counts)) => push_counts(&counts, out),
        Ok(None) => out.push("no"),
        Err(_) => out.fail(),
    }
}

/// The same of the schemes that a text is.
fn push_schemes_in(alloc: Global, policy: &Policy, text: &str, old: &[u8], out: &mut Told) {
    match SchemesFile::read(alloc, policy, text.as_bytes()) {
        Ok(file) => {
            let sample = Sample {
                policy,
                schemes: &file.schemes,
            };
            push_schemes(alloc, &sample, old, out);
        }
        Err(fault) => push_fault(fault.code(), fault.word(), out),
    }
}

fn push_old(
    alloc: Global,
    sample: &Sample<'_>,
    kind: &str,
    old: &[u8],
    body: &[&str],
    out: &mut Told,
) -> Result<(), AllocError> {
    if kind == "policy" {
        return push_policy(alloc, sample.policy, old, out);
    }
    if body.is_empty() {
        push_schemes(alloc, sample, old, out);
        return Ok(());
    }
    let text = joined(alloc, body)?;
    push_schemes_in(alloc, sample.policy, &text, old, out);
    Ok(())
}

/// Adds of an old text in one line, after `policy` or `schemes`, whether it is extended, and what of the new one is
/// old. Schemes may stand below it.
pub fn push(
    alloc: Global,
    sample: &Sample<'_>,
    kind: &str,
    line: &str,
    body: &[&str],
    out: &mut Told,
) {
    let growth = match unfolded(alloc, line) {
        Ok(old) => push_old(alloc, sample, kind, &old, body, out),
        Err(fault) => Err(fault),
    };
    out.note(growth);
}
