//! The tables, in the order in which they are told, and their cases, one after another.
use crate::documents::{Form, push_policy, push_schemes};
use crate::parts::parts_of;
use crate::runs::push_runs;
use crate::sample::Sample;
use crate::transactions::{checks, evaluations, texts};
use crate::{certificates, entries, extending, faults, lookups, reads, spellings, views};
use case_tables::{Case, Texts, Told, case_at, joined, unfolded};
use mls_lattice::Policy;
use mls_scheme::SchemesFile;
use std::alloc::{AllocError, Global};

/// What the cases of a file are about. Those of the last two are told together: certificates for the transactions of
/// the file, and its transactions, one after another over one base.
#[derive(Clone, Copy)]
pub enum Subject {
    Policies,
    Schemes,
    Documents,
    Extending,
    Limits,
    Lookups,
    Keys,
    Entries,
    Views,
    Reads,
    Certificates,
    Texts,
    TextLimits,
    Prints,
    Labels,
    Labels2,
    Ranges,
    Checks,
    Evaluations,
}

/// Where it stands what is told of a case: before the line of the case, behind it, or below it, as it is, behind two
/// blanks, or lines that begin alike by their number.
#[derive(Clone, Copy)]
enum Place {
    Before,
    Behind,
    Below,
    Indented,
    Counted,
}

static TABLES: [(&str, Place, Subject); 19] = [
    ("policies.txt", Place::Before, Subject::Policies),
    ("schemes.txt", Place::Before, Subject::Schemes),
    ("documents.txt", Place::Indented, Subject::Documents),
    ("extending.txt", Place::Before, Subject::Extending),
    ("limits.txt", Place::Counted, Subject::Limits),
    ("lookups.txt", Place::Behind, Subject::Lookups),
    ("keys.txt", Place::Behind, Subject::Keys),
    ("entries.txt", Place::Behind, Subject::Entries),
    ("views.txt", Place::Below, Subject::Views),
    ("reads.txt", Place::Below, Subject::Reads),
    ("certificates.txt", Place::Behind, Subject::Certificates),
    ("texts.txt", Place::Before, Subject::Texts),
    ("text_limits.txt", Place::Before, Subject::TextLimits),
    ("prints.txt", Place::Indented, Subject::Prints),
    ("checks.txt", Place::Below, Subject::Checks),
    ("evaluations.txt", Place::Below, Subject::Evaluations),
    ("labels.txt", Place::Indented, Subject::Labels),
    ("labels2.txt", Place::Indented, Subject::Labels2),
    ("ranges.txt", Place::Indented, Subject::Ranges),
];

/// The text that a case is: its line, folded or of so many parts, or the lines below it.
fn text_of(alloc: Global, subject: Subject, case: &Case<'_>) -> Result<Vec<u8>, AllocError> {
    match subject {
        Subject::Policies | Subject::Schemes | Subject::Texts => unfolded(alloc, case.head),
        Subject::TextLimits => parts_of(alloc, case.head),
        Subject::Limits => {
            let parts = joined(alloc, case.body)?;
            parts_of(alloc, &parts)
        }
        _ => Ok(joined(alloc, case.body)?.into_bytes()),
    }
}

/// Adds what is told of a text. The line of a case says whether a document is a policy, or schemes under one.
fn push_text(
    alloc: Global,
    sample: &Sample<'_>,
    subject: Subject,
    head: &str,
    text: &[u8],
    out: &mut Told,
) {
    match subject {
        Subject::Policies => push_policy(alloc, text, Form::Verdict, out),
        Subject::Schemes => push_schemes(alloc, sample.policy, text, Form::Verdict, out),
        Subject::Documents | Subject::Limits if head.starts_with("policy ") => {
            push_policy(alloc, text, Form::Canon, out);
        }
        Subject::Documents | Subject::Limits => {
            push_schemes(alloc, sample.policy, text, Form::Canon, out);
        }
        _ => texts::push_text(alloc, sample, subject, text, out),
    }
}

fn push_text_of(
    alloc: Global,
    sample: &Sample<'_>,
    subject: Subject,
    case: &Case<'_>,
    out: &mut Told,
) {
    match text_of(alloc, subject, case) {
        Ok(text) => push_text(alloc, sample, subject, case.head, &text, out),
        Err(_) => out.fail(),
    }
}

/// Adds what is told of a case.
fn push_case(
    alloc: Global,
    sample: &Sample<'_>,
    subject: Subject,
    case: &Case<'_>,
    out: &mut Told,
) {
    let (kind, rest) = case.head.split_once(' ').unwrap_or((case.head, ""));
    match subject {
        Subject::Extending => extending::push(alloc, sample, kind, rest, case.body, out),
        Subject::Lookups => lookups::push(sample.policy, kind, rest, out),
        Subject::Keys => spellings::push(alloc, subject, kind, rest, out),
        Subject::Entries => entries::push(alloc, sample.policy, kind, rest, case.body, out),
        Subject::Views => views::push(alloc, sample, case, out),
        Subject::Reads => reads::push(alloc, sample.policy, kind, rest, case.body, out),
        Subject::Certificates => certificates::push(alloc, kind, rest, out),
        _ => push_text_of(alloc, sample, subject, case, out),
    }
}

/// Tells a case: its line, and what is told of it.
fn tell(alloc: Global, place: Place, head: &str, told: &Told, out: &mut Told) {
    match place {
        Place::Before => {
            out.push(&told.text);
            out.push(": ");
            out.push_line(head);
        }
        Place::Behind => {
            out.push(head);
            out.push(":");
            out.push_line(&told.text);
        }
        Place::Below => {
            out.push_line(head);
            out.push(&told.text);
        }
        Place::Indented => {
            out.push_line(head);
            out.push_indented(&told.text);
        }
        Place::Counted => {
            out.push_line(head);
            let growth = push_runs(alloc, &told.text, out);
            out.note(growth);
        }
    }
    if !told.is_whole {
        out.fail();
    }
}

fn tell_cases(
    alloc: Global,
    sample: &Sample<'_>,
    place: Place,
    subject: Subject,
    lines: &[&str],
    out: &mut Told,
) {
    for at in 0..lines.len() {
        if let Some(case) = case_at(&lines[at..]) {
            let mut told = Told::new(alloc);
            push_case(alloc, sample, subject, &case, &mut told);
            tell(alloc, place, case.head, &told, out);
        }
    }
}

fn tell_file(
    alloc: Global,
    sample: &Sample<'_>,
    place: Place,
    subject: Subject,
    text: &str,
    out: &mut Told,
) -> Result<(), AllocError> {
    let lines: Vec<&str> = text.lines().collect(alloc)?;
    match subject {
        Subject::Checks => checks::tell_lines(alloc, sample, &lines, out),
        Subject::Evaluations => evaluations::tell_lines(alloc, sample, &lines, out),
        _ => tell_cases(alloc, sample, place, subject, &lines, out),
    }
    Ok(())
}

/// Tells the cases of all tables, and then those of scripts.
fn tell_files(alloc: Global, sample: &Sample<'_>, texts: &Texts, out: &mut Told) {
    for &(file, place, subject) in &TABLES {
        out.push("== ");
        out.push_line(file);
        let told = tell_file(alloc, sample, place, subject, texts.named(file), out);
        out.note(told);
    }
    faults::tell_files(alloc, sample, texts, out);
}

fn tell_under(alloc: Global, policy: &Policy, texts: &Texts, out: &mut Told) {
    match SchemesFile::read(alloc, policy, texts.named("schemes.toml").as_bytes()) {
        Ok(file) => {
            let sample = Sample {
                policy,
                schemes: &file.schemes,
            };
            tell_files(alloc, &sample, texts, out);
        }
        Err(_) => out.fail(),
    }
}

/// What is told of all cases, under the sample policy and schemes.
pub fn told(alloc: Global, texts: &Texts) -> Result<String, AllocError> {
    let mut out = Told::new(alloc);
    match Policy::read(alloc, texts.named("policy.toml").as_bytes()) {
        Ok(policy) => tell_under(alloc, &policy, texts, &mut out),
        Err(_) => out.fail(),
    }
    out.finish()
}
