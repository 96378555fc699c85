//! Certificates that are checked for transactions.
use crate::certificates::certificate_of;
use crate::sample::Sample;
use crate::show::push_word;
use case_tables::{Told, case_at, inner};
use mls_certcheck::check;
use mls_lattice::Policy;
use mls_parser::parse;
use mls_translang::Tx;
use std::alloc::{AllocError, Global};

/// Adds the lines of a body.
fn push_body(body: &[&str], text: &mut Told) {
    for line in body {
        text.push_line(inner(line));
    }
}

/// The transactions, each of which stands after `tx`, as one text.
fn text_of(alloc: Global, lines: &[&str]) -> Result<String, AllocError> {
    let mut text = Told::new(alloc);
    for at in 0..lines.len() {
        if let Some(case) = case_at(&lines[at..])
            && case.head == "tx"
        {
            push_body(case.body, &mut text);
        }
    }
    text.finish()
}

fn named<'a>(txs: &'a [Tx], name: &str) -> Option<&'a Tx> {
    for tx in txs {
        if tx.name() == name {
            return Some(tx);
        }
    }
    None
}

/// Adds the answer to a certificate for a transaction: `yes`, or the number of a statement and the rule that is broken
/// there.
fn push_answer(alloc: Global, policy: &Policy, tx: &Tx, text: &str, out: &mut Told) {
    let Some(certificate) = certificate_of(alloc, text) else {
        return out.push("no certificate");
    };
    match check(policy, tx, &certificate) {
        Ok(()) => out.push("yes"),
        Err(refusal) => {
            out.push_count(refusal.stmt);
            push_word(refusal.rule.text(), out);
        }
    }
}

/// Tells the answer to a certificate: the name of a transaction and the certificate.
fn tell_check(alloc: Global, policy: &Policy, txs: &[Tx], question: &str, out: &mut Told) {
    let (name, text) = question.split_once(' ').unwrap_or((question, ""));
    match named(txs, name) {
        Some(tx) => push_answer(alloc, policy, tx, text, out),
        None => out.push("no transaction"),
    }
    out.push(": ");
    out.push_line(question);
}

/// Tells the answers to certificates, each in a line after `check`.
fn tell_checks(alloc: Global, policy: &Policy, txs: &[Tx], lines: &[&str], out: &mut Told) {
    for line in lines {
        if let Some(question) = line.strip_prefix("check ") {
            tell_check(alloc, policy, txs, question, out);
        }
    }
}

fn tell_parsed(alloc: Global, sample: &Sample<'_>, text: &str, lines: &[&str], out: &mut Told) {
    match parse(alloc, sample.policy, sample.schemes, text.as_bytes()) {
        Ok(txs) => tell_checks(alloc, sample.policy, &txs, lines, out),
        Err(_) => out.push("no transactions\n"),
    }
}

/// Tells the answers to the certificates of a table.
pub fn tell_lines(alloc: Global, sample: &Sample<'_>, lines: &[&str], out: &mut Told) {
    match text_of(alloc, lines) {
        Ok(text) => tell_parsed(alloc, sample, &text, lines, out),
        Err(_) => out.fail(),
    }
}
