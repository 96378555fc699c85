//! The least certificates of transactions.
use crate::certificates::print;
use case_tables::Told;
use mls_certcheck::Certificate;
use mls_labeller::{LabelFault, label_tx, label_tx2};
use mls_lattice::Policy;
use mls_translang::Tx;
use std::alloc::Global;

/// Adds the number of a statement and the rule that no labels keep there.
fn push_fault(fault: LabelFault, out: &mut Told) {
    match fault {
        LabelFault::NoLabels { stmt, rule } => {
            out.push("no labels: ");
            out.push_count(stmt);
            out.push(" ");
            out.push_line(rule.text());
        }
        LabelFault::Memory => out.fail(),
    }
}

/// The least certificate of a transaction.
fn least(
    alloc: Global,
    policy: &Policy,
    tx: &Tx,
    is_second: bool,
) -> Result<Certificate, LabelFault> {
    if is_second {
        Ok(Certificate::Two(label_tx2(alloc, policy, tx)?))
    } else {
        Ok(Certificate::One(label_tx(alloc, policy, tx)?))
    }
}

fn push_certificate(alloc: Global, certificate: &Certificate, out: &mut Told) {
    match print(alloc, certificate) {
        Ok(text) => out.push(&text),
        Err(_) => out.fail(),
    }
}

/// Adds the least certificates of transactions, of version 1 or 2.
pub fn push_labels(alloc: Global, policy: &Policy, txs: &[Tx], is_second: bool, out: &mut Told) {
    for tx in txs {
        match least(alloc, policy, tx, is_second) {
            Ok(certificate) => push_certificate(alloc, &certificate, out),
            Err(fault) => push_fault(fault, out),
        }
    }
}
