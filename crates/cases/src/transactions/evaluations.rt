//! Certified transactions that are run one after another over one base.
ghost use Rattle.std.specs.Prelude.{OnOk, IfSome};
ghost use Rattle.std.specs.List.{AllByRecursion};
ghost use Rattle.mls_lattice.specs.Policy.{labels_of};
ghost use Rattle.mls_filterview.specs.Stored.{AreContent};
ghost use Rattle.mls_translang.specs.Fits.{IsReadUnder};
ghost use Rattle.mls_certcheck.specs.MeaningLaws.{IsItem};

use crate::certificates::certificate_of;
use crate::sample::Sample;
use crate::tuples::push_value;
use case_tables::{Case, Told, case_at, joined};
use mls_certcheck::Certified;
use mls_filterview::{Base, BaseFault};
use mls_lattice::{LabelNo, Policy};
use mls_parser::parse;
use mls_scheme::Value;
use mls_translang::Tx;
use mls_trusted::evaluate;
use mls_updates::ListBase;
use std::alloc::Global;

/// The last transaction of a text.
fn transaction_of(alloc: Global, sample: &Sample<'_>, text: &str) -> Option<Tx>
    ensures { IfSome result (IsReadUnder sample.now.policy.now sample.now.schemes.now) }
{
    match parse(alloc, sample.policy, sample.schemes, text.as_bytes()) {
        Ok(txs) => txs.into_vec().pop(),
        Err(_) => None,
    }
}

/// The last transaction of the lines of a case.
fn transaction_in(alloc: Global, sample: &Sample<'_>, body: &[&str]) -> Option<Tx>
    ensures { IfSome result (IsReadUnder sample.now.policy.now sample.now.schemes.now) }
{
    let text = joined(alloc, body).ok()?;
    transaction_of(alloc, sample, &text)
}

/// The transaction of a case with the certificate that its head is, where that holds.
fn certified_in(alloc: Global, sample: &Sample<'_>, case: &Case<'_>) -> Option<Certified>
    ensures { IfSome result (λ k. IsReadUnder sample.now.policy.now sample.now.schemes.now k.tx) }
{
    let certificate = certificate_of(alloc, case.head)?;
    let tx = transaction_in(alloc, sample, case.body)?;
    Certified::new(sample.policy, tx, certificate).ok()
}

/// Adds items, each with its label.
fn push_items(policy: &Policy, word: &str, items: &[(LabelNo, Option<Value>)], out: &mut Told)
    requires { AllByRecursion (IsItem policy.now) items.now }
{
    for item in items {
        out.push(word);
        out.push(policy.name(item.0));
        out.push(" ");
        match &item.1 {
            Some(value) => push_value(value, out),
            None => out.push("null"),
        }
        out.push("\n");
    }
}

/// Tells what a transaction without parameters emits and releases over a base.
#[tactic(auto, using(crate::proofs::StartLemmas::none_fit))]
fn tell_certified<B: Base>(
    alloc: Global,
    sample: &Sample<'_>,
    certified: &Certified,
    base: &mut B,
    out: &mut Told,
) -> Result<(), BaseFault>
    requires read { IsReadUnder sample.now.policy.now sample.now.schemes.now certified.now.tx }
    requires content { (B.seen base.old).is_clean
        → AreContent (labels_of sample.now.policy.now) sample.now.schemes.now (B.seen base.old).state.now.db }
    ensures { (B.seen base.new).is_clean
        → OnOk result (AreContent (labels_of sample.now.policy.now) sample.now.schemes.now
        (B.seen base.new).state.now.db) }
{
    out.push_line(certified.tx().name());
    if !certified.tx().params().is_empty() {
        return Ok(());
    }
    let run = evaluate(alloc, base, sample.policy, sample.schemes, certified, &[])?;
    push_items(sample.policy, "  emit ", &run.emitted, out);
    push_items(sample.policy, "  release ", &run.released, out);
    Ok(())
}

/// Tells what the transaction of a case emits and releases over a base.
fn tell_case<B: Base>(
    alloc: Global,
    sample: &Sample<'_>,
    case: &Case<'_>,
    base: &mut B,
    out: &mut Told,
) -> Result<(), BaseFault>
    requires { (B.seen base.old).is_clean
        → AreContent (labels_of sample.now.policy.now) sample.now.schemes.now (B.seen base.old).state.now.db }
    ensures { (B.seen base.new).is_clean
        → OnOk result (AreContent (labels_of sample.now.policy.now) sample.now.schemes.now
        (B.seen base.new).state.now.db) }
{
    match certified_in(alloc, sample, case) {
        Some(certified) => tell_certified(alloc, sample, &certified, base, out),
        None => {
            out.push("no certificate that holds\n");
            Ok(())
        }
    }
}

/// Tells what the transactions of cases do, one after another.
fn tell_over<B: Base>(
    alloc: Global,
    sample: &Sample<'_>,
    lines: &[&str],
    base: &mut B,
    out: &mut Told,
) -> Result<(), BaseFault>
    requires { (B.seen base.old).is_clean
        → AreContent (labels_of sample.now.policy.now) sample.now.schemes.now (B.seen base.old).state.now.db }
{
    for at in 0..lines.len() {
        if let Some(case) = case_at(&lines[at..]) {
            tell_case(alloc, sample, &case, base, out)?;
        }
    }
    Ok(())
}

/// Tells what the transactions of a table do, one after another over one base, which is empty at first.
pub fn tell_lines(alloc: Global, sample: &Sample<'_>, lines: &[&str], out: &mut Told) {
    let mut base = ListBase::new(alloc);
    if tell_over(alloc, sample, lines, &mut base, out).is_err() {
        out.fail();
    }
}
