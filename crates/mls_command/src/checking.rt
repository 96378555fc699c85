//! Certificates are checked against the transactions of their names.
ghost use Rattle.std.specs.Prelude.{◌≡◌, ◌↔◌, ◌++◌, Some, string_bytes, IfOk, OnOk, flat_map};
ghost use Rattle.std.specs.List.{list_any};
ghost use Rattle.mls_certcheck.specs.Rules.{Rules, claim};
ghost use Rattle.mls_certcheck.specs.declared.cert.Certificate.{Certificate as SpecCertificate};
ghost use Rattle.mls_host.specs.Storing.{cert_named};
ghost use Rattle.mls_command.specs.declared.checking.Verdict.TheVariants.{Yes};
ghost use Rattle.mls_command.specs.Checking.{verdict_of, verdict_text, line_of, is_refused, IsChecked};

use crate::listing::Listing;
use mls_certcheck::{Certificate, Refusal, check};
use mls_host::{cert_named, ending_if};
use mls_lattice::{Policy, Str};
use mls_translang::Tx;
use std::alloc::{AllocError, Global};

/// What is said of a transaction and the first certificate of its name.
#[derive(Clone, Copy)]
pub(crate) enum Verdict {
    Yes,
    /// The first rule that is broken.
    No(Refusal),
    /// There is no certificate of that name.
    Missing,
}

fn verdict_of(policy: &Policy, blocks: &[(Str, Certificate)], tx: &Tx) -> Verdict
    ensures exact { result ≡ verdict_of policy.now blocks.now tx.now }
    // Yes exactly where the rules hold under the first certificate of the name.
    ensures yes { (cert : SpecCertificate) → cert_named blocks.now tx.now.name ≡ Some cert
        → (result ≡ Yes ↔ Rules (claim policy.now tx.now cert)) }
{
    match cert_named(blocks, tx.name()) {
        None => Verdict::Missing,
        Some(cert) => match check(policy, tx, cert) {
            Ok(()) => Verdict::Yes,
            Err(refusal) => Verdict::No(refusal),
        },
    }
}

fn verdict_to(text: &mut String, name: &str, verdict: Verdict) -> Result<(), AllocError>
    ensures { OnOk result (string_bytes text.new ≡ string_bytes text.old ++ verdict_text name.now verdict) }
{
    match verdict {
        Verdict::Yes => writeln!(text, "{name} yes"),
        Verdict::No(Refusal { stmt, rule }) => {
            let rule = rule.text();
            writeln!(text, "{name} no {stmt} {rule}")
        }
        Verdict::Missing => writeln!(text, "{name} no certificate"),
    }
}

fn is_refused(verdict: Verdict) -> bool
    ensures { result ≡ is_refused verdict }
{
    match verdict {
        Verdict::Yes => false,
        Verdict::No(_) | Verdict::Missing => true,
    }
}

/// What is told of transactions.
#[derive(Drop)]
pub(crate) struct Verdicts {
    pub text: String,
    pub refused: bool,
}

/// A line for each transaction, and whether one is refused.
fn verdicts_of(
    alloc: Global,
    policy: &Policy,
    blocks: &[(Str, Certificate)],
    txs: &[Tx],
) -> Result<Verdicts, AllocError>
    ensures text { IfOk result (λ v. string_bytes v.text ≡ flat_map (line_of policy.now blocks.now) txs.now) }
    ensures refused { IfOk result (λ v. v.refused ≡ list_any (λ tx. is_refused (verdict_of policy.now blocks.now tx))
        txs.now) }
{
    let mut text = String::new(alloc);
    let mut refused = false;
    for tx in txs {
        let verdict = verdict_of(policy, blocks, tx);
        verdict_to(&mut text, tx.name(), verdict)?;
        refused = refused | is_refused(verdict);
    }
    Ok(Verdicts { text, refused })
}

/// For each transaction whether the first certificate of its name holds for it.
pub(crate) fn checked(
    alloc: Global,
    policy: &Policy,
    txs: &[Tx],
    blocks: &[(Str, Certificate)],
) -> Result<Listing, AllocError>
    ensures { IfOk result (λ l. IsChecked policy.now txs.now blocks.now l.text.items (string_bytes l.told) l.ending) }
{
    let verdicts = verdicts_of(alloc, policy, blocks, txs)?;
    Ok(Listing {
        text: verdicts.text.into_bytes(),
        told: String::new(alloc),
        ending: ending_if(verdicts.refused),
    })
}
