//! What the scripts call.
ghost use Rattle.std.specs.Prelude.{IfSome};
ghost use Rattle.std.specs.List.{AllByRecursion};
ghost use Rattle.mls_translang.specs.Fits.{IsReadUnder};
ghost use Rattle.mls_certcheck.specs.Stored.{tx_of, IsCertifiedUnder};
ghost use Rattle.mls_certcheck.specs.Site.{site_of, AreRead, AreCertified};

use crate::sample::Sample;
use mls_certcheck::{Certificate, Certified};
use mls_labeller::label_tx;
use mls_lattice::Items;
use mls_parser::parse;
use mls_sessions::Stored;
use mls_translang::Tx;
use std::alloc::Global;

/// A transaction with a certificate, where that holds for it.
fn certified_by(sample: &Sample<'_>, tx: Tx, certificate: Certificate) -> Option<Stored>
    requires { IsReadUnder sample.now.policy.now sample.now.schemes.now tx }
    ensures read { IfSome result (λ s. IsReadUnder sample.now.policy.now sample.now.schemes.now (tx_of s)) }
    ensures certified { IfSome result (IsCertifiedUnder sample.now.policy.now) }
{
    match Certified::new(sample.policy, tx, certificate) {
        Ok(certified) => Some(Stored::Certified(certified)),
        Err(_) => None,
    }
}

/// A transaction with its least certificate, if it has one.
fn certified(alloc: Global, sample: &Sample<'_>, tx: Tx) -> Option<Stored>
    requires { IsReadUnder sample.now.policy.now sample.now.schemes.now tx }
    ensures read { IfSome result (λ s. IsReadUnder sample.now.policy.now sample.now.schemes.now (tx_of s)) }
    ensures certified { IfSome result (IsCertifiedUnder sample.now.policy.now) }
{
    match label_tx(alloc, sample.policy, &tx) {
        Ok(cert) => certified_by(sample, tx, Certificate::One(cert)),
        Err(_) => None,
    }
}

/// Transactions with their least certificates, if all have one.
fn all_certified(alloc: Global, sample: &Sample<'_>, txs: Items<Tx>) -> Option<Items<Stored>>
    requires { AllByRecursion (IsReadUnder sample.now.policy.now sample.now.schemes.now) txs }
    ensures read { IfSome result (λ ss. AreRead (site_of sample.now.policy.now sample.now.schemes.now ss)) }
    ensures certified { IfSome result (λ ss. AreCertified (site_of sample.now.policy.now sample.now.schemes.now ss)) }
{
    let mut stored = Vec::new(alloc);
    for tx in txs.into_vec() {
        let one = certified(alloc, sample, tx)?;
        stored.push(one).ok()?;
    }
    Some(Items::from(stored))
}

/// The transactions of a text, with their least certificates, if all have one.
pub fn stored_in(alloc: Global, sample: &Sample<'_>, text: &str) -> Option<Items<Stored>>
    ensures read { IfSome result (λ ss. AreRead (site_of sample.now.policy.now sample.now.schemes.now ss)) }
    ensures certified { IfSome result (λ ss. AreCertified (site_of sample.now.policy.now sample.now.schemes.now ss)) }
{
    match parse(alloc, sample.policy, sample.schemes, text.as_bytes()) {
        Ok(txs) => all_certified(alloc, sample, txs),
        Err(_) => None,
    }
}
