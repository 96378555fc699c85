//! Transactions as they are stored: with the certificates that hold for them, or without.
ghost use Rattle.std.specs.Prelude.{◌≡◌, IfOk, IfErr, option_map};
ghost use Rattle.mls_certcheck.specs.Site.{AreRead, AreCertified, site_of};
ghost use Rattle.mls_host.specs.Causes.{AreTextsRefused};
ghost use Rattle.mls_host.specs.Inputs.{AreStoredOf};
ghost use Rattle.mls_host.specs.Storing.{cert_named, IsAccepted, IsStoredWith, AreStoredWith};

use crate::readers::{read_certificates, read_transactions};
use crate::reason::Reason;
use mls_certcheck::{Certificate, Certified, Stored};
use mls_lattice::{Items, Policy, Str};
use mls_scheme::Schemes;
use mls_translang::Tx;
use std::alloc::{AllocError, Global};

/// The first certificate of a name.
pub fn cert_named<'a>(blocks: &'a [(Str, Certificate)], name: &str) -> Option<&'a Certificate>
    ensures { option_map (λ c. c.now) result ≡ cert_named blocks.now name.now }
{
    for block in blocks {
        if block.0.as_str() == name {
            return Some(&block.1);
        }
    }
    None
}

/// A transaction with a certificate, where that holds for it.
fn checked(policy: &Policy, tx: Tx, cert: Certificate) -> Stored
    ensures { IsAccepted policy.now tx cert result }
{
    match Certified::new(policy, tx, cert) {
        Ok(certified) => Stored::Certified(certified),
        Err((tx, _, _)) => Stored::Plain(tx),
    }
}

fn stored_with(policy: &Policy, blocks: &[(Str, Certificate)], tx: Tx) -> Result<Stored, AllocError>
    ensures { IfOk result (λ s. IsStoredWith policy.now (cert_named blocks.now tx.name) tx s) }
{
    match cert_named(blocks, tx.name()) {
        Some(cert) => Ok(checked(policy, tx, cert.copy()?)),
        None => Ok(Stored::Plain(tx)),
    }
}

/// Transactions as they are stored, in order: each with the first certificate of its name where that holds for it under
/// the policy.
/// Certificates of other names are ignored.
/// A certificate is copied for its transaction, so that the blocks of a file are lent.
pub fn stored_of(
    alloc: Global,
    policy: &Policy,
    txs: Items<Tx>,
    blocks: &[(Str, Certificate)],
) -> Result<Items<Stored>, AllocError>
    ensures { IfOk result (λ ss. AreStoredWith policy.now blocks.now txs ss) }
{
    let mut stored = Vec::new(alloc);
    for tx in txs.into_vec() {
        stored.push(stored_with(policy, blocks, tx)?)?;
    }
    Ok(Items::from(stored))
}

/// The transactions of a text as they are stored, with the certificates of another.
#[tactic(auto, using(crate::proofs::StoringLemmas::stored_read))]
pub fn stored_from(
    alloc: Global,
    policy: &Policy,
    schemes: &Schemes,
    transactions: &[u8],
    certificates: &[u8],
) -> Result<Items<Stored>, Reason>
    ensures from { IfOk result (AreStoredOf transactions.now certificates.now policy.now schemes.now) }
    ensures read { IfOk result (λ ss. AreRead (site_of policy.now schemes.now ss)) }
    ensures certified { IfOk result (λ ss. AreCertified (site_of policy.now schemes.now ss)) }
    ensures refused { IfErr result (AreTextsRefused transactions.now certificates.now policy.now schemes.now) }
{
    let txs = read_transactions(alloc, policy, schemes, transactions)?;
    let blocks = read_certificates(alloc, certificates)?;
    Ok(stored_of(alloc, policy, txs, &blocks)?)
}
