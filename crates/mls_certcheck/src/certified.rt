//! Transactions with certificates that were found to hold.
ghost use Rattle.std.specs.Prelude.{◌≡◌, Err, IfOk, IfErr};
ghost use Rattle.mls_certcheck.specs.Secure.{Secure};
ghost use Rattle.mls_certcheck.specs.Rules.{Rules, claim};
ghost use Rattle.mls_certcheck.specs.Checks.{First};
ghost use Rattle.mls_certcheck.specs.Certified.{Rules-prop};

use crate::Certificate;
use crate::checking::check;
use crate::refusal::Refusal;
use mls_lattice::Policy;
use mls_translang::Tx;
use std::snapshot::Snapshot;

/// A transaction that was checked, with its certificate. Contracts see of it the policy that it was checked
/// under, too, and that the rules hold under that policy: a caller only has to ask whether that is its own.
/// Neither takes bytes.
#[derive(Drop)]
pub struct Certified {
    tx: Tx,
    cert: Certificate,
    policy: Snapshot<Policy>,
    pub ghost rules: { Rules (claim policy.value tx cert) } by { Rules-prop (claim policy.value tx cert) },
}

impl Certified {
    /// Checks a transaction under a policy; else it comes back with its certificate and the first rule that is broken.
    pub fn new(
        policy: &Policy,
        tx: Tx,
        cert: Certificate,
    ) -> Result<Certified, (Tx, Certificate, Refusal)>
        ensures kept { IfOk result (λ k. (k.tx ≡ tx) × (k.cert ≡ cert)) }
        ensures rules { IfOk result (λ k. Rules (claim policy.now tx cert)) }
        ensures secure { IfOk result (λ k. Secure policy.now k.tx) }
        ensures policy { IfOk result (λ k. k.policy.value ≡ policy.now) }
        ensures back { IfErr result (λ e. (e.0 ≡ tx) × (e.1 ≡ cert)) }
        ensures first { IfErr result (λ e. First (claim policy.now tx cert) ≡ Err e.2) }
    {
        match check(policy, &tx, &cert) {
            Ok(()) => {
                let policy = Snapshot::of(policy);
                Ok(Certified { tx, cert, policy })
            }
            Err(refusal) => Err((tx, cert, refusal)),
        }
    }

    /// The transaction.
    pub fn tx(&self) -> &Tx
        ensures { result.now ≡ self.now.tx }
    {
        &self.tx
    }

    /// The certificate.
    pub fn cert(&self) -> &Certificate
        ensures { result.now ≡ self.now.cert }
    {
        &self.cert
    }
}
