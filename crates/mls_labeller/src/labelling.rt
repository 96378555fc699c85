//! The least certificate of a transaction, of either version.
ghost use Rattle.std.specs.Prelude.{IfOk, IfErr};
ghost use Rattle.mls_certcheck.specs.Rules.{Rules, claim};
ghost use Rattle.mls_labeller.specs.Least.{IsOf, IsLeast, Below};
ghost use Rattle.mls_labeller.specs.Fault.{HasNone, IsFirst};
ghost use Rattle.mls_certcheck.specs.declared.cert.Version.TheVariants as version;
ghost use Rattle.mls_certcheck.specs.declared.cert.Cert.{Cert as SpecCert};
ghost use Rattle.mls_certcheck.specs.declared.cert.Cert2.{Cert2 as SpecCert2};
ghost use Rattle.mls_certcheck.specs.declared.cert.Certificate.{Certificate as SpecCertificate};
ghost use Rattle.mls_certcheck.specs.declared.cert.Certificate.TheVariants.{One, Two};

use crate::fault::LabelFault;
use crate::least::{Labeller, Rising};
use crate::lines::lines_of;
use mls_certcheck::{Cert, Cert2, Certificate, Version, check};
use mls_lattice::Policy;
use mls_translang::Tx;
use std::alloc::Global;

/// The least certificate of a version, where it passes.
fn labelled(
    alloc: Global,
    policy: &Policy,
    tx: &Tx,
    version: Version,
) -> Result<Certificate, LabelFault>
    ensures obeys { IfOk result (λ cert. Rules (claim policy.now tx.now cert)) }
    ensures least { IfOk result (λ cert. IsLeast version policy.now tx.now cert) }
    ensures below { IfOk result (λ cert. (other : SpecCertificate) → IsOf version other
        → Rules (claim policy.now tx.now other)
        → Below (claim policy.now tx.now cert) (claim policy.now tx.now other)) }
    ensures none { IfErr result (HasNone version policy.now tx.now) }
    ensures first { IfErr result (IsFirst version policy.now tx.now) }
{
    let lines = lines_of(alloc, tx)?;
    let labeller = Labeller { policy, tx };
    let rising = Rising { labeller, version };
    let cert = rising.least(alloc, &lines)?.into_cert(alloc, version)?;
    check(policy, tx, &cert)?;
    Ok(cert)
}

/// The least certificate of version 1 that passes under a policy (after Denning and Denning 1977), or why there
/// is none. The labels rise from the lowest until each lower bound holds, so that none is higher than it must
/// be; where they break another rule, so do all. They are joins of declared labels, and need not be declared
/// themselves.
pub fn label_tx(alloc: Global, policy: &Policy, tx: &Tx) -> Result<Cert, LabelFault>
    ensures obeys { IfOk result (λ cert. Rules (claim policy.now tx.now (One cert))) }
    ensures least { IfOk result (λ cert. IsLeast version.First policy.now tx.now (One cert)) }
    // Each of its labels is dominated by the label at the same place in every certificate that passes.
    ensures below { IfOk result (λ cert. (other : SpecCert) → Rules (claim policy.now tx.now (One other))
        → Below (claim policy.now tx.now (One cert)) (claim policy.now tx.now (One other))) }
    // No labels: no certificate passes.
    ensures none { IfErr result (HasNone version.First policy.now tx.now) }
    // Which rule it is that the least labels break first.
    ensures first { IfErr result (IsFirst version.First policy.now tx.now) }
{
    match labelled(alloc, policy, tx, Version::First)? {
        Certificate::One(cert) => Ok(cert),
        Certificate::Two(_) => unreachable!(),
    }
}

/// The least certificate of version 2 that passes under a policy, or why there is none.
pub fn label_tx2(alloc: Global, policy: &Policy, tx: &Tx) -> Result<Cert2, LabelFault>
    ensures obeys { IfOk result (λ cert. Rules (claim policy.now tx.now (Two cert))) }
    ensures least { IfOk result (λ cert. IsLeast version.Second policy.now tx.now (Two cert)) }
    // Each of its labels is dominated by the label at the same place in every certificate that passes.
    ensures below { IfOk result (λ cert. (other : SpecCert2) → Rules (claim policy.now tx.now (Two other))
        → Below (claim policy.now tx.now (Two cert)) (claim policy.now tx.now (Two other))) }
    // No labels: no certificate passes.
    ensures none { IfErr result (HasNone version.Second policy.now tx.now) }
    // Which rule it is that the least labels break first.
    ensures first { IfErr result (IsFirst version.Second policy.now tx.now) }
{
    match labelled(alloc, policy, tx, Version::Second)? {
        Certificate::Two(cert) => Ok(cert),
        Certificate::One(_) => unreachable!(),
    }
}
