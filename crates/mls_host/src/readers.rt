//! Bytes, read as what a command takes them for.
ghost use Rattle.std.specs.Prelude.{◌≡◌, length, IfOk, IfErr};
ghost use Rattle.std.specs.List.{AllByRecursion};
ghost use Rattle.mls_lattice.specs.ReadsPolicy.{ReadsPolicy};
ghost use Rattle.mls_scheme.specs.Document.{ReadsSchemes};
ghost use Rattle.mls_scheme.specs.Scheme.{AreUnder};
ghost use Rattle.mls_translang.specs.Fits.{IsReadUnder};
ghost use Rattle.mls_translang.specs.Tells.{Tells};
ghost use Rattle.mls_certcheck.specs.Spelling.{IsFile, file_text};
ghost use Rattle.mls_translang.specs.Event.{EventFits};
ghost use Rattle.mls_script.specs.Script.{ReadsScript};
ghost use Rattle.mls_host.specs.Causes.{RefusesPolicy, RefusesSchemes, RefusesTransactions, RefusesCertificates};
ghost use Rattle.mls_host.specs.Causes.{RefusesScript};

use crate::reason::Reason;
use mls_certcheck::{Certificate, certs_read};
use mls_lattice::{Items, Policy, Str};
use mls_parser::parse;
use mls_scheme::{Schemes, SchemesFile};
use mls_script::script;
use mls_translang::{Event, Tx};
use std::alloc::Global;

/// A policy.
pub(crate) fn read_policy(alloc: Global, bytes: &[u8]) -> Result<Policy, Reason>
    ensures read { IfOk result (ReadsPolicy bytes.now) }
    ensures refused { IfErr result (RefusesPolicy bytes.now) }
{
    match Policy::read(alloc, bytes) {
        Ok(policy) => Ok(policy),
        Err(fault) => Err(Reason::Policy(fault)),
    }
}

/// Schemes under a policy.
pub(crate) fn read_schemes(
    alloc: Global,
    policy: &Policy,
    bytes: &[u8],
) -> Result<SchemesFile, Reason>
    ensures read { IfOk result (λ file. ReadsSchemes policy.now bytes.now file.version file.schemes) }
    ensures under { IfOk result (λ file. AreUnder (length policy.now.labels) file.schemes) }
    ensures refused { IfErr result (RefusesSchemes policy.now bytes.now) }
{
    match SchemesFile::read(alloc, policy, bytes) {
        Ok(file) => Ok(file),
        Err(fault) => Err(Reason::Schemes(fault)),
    }
}

/// Transactions under a policy and schemes.
pub(crate) fn read_transactions(
    alloc: Global,
    policy: &Policy,
    schemes: &Schemes,
    bytes: &[u8],
) -> Result<Items<Tx>, Reason>
    ensures told { IfOk result (Tells policy.now schemes.now bytes.now) }
    ensures ok { IfOk result (AllByRecursion (IsReadUnder policy.now schemes.now)) }
    ensures refused { IfErr result (RefusesTransactions policy.now schemes.now bytes.now) }
{
    match parse(alloc, policy, schemes, bytes) {
        Ok(txs) => Ok(txs),
        Err(fault) => Err(Reason::Transactions(fault)),
    }
}

/// Certificates, with the names of their transactions.
pub(crate) fn read_certificates(
    alloc: Global,
    bytes: &[u8],
) -> Result<Vec<(Str, Certificate)>, Reason>
    ensures read { IfOk result (λ blocks. IsFile blocks.items × (bytes.now ≡ file_text blocks.items)) }
    ensures refused { IfErr result (RefusesCertificates bytes.now) }
{
    match certs_read(alloc, bytes) {
        Ok(blocks) => Ok(blocks),
        Err(fault) => Err(Reason::Certificates(fault)),
    }
}

/// The events of a script under a policy and schemes.
pub(crate) fn read_script(
    alloc: Global,
    policy: &Policy,
    schemes: &Schemes,
    bytes: &[u8],
) -> Result<Vec<Event>, Reason>
    ensures read { IfOk result (λ events. ReadsScript policy.now schemes.now bytes.now events.items) }
    ensures fits { IfOk result (λ events. AllByRecursion (EventFits policy.now schemes.now) events.items) }
    ensures refused { IfErr result (RefusesScript policy.now schemes.now bytes.now) }
{
    match script(alloc, policy, schemes, bytes) {
        Ok(events) => Ok(events),
        Err(fault) => Err(Reason::Script(fault)),
    }
}
