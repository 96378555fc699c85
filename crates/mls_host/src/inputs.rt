//! Files, read as what a command takes them for.
ghost use Rattle.std.specs.Prelude.{◌≡◌, ◌<◌, length, Some, IfOk, IfErr, IfSome};
ghost use Rattle.std.specs.List.{AllByRecursion};
ghost use Rattle.mls_scheme.specs.Scheme.{AreUnder};
ghost use Rattle.mls_translang.specs.Fits.{IsReadUnder};
ghost use Rattle.mls_lattice.specs.ReadsPolicy.{ReadsPolicy};
ghost use Rattle.mls_scheme.specs.Document.{ReadsSchemes};
ghost use Rattle.mls_translang.specs.Event.{EventFits};
ghost use Rattle.mls_host.specs.Causes.{IsNotGiven, IsInputRefused, RefusesPolicy, RefusesSchemes, IsPolicyRefused};
ghost use Rattle.mls_host.specs.Causes.{AreSchemesRefused, AreTransactionsRefused, AreCertificatesRefused};
ghost use Rattle.mls_host.specs.Causes.{IsScriptRefused, AreEventsRefused, no_reader, IsReaderUnknown};
ghost use Rattle.mls_host.specs.Inputs.{IsFrom, IsPolicyOf, AreSchemesOf, IsReader, AreToldIn, AreBlocksIn};
ghost use Rattle.mls_host.specs.Inputs.{AreTransactionsFrom, AreCertificatesFrom, IsScriptFrom, AreEventsOf};
ghost use Rattle.mls_host.specs.Words.{named};

use crate::host::{Host, HostFault};
use crate::readers::{
    read_certificates, read_policy, read_schemes, read_script, read_transactions,
};
use crate::reason::{Reason, Role};
use crate::samples;
use crate::words::{Documents, Job, Task};
use mls_certcheck::Certificate;
use mls_lattice::{Items, LabelNo, Policy, Str};
use mls_scheme::{Schemes, SchemesFile};
use mls_translang::{Event, Tx};
use std::alloc::Global;

/// What the host gives for a file, or, with no path, for the standard input.
fn given_of<H: Host>(alloc: Global, host: &H, path: Option<&str>) -> Result<Vec<u8>, HostFault>
    ensures given { IfOk result (λ bytes. (H.hosting host.now).gives (named path.entry) bytes.items) }
    ensures lacking { IfErr result ((H.hosting host.now).lacks (named path.entry)) }
{
    match path {
        Some(path) => host.file(alloc, path),
        None => host.input(alloc),
    }
}

/// The bytes of a file, or, with no path, of the standard input.
fn input_of<H: Host>(
    alloc: Global,
    host: &H,
    role: Role,
    path: Option<&str>,
) -> Result<Vec<u8>, Reason>
    ensures given { IfOk result (λ bytes. (H.hosting host.now).gives (named path.entry) bytes.items) }
    ensures refused { IfErr result (IsNotGiven (H.hosting host.now) role (named path.entry)) }
{
    match given_of(alloc, host, path) {
        Ok(bytes) => Ok(bytes),
        Err(fault) => Err(Reason::of_input(role, fault)),
    }
}

/// The policy of a file.
fn policy_of_file<H: Host>(alloc: Global, host: &H, path: &str) -> Result<Policy, Reason>
    ensures policy { IfOk result (λ policy. IsFrom (H.hosting host.now).gives (Some path.now)
        (λ bytes. ReadsPolicy bytes policy)) }
    ensures refused { IfErr result (IsInputRefused (H.hosting host.now) Role.Policy (Some path.now) RefusesPolicy) }
{
    let bytes = input_of(alloc, host, Role::Policy, Some(path))?;
    read_policy(alloc, &bytes)
}

/// The policy of a file, or that of the samples.
pub fn policy_or_sample<H: Host>(
    alloc: Global,
    host: &H,
    documents: Option<Documents>,
) -> Result<Policy, Reason>
    ensures policy { IfOk result (IsPolicyOf (H.hosting host.now).gives documents.entry) }
    ensures refused { IfErr result (IsPolicyRefused (H.hosting host.now) documents.entry) }
{
    match documents {
        None => read_policy(alloc, samples::POLICY.as_bytes()),
        Some(files) => policy_of_file(alloc, host, files.policy),
    }
}

/// The schemes of a file.
fn schemes_of_file<H: Host>(
    alloc: Global,
    host: &H,
    policy: &Policy,
    path: &str,
) -> Result<SchemesFile, Reason>
    ensures schemes { IfOk result (λ file. IsFrom (H.hosting host.now).gives (Some path.now)
        (λ bytes. ReadsSchemes policy.now bytes file.version file.schemes)) }
    ensures under { IfOk result (λ file. AreUnder (length policy.now.labels) file.schemes) }
    ensures refused { IfErr result (IsInputRefused (H.hosting host.now) Role.Schemes (Some path.now)
        (RefusesSchemes policy.now)) }
{
    let bytes = input_of(alloc, host, Role::Schemes, Some(path))?;
    read_schemes(alloc, policy, &bytes)
}

/// The schemes of a file, or those of the samples.
pub fn schemes_or_sample<H: Host>(
    alloc: Global,
    host: &H,
    policy: &Policy,
    documents: Option<Documents>,
) -> Result<SchemesFile, Reason>
    ensures schemes { IfOk result (AreSchemesOf (H.hosting host.now).gives documents.entry policy.now) }
    ensures under { IfOk result (λ file. AreUnder (length policy.now.labels) file.schemes) }
    ensures refused { IfErr result (AreSchemesRefused (H.hosting host.now) documents.entry policy.now) }
{
    match documents {
        None => read_schemes(alloc, policy, samples::SCHEMES.as_bytes()),
        Some(files) => schemes_of_file(alloc, host, policy, files.schemes),
    }
}

/// Why a task has no reader.
fn no_reader(task: Task) -> Reason
    ensures { result ≡ no_reader task.entry }
{
    match task {
        Task::Shell { .. } => Reason::Label,
        _ => Reason::Reader,
    }
}

/// The label of the name for which alone a task prints, if it names one.
pub(crate) fn reader_of(policy: &Policy, task: Task) -> Result<Option<LabelNo>, Reason>
    ensures named { IfOk result (IsReader policy.now task.entry) }
    ensures declared { IfOk result (λ reader. IfSome reader (λ c. c < length policy.now.labels)) }
    ensures unknown { IfErr result (IsReaderUnknown policy.now task.entry) }
{
    match task.at() {
        None => Ok(None),
        Some(name) => match policy.label(name) {
            Some(label) => Ok(Some(label)),
            None => Err(no_reader(task)),
        },
    }
}

/// The transactions of a file.
fn transactions_of_file<H: Host>(
    alloc: Global,
    host: &H,
    policy: &Policy,
    schemes: &Schemes,
    path: &str,
) -> Result<Items<Tx>, Reason>
    ensures told { IfOk result (AreToldIn (H.hosting host.now).gives path.now policy.now schemes.now) }
    ensures ok { IfOk result (AllByRecursion (IsReadUnder policy.now schemes.now)) }
    ensures refused { IfErr result (AreTransactionsRefused (H.hosting host.now)
        (Some path.now) policy.now schemes.now) }
{
    let bytes = input_of(alloc, host, Role::Transactions, Some(path))?;
    read_transactions(alloc, policy, schemes, &bytes)
}

/// The transactions of a file, if one is named.
pub(crate) fn transactions_if_named<H: Host>(
    alloc: Global,
    host: &H,
    policy: &Policy,
    schemes: &Schemes,
    path: Option<&str>,
) -> Result<Items<Tx>, Reason>
    ensures told { IfOk result (AreTransactionsFrom (H.hosting host.now).gives
        (named path.entry) policy.now schemes.now) }
    ensures ok { IfOk result (AllByRecursion (IsReadUnder policy.now schemes.now)) }
    ensures refused { IfErr result (AreTransactionsRefused (H.hosting host.now)
        (named path.entry) policy.now schemes.now) }
{
    match path {
        None => Ok(Items::from(Vec::new(alloc))),
        Some(path) => transactions_of_file(alloc, host, policy, schemes, path),
    }
}

/// The certificates of a file, with the names of their transactions.
fn certificates_of_file<H: Host>(
    alloc: Global,
    host: &H,
    path: &str,
) -> Result<Vec<(Str, Certificate)>, Reason>
    ensures blocks { IfOk result (λ blocks. AreBlocksIn (H.hosting host.now).gives path.now blocks.items) }
    ensures refused { IfErr result (AreCertificatesRefused (H.hosting host.now) (Some path.now)) }
{
    let bytes = input_of(alloc, host, Role::Certificates, Some(path))?;
    read_certificates(alloc, &bytes)
}

/// The certificates of a file, if one is named.
pub(crate) fn certificates_if_named<H: Host>(
    alloc: Global,
    host: &H,
    path: Option<&str>,
) -> Result<Vec<(Str, Certificate)>, Reason>
    ensures blocks { IfOk result (λ blocks. AreCertificatesFrom (H.hosting host.now).gives
        (named path.entry) blocks.items) }
    ensures refused { IfErr result (AreCertificatesRefused (H.hosting host.now) (named path.entry)) }
{
    match path {
        None => Ok(Vec::new(alloc)),
        Some(path) => certificates_of_file(alloc, host, path),
    }
}

/// The events of a script, in a file or on the standard input.
fn events_of_script<H: Host>(
    alloc: Global,
    host: &H,
    policy: &Policy,
    schemes: &Schemes,
    path: Option<&str>,
) -> Result<Vec<Event>, Reason>
    ensures read { IfOk result (λ events. IsScriptFrom (H.hosting host.now).gives
        (named path.entry) policy.now schemes.now events.items) }
    ensures fits { IfOk result (λ events. AllByRecursion (EventFits policy.now schemes.now) events.items) }
    ensures refused { IfErr result (IsScriptRefused (H.hosting host.now) (named path.entry) policy.now schemes.now) }
{
    let bytes = input_of(alloc, host, Role::Script, path)?;
    read_script(alloc, policy, schemes, &bytes)
}

/// The events of the script of a run; no other task has any.
pub(crate) fn events_of<H: Host>(
    alloc: Global,
    host: &H,
    policy: &Policy,
    schemes: &Schemes,
    job: Job,
) -> Result<Vec<Event>, Reason>
    ensures read { IfOk result (λ events. AreEventsOf (H.hosting host.now).gives job.entry.task
        (named job.entry.files.script) policy.now schemes.now events.items) }
    ensures fits { IfOk result (λ events. AllByRecursion (EventFits policy.now schemes.now) events.items) }
    ensures refused { IfErr result (AreEventsRefused (H.hosting host.now) job.entry.task (named job.entry.files.script)
        policy.now schemes.now) }
{
    match job.task {
        Task::Run { .. } => events_of_script(alloc, host, policy, schemes, job.files.script),
        _ => Ok(Vec::new(alloc)),
    }
}
