//! A job's inputs, read in their order, for who does the job and for who explains it.
ghost use Rattle.std.specs.Prelude.{IfOk, IfErr, OnOk};
ghost use Rattle.mls_host.specs.Reading.{HasUser, IsUserRefused, IsSetting, IsSettingRefused, AreContents};
ghost use Rattle.mls_host.specs.Reading.{AreContentsRefused, AreInputs, AreInputsRefused, FitSetting};

use crate::host::Host;
use crate::inputs::{
    certificates_if_named, events_of, policy_or_sample, reader_of, schemes_or_sample,
    transactions_if_named,
};
use crate::job::{Inputs, Setting};
use crate::reason::Reason;
use crate::words::{Job, Task};
use mls_certcheck::Certificate;
use mls_lattice::{Items, Str, is_name};
use mls_translang::{Event, Tx};
use std::alloc::Global;

/// Transactions, certificates with the names of theirs, and events.
type Contents = (Items<Tx>, Items<(Str, Certificate)>, Items<Event>);

/// The policy, the reader and the schemes of a job. No other file is read.
pub fn setting_of<H: Host>(alloc: Global, host: &H, job: Job) -> Result<Setting, Reason>
    ensures read { IfOk result (IsSetting (H.hosting host.now) job.entry) }
    ensures refused { IfErr result (IsSettingRefused (H.hosting host.now) job.entry) }
{
    let policy = policy_or_sample(alloc, host, job.documents)?;
    let reader = reader_of(&policy, job.task)?;
    let file = schemes_or_sample(alloc, host, &policy, job.documents)?;
    Ok(Setting {
        policy,
        file,
        reader,
    })
}

/// Looks whether what stands for the user of a shell is a name.
fn check_user(task: Task) -> Result<(), Reason>
    ensures named { OnOk result (HasUser task.entry) }
    ensures refused { IfErr result (IsUserRefused task.entry) }
{
    match task {
        Task::Shell { user, .. } if !is_name(user) => Err(Reason::User),
        _ => Ok(()),
    }
}

/// What stands in the other files of a job.
fn contents_of<H: Host>(
    alloc: Global,
    host: &H,
    setting: &Setting,
    job: Job,
) -> Result<Contents, Reason>
    ensures read { IfOk result (λ c. AreContents (H.hosting host.now) job.entry setting.now c.0 c.1 c.2) }
    ensures fit { IfOk result (λ c. FitSetting setting.now c.0 c.2) }
    ensures refused { IfErr result (AreContentsRefused (H.hosting host.now) job.entry setting.now) }
{
    check_user(job.task)?;
    let (policy, schemes) = (&setting.policy, &setting.file.schemes);
    let transactions = transactions_if_named(alloc, host, policy, schemes, job.files.transactions)?;
    let certificates = certificates_if_named(alloc, host, job.files.certificates)?;
    let events = events_of(alloc, host, policy, schemes, job)?;
    Ok((transactions, Items::from(certificates), Items::from(events)))
}

/// Reads what a job reads, in its order, up to the first input that is refused. No store is opened.
/// The label of `--at` is looked up right after the policy, long before a store is made.
pub fn inputs_of<H: Host>(alloc: Global, host: &H, job: Job) -> Result<Inputs, Reason>
    ensures read { IfOk result (AreInputs (H.hosting host.now) job.entry) }
    ensures fit { IfOk result (λ i. FitSetting i.setting i.transactions i.events) }
    ensures refused { IfErr result (AreInputsRefused (H.hosting host.now) job.entry) }
{
    let setting = setting_of(alloc, host, job)?;
    let (transactions, certificates, events) = contents_of(alloc, host, &setting, job)?;
    Ok(Inputs {
        setting,
        transactions,
        certificates,
        events,
    })
}
