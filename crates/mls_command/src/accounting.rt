//! What becomes of the inputs of a command that is explained.
ghost use Rattle.std.specs.Prelude.{◌≡◌, ◌⊎◌, [], string_bytes, IfOk, IfErr};
ghost use Rattle.mls_host.specs.Deed.{deed};
ghost use Rattle.mls_host.specs.Hosting.{IsAppended, IsTold};
ghost use Rattle.mls_host.specs.Reading.{AreInputs};
ghost use Rattle.mls_host.specs.declared.reason.Reason.TheVariants.{Memory};
ghost use Rattle.mls_host.specs.Reason.{reason_status};
ghost use Rattle.mls_command.specs.Accounting.{IsRefusalTold, Accounts, IsUnread, IsAccountOf};
ghost use Rattle.mls_command.specs.Answering.{IsFinished};

use crate::documents::Advises;
use crate::listing::Listing;
use crate::looking::store_account;
use crate::opening::{denied_text, opening_denial};
use crate::telling::told_of;
use mls_advice::{Names, unnamed_objects};
use mls_host::{Ending, Errors, Host, Inputs, Job, Reason, Stop, inputs_of};
use std::alloc::{AllocError, Global};
use std::io::Write;

/// A text that is printed, where nothing is told on standard error.
pub(crate) fn listing_of(alloc: Global, text: Vec<u8>, ending: Ending) -> Listing
    ensures text { result.text.items ≡ text.items }
    ensures told { string_bytes result.told ≡ [] }
    ensures end { result.ending ≡ ending }
{
    Listing {
        text,
        told: String::new(alloc),
        ending,
    }
}

/// Rights to what neither the schemes nor the transactions have, a line for each; none where no transactions are named.
fn objects_lines(alloc: Global, job: Job, inputs: &Inputs) -> Result<String, AllocError> {
    if job.files.transactions.is_none() {
        return Ok(String::new(alloc));
    }
    let mut names = Vec::new(alloc);
    for tx in inputs.transactions.iter() {
        names.push(tx.name())?;
    }
    let known = Names {
        alloc,
        policy: &inputs.setting.policy,
        schemes: &inputs.setting.file.schemes,
    };
    unnamed_objects(known, &names)
}

/// What is told where all inputs are accepted, with the fields that nobody reads: of the session of a shell, where that
/// would be denied;
/// else of the store, where the job names one.
fn accepted_listing<H: Advises>(
    alloc: Global,
    host: &H,
    job: Job,
    inputs: &Inputs,
) -> Result<Listing, AllocError>
    requires { AreInputs (H.hosting host.now) job inputs.now }
    ensures { IfOk result (λ l. Accounts (H.hosting host.now) job.entry l.text.items (string_bytes l.told) l.ending) }
{
    let setting = &inputs.setting;
    let ignored = host.ignored(alloc, job.documents)?;
    let objects = objects_lines(alloc, job, inputs)?;
    match opening_denial(&setting.policy, setting.reader, job.task) {
        Some(denial) => {
            let text = denied_text(alloc, &setting.policy, job.task, denial, &ignored)?;
            Ok(listing_of(alloc, text, Ending::Refused))
        }
        None => store_account(
            alloc,
            host,
            setting,
            job.task,
            job.files.store,
            &ignored,
            &objects,
        ),
    }
}

/// What is told where one is refused, but for want of memory.
pub(crate) fn refused_listing<H: Host>(
    alloc: Global,
    host: &H,
    job: Job,
    reason: Reason,
) -> Result<Listing, Reason>
    ensures told { IfOk result (λ l. IsRefusalTold job.entry reason l.text.items (string_bytes l.told) l.ending) }
    ensures same { IfErr result (λ e. (e ≡ reason) ⊎ (e ≡ Memory)) }
    ensures memory { IfErr result (λ e. reason_status e ≡ 3) }
{
    if reason.status() == 3 {
        return Err(reason);
    }
    let text = told_of(alloc, host, job, &reason)?;
    Ok(listing_of(alloc, text, Ending::Refused))
}

/// What is told of the inputs of a command.
fn account<H: Advises>(alloc: Global, host: &H, job: Job) -> Result<Listing, Reason>
    ensures told { IfOk result (λ l. Accounts (H.hosting host.now) job.entry l.text.items
        (string_bytes l.told) l.ending) }
    ensures unread { IfErr result (IsUnread (H.hosting host.now) job.entry) }
{
    match inputs_of(alloc, host, job) {
        Ok(inputs) => Ok(accepted_listing(alloc, host, job, &inputs)?),
        Err(reason) => refused_listing(alloc, host, job, reason),
    }
}

/// Prints what is told of the inputs of a command.
fn print_account<H: Advises, W: Write, E: Write>(
    alloc: Global,
    host: &H,
    job: Job,
    out: &mut W,
    err: &mut Errors<E>,
) -> Result<Ending, Stop>
    ensures { IsAccountOf (H.hosting host.now) job.entry
        (deed W.contents out.old out.new E.contents err.old err.new result) }
{
    account(alloc, host, job)?.print(out, err)
}

/// Explains the inputs of a command, and answers the exit status.
pub(crate) fn finish_account<H: Advises, W: Write, E: Write>(
    alloc: Global,
    job: Job,
    host: &H,
    out: &mut W,
    err: &mut Errors<E>,
) -> u8
    ensures { IsFinished (H.hosting host.now).is_watched (IsAccountOf (H.hosting host.now) job.entry)
        (IsAppended W.contents out.old out.new) (IsTold E.contents err.old err.new) result }
{
    match print_account(alloc, host, job, out, err) {
        Ok(ending) => ending.status(),
        Err(stop) => {
            err.tell_stop(&stop);
            stop.status()
        }
    }
}
