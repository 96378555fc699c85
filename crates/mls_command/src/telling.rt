//! What is told of an input that is refused.
ghost use Rattle.std.specs.Prelude.{◌≡◌, ◌++◌, string_bytes, IfOk, OnOk};
ghost use Rattle.mls_host.specs.Hosting.{IsTold};
ghost use Rattle.mls_host.specs.Reason.{reason_text};
ghost use Rattle.mls_command.specs.Telling.{location_of, source_of, IsLocationTold, IsToldOf};
ghost use Rattle.mls_host.specs.Telling.{IsMore};

use crate::documents::ignored_of;
use crate::looking::store_lines;
use crate::paths::{location_of, source_of};
use mls_advice::{
    Names, Slip, advice_of, command_advice, excerpt, file_line, form_at, label_name, refused_lines,
    transaction_advice,
};
use mls_host::{Errors, Host, Job, Reason, Role, Stop, policy_or_sample, schemes_or_sample};
use mls_lattice::{LabelNo, Policy, Refused};
use mls_scheme::{Schemes, SchemesFile};
use std::alloc::{AllocError, Global};
use std::io::Write;

const UNREADABLE: &str =
    "  The file is not there, or cannot be read.\n  See to the path and its rights.\n";

const TOO_LONG: &str = "  The file has more than 1,048,576 bytes.\n  Split it.\n";

const TOO_LONG_WHOLE: &str =
    "  The file has more than 1,048,576 bytes.\n  Take something out: it cannot be split.\n";

const NO_LABEL: &str = "  The policy has no label of this name.\n  Name a label of the policy.\n";

const NO_USER: &str = "  What stands for the user is no name.\n  Name a user of the policy.\n";

const NO_TRANSACTION: &str = "  No transaction has this name.\n  Name one that the file has.\n";

/// So many labels are listed at most.
const MOST_LABELS: usize = 16;

/// What a stop means, and what to do; that of a policy and of schemes stands with the field, that of a text with
/// the place.
fn advice(reason: &Reason) -> &'static str {
    match reason {
        Reason::Unreadable(_) => UNREADABLE,
        Reason::TooLong(Role::Policy | Role::Schemes) => TOO_LONG_WHOLE,
        Reason::TooLong(_) => TOO_LONG,
        Reason::Certificates(fault) => advice_of(fault.cause.code()),
        Reason::Reader | Reason::Label => NO_LABEL,
        Reason::User => NO_USER,
        Reason::Name => NO_TRANSACTION,
        Reason::Policy(_)
        | Reason::Schemes(_)
        | Reason::Transactions(_)
        | Reason::Script(_)
        | Reason::Store(_)
        | Reason::Memory => "",
    }
}

/// What is told of a text, of a script or of transactions, under a policy and schemes: the names that could stand
/// at a place, and what to do.
fn advice_under(
    alloc: Global,
    policy: &Policy,
    schemes: &Schemes,
    reason: &Reason,
    slip: Slip<'_>,
) -> Result<String, AllocError> {
    let names = Names {
        alloc,
        policy,
        schemes,
    };
    match reason {
        Reason::Transactions(_) => transaction_advice(names, slip),
        _ => command_advice(names, slip),
    }
}

/// The same under the policy and the schemes of a job; what to do alone, where the host no longer gives these.
fn advice_at<H: Host>(
    alloc: Global,
    host: &H,
    job: Job,
    reason: &Reason,
    slip: Slip<'_>,
) -> Result<String, AllocError> {
    let Ok(policy) = policy_or_sample(alloc, host, job.documents) else {
        return String::from_str(alloc, advice_of(slip.code));
    };
    match schemes_or_sample(alloc, host, &policy, job.documents) {
        Ok(file) => advice_under(alloc, &policy, &file.schemes, reason, slip),
        Err(_) => String::from_str(alloc, advice_of(slip.code)),
    }
}

/// What is told beside a place of a text, behind the form of a script's command.
fn hint_of<H: Host>(
    alloc: Global,
    host: &H,
    job: Job,
    reason: &Reason,
    bytes: &[u8],
) -> Result<String, AllocError> {
    let (code, line, column) = match reason {
        Reason::Script(fault) => (fault.cause.code(), fault.line, fault.column),
        Reason::Transactions(fault) => (fault.cause.code(), fault.line, fault.column),
        _ => return Ok(String::new(alloc)),
    };
    let mut text = String::new(alloc);
    if let Reason::Script(_) = reason
        && code == 22
    {
        text.push_str(form_at(line, bytes))?;
    }
    let slip = Slip {
        code,
        line,
        column,
        bytes,
    };
    text.push_str(&advice_at(alloc, host, job, reason, slip)?)?;
    Ok(text)
}

/// What is told of a policy or of schemes with these bytes, which are read once more to say where reading stopped.
fn document_lines<H: Host>(
    alloc: Global,
    host: &H,
    job: Job,
    reason: &Reason,
    path: &str,
    bytes: &[u8],
) -> Result<String, AllocError> {
    if let Reason::Policy(_) = reason {
        return match Policy::read_at(alloc, bytes) {
            Ok(_) => file_line(alloc, path),
            Err(Refused { fault, at }) => {
                refused_lines(alloc, path, None, bytes, fault.code(), at.steps())
            }
        };
    }
    let Ok(policy) = policy_or_sample(alloc, host, job.documents) else {
        return file_line(alloc, path);
    };
    match SchemesFile::read_at(alloc, &policy, bytes) {
        Ok(_) => file_line(alloc, path),
        Err(Refused { fault, at }) => {
            refused_lines(alloc, path, Some(&policy), bytes, fault.code(), at.steps())
        }
    }
}

/// What is told of a file with these bytes.
fn lines_of_file<H: Host>(
    alloc: Global,
    host: &H,
    job: Job,
    reason: &Reason,
    path: &str,
    bytes: &[u8],
) -> Result<String, AllocError>
    ensures { IfOk result (λ s. IsLocationTold (Some path.now) (location_of reason.now) (string_bytes s)) }
{
    match (reason, location_of(reason)) {
        (_, Some(location)) => {
            let mut text = excerpt(alloc, path, location.line, location.column, true, bytes)?;
            text.push_str(&hint_of(alloc, host, job, reason, bytes)?)?;
            Ok(text)
        }
        (Reason::Policy(_) | Reason::Schemes(_), None) => {
            document_lines(alloc, host, job, reason, path, bytes)
        }
        _ => file_line(alloc, path),
    }
}

/// The labels of a policy in a line, if they are not too many.
fn labels_line(alloc: Global, policy: &Policy) -> Result<String, AllocError> {
    let mut text = String::new(alloc);
    if policy.label_count() > MOST_LABELS {
        return Ok(text);
    }
    let mut front = "  The labels are ";
    for place in 0..policy.label_count() {
        text.push_str(front)?;
        text.push_str(label_name(policy, LabelNo::new(place as u8)))?;
        front = ", ";
    }
    text.push_str(".\n")?;
    Ok(text)
}

/// The names that could stand where one of the words of the command is refused.
fn names_of<H: Host>(
    alloc: Global,
    host: &H,
    job: Job,
    reason: &Reason,
) -> Result<String, AllocError> {
    match reason {
        Reason::Reader | Reason::Label => {}
        _ => return Ok(String::new(alloc)),
    }
    match policy_or_sample(alloc, host, job.documents) {
        Ok(policy) => labels_line(alloc, &policy),
        Err(_) => Ok(String::new(alloc)),
    }
}

/// What is told of the file that is refused, if one is; its name alone, where the host no longer gives it. Where a
/// word is refused, the names that could stand there.
fn file_lines<H: Host>(
    alloc: Global,
    host: &H,
    job: Job,
    reason: &Reason,
) -> Result<String, AllocError>
    ensures { IfOk result
        (λ s. IsLocationTold (source_of job.entry reason.now) (location_of reason.now) (string_bytes s)) }
{
    match source_of(job, reason) {
        None => Ok(names_of(alloc, host, job, reason)?),
        Some(path) => match host.file(alloc, path) {
            Ok(bytes) => lines_of_file(alloc, host, job, reason, path, &bytes),
            Err(_) => file_line(alloc, path),
        },
    }
}

/// All that is told behind the line of a stop: where it is, what it means, what to do, and which fields nobody reads.
fn lines_of<H: Host>(
    alloc: Global,
    host: &H,
    job: Job,
    reason: &Reason,
) -> Result<String, AllocError>
    ensures { IfOk result
        (λ s. IsLocationTold (source_of job.entry reason.now) (location_of reason.now) (string_bytes s)) }
{
    let mut text = file_lines(alloc, host, job, reason)?;
    text.push_str(advice(reason))?;
    text.push_str(&ignored_of(alloc, host, job.documents)?)?;
    Ok(text)
}

pub(crate) fn push_reason(text: &mut Vec<u8>, reason: &Reason) -> Result<(), AllocError>
    ensures { OnOk result (text.new.items ≡ text.old.items ++ reason_text reason.now) }
{
    match reason.tell(text) {
        Ok(()) => Ok(()),
        Err(_) => Err(AllocError),
    }
}

/// The line that tells a stop; where it is; and what it means.
pub(crate) fn told_of<H: Host>(
    alloc: Global,
    host: &H,
    job: Job,
    reason: &Reason,
) -> Result<Vec<u8>, AllocError>
    ensures { IfOk result (λ v. IsToldOf job.entry reason.now v.items) }
{
    let lines = lines_of(alloc, host, job, reason)?;
    let mut text = Vec::new(alloc);
    push_reason(&mut text, reason)?;
    text.extend_from_slice(lines.as_bytes())?;
    Ok(text)
}

/// What is told behind the line of a refusal of a command.
fn stop_lines<H: Host>(
    alloc: Global,
    host: &H,
    job: Job,
    stop: &Stop,
) -> Result<Vec<u8>, AllocError> {
    match stop {
        Stop::Before(Reason::Store(_)) => store_lines(alloc, host, job),
        Stop::Before(reason) => Ok(lines_of(alloc, host, job, reason)?.into_bytes()),
        _ => Ok(Vec::new(alloc)),
    }
}

/// Explains a stop, where somebody reads it at a terminal; want of memory leaves it as it was told.
pub(crate) fn explain_stop<H: Host, E: Write>(
    alloc: Global,
    host: &H,
    job: Job,
    stop: &Stop,
    is_watched: bool,
    err: &mut Errors<E>,
)
    ensures { IsMore is_watched (IsTold E.contents err.old err.new) }
{
    if !is_watched {
        return;
    }
    if let Ok(text) = stop_lines(alloc, host, job, stop) {
        err.tell(&text);
    }
}
