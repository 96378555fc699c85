//! The session that a shell is to open.
ghost use Rattle.std.specs.Prelude.{◌≡◌, ◌<◌, ◌++◌, length, string_bytes, IfOk, OnOk, IfSome};
ghost use Rattle.mls_advice.specs.Excerpt.{Begins};
ghost use Rattle.mls_command.specs.Opening.{denial_at, opening_denial, denial_text};

use mls_host::Task;
use mls_lattice::{LabelNo, Policy};
use mls_machine::Denial;
use std::alloc::{AllocError, Global};

/// Why a user's session at a level would be denied, if it would.
fn denial_at(policy: &Policy, level: LabelNo, user: &str) -> Option<Denial>
    requires { level < length policy.now.labels }
    ensures { result ≡ denial_at policy.now level user.now }
{
    match policy.user(user) {
        None => Some(Denial::UnknownUser),
        Some(user) if policy.dominates(policy.clearance(user), level) => None,
        Some(_) => Some(Denial::Ss),
    }
}

/// Why the session that a shell is to open would be denied, if it would.
pub(crate) fn opening_denial(policy: &Policy, reader: Option<LabelNo>, task: Task) -> Option<Denial>
    requires { IfSome reader (λ c. c < length policy.now.labels) }
    ensures { result ≡ opening_denial policy.now reader task.entry }
{
    match (reader, task) {
        (Some(level), Task::Shell { user, .. }) => denial_at(policy, level, user),
        _ => None,
    }
}

/// Appends the line that tells a denial.
#[tactic(auto, unfolding(crate::specs::Opening::denial_text))]
fn denial_to(text: &mut String, denial: Denial) -> Result<(), AllocError>
    ensures { OnOk result (string_bytes text.new ≡ string_bytes text.old ++ denial_text denial) }
{
    let (code, word) = (denial.code(), denial.word());
    writeln!(text, "mldb: user: {code} {word}")
}

/// What is told of it: the line, a sentence, and other lines.
pub(crate) fn denied_text(
    alloc: Global,
    policy: &Policy,
    task: Task,
    denial: Denial,
    lines: &str,
) -> Result<Vec<u8>, AllocError>
    ensures { IfOk result (λ v. Begins (denial_text denial) v.items) }
{
    let mut more = denied_lines(alloc, policy, task, denial)?;
    more.push_str(lines)?;
    let mut text = String::new(alloc);
    denial_to(&mut text, denial)?;
    text.push_str(&more)?;
    Ok(text.into_bytes())
}

fn denied_lines(
    alloc: Global,
    policy: &Policy,
    task: Task,
    denial: Denial,
) -> Result<String, AllocError> {
    let Task::Shell { label, user } = task else {
        return Ok(String::new(alloc));
    };
    match (denial, policy.user(user)) {
        (Denial::Ss, Some(known)) => {
            let clearance = policy.name(policy.clearance(known));
            format!(in alloc;
                "  {user} is cleared for {clearance}, which does not dominate {label}.\n  Open a session at a label that {clearance} dominates.\n"
            )
        }
        _ => format!(in alloc;
            "  The policy has no user {user}.\n  Name a user of the policy; mldb explain POLICY SCHEMES shows them.\n"
        ),
    }
}
