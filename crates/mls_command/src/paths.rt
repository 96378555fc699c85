//! Which file of a command is refused, and at which place.
ghost use Rattle.std.specs.Prelude.{◌≡◌};
ghost use Rattle.mls_host.specs.Words.{named};
ghost use Rattle.mls_command.specs.Telling.{location_of, role_of, policy_of, schemes_of, path_of, source_of};

use mls_host::{Job, Reason, Role};

/// A line of an input, and a place in it.
#[derive(Clone, Copy)]
pub(crate) struct Location {
    pub line: usize,
    pub column: Option<usize>,
}

/// Where a fault says that it stands, if it says so.
pub(crate) fn location_of(reason: &Reason) -> Option<Location>
    ensures { result ≡ location_of reason.now }
{
    match reason {
        Reason::Transactions(fault) => Some(Location {
            line: fault.line,
            column: Some(fault.column),
        }),
        Reason::Certificates(fault) => Some(Location {
            line: fault.line,
            column: None,
        }),
        Reason::Script(fault) => Some(Location {
            line: fault.line,
            column: Some(fault.column),
        }),
        _ => None,
    }
}

/// Which input is refused, where one is.
fn role_of(reason: &Reason) -> Option<Role>
    ensures { result ≡ role_of reason.now }
{
    match reason {
        Reason::Unreadable(role) | Reason::TooLong(role) => Some(*role),
        Reason::Policy(_) => Some(Role::Policy),
        Reason::Schemes(_) => Some(Role::Schemes),
        Reason::Transactions(_) => Some(Role::Transactions),
        Reason::Certificates(_) => Some(Role::Certificates),
        Reason::Script(_) => Some(Role::Script),
        _ => None,
    }
}

fn policy_of<'a>(job: Job<'a>) -> Option<&'a str>
    ensures { named result ≡ policy_of job.entry.documents }
{
    match job.documents {
        Some(documents) => Some(documents.policy),
        None => None,
    }
}

fn schemes_of<'a>(job: Job<'a>) -> Option<&'a str>
    ensures { named result ≡ schemes_of job.entry.documents }
{
    match job.documents {
        Some(documents) => Some(documents.schemes),
        None => None,
    }
}

/// The file of an input.
fn path_of<'a>(job: Job<'a>, role: Role) -> Option<&'a str>
    ensures { named result ≡ path_of job.entry role }
{
    match role {
        Role::Policy => policy_of(job),
        Role::Schemes => schemes_of(job),
        Role::Transactions => job.files.transactions,
        Role::Certificates => job.files.certificates,
        Role::Script => job.files.script,
        Role::Store => None,
    }
}

/// The file that is refused.
pub(crate) fn source_of<'a>(job: Job<'a>, reason: &Reason) -> Option<&'a str>
    ensures { named result ≡ source_of job.entry reason.now }
{
    match role_of(reason) {
        Some(role) => path_of(job, role),
        None => None,
    }
}
