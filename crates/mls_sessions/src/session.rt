//! Open sessions.
ghost use Rattle.std.specs.Prelude.{◌≡◌, ◌<◌, None, length, IfOk, IfErr, IfSome, OnErr};
ghost use Rattle.mls_machine.specs.Denying.{user_named};
ghost use Rattle.mls_machine.specs.Machine.{with_session, step_outside};
ghost use Rattle.mls_machine.specs.Printable.{ReplyIsKnown};
ghost use Rattle.mls_sessions.specs.Sessions.{site_of_run, sessions_of, AreForUsers, IsSessionStep};

use crate::denying::clearance;
use crate::site::Site;
use mls_filterview::BaseFault;
use mls_lattice::{LabelNo, Policy, Str, UserNo};
use mls_machine::{Denial, Reply};
use mls_translang::{Command, Event};

/// An open session: its level and its name, and the user that it is open for.
#[derive(Drop)]
pub(crate) struct Session {
    level: LabelNo,
    name: Str,
    user: UserNo,
}

/// The user of the open session of a level and a name.
pub(crate) fn user_of(sessions: &[Session], level: LabelNo, name: &str) -> Option<UserNo>
    ensures { result ≡ sessions_of sessions.now level name.now }
{
    for session in sessions {
        if level == session.level && name == session.name.as_str() {
            return Some(session.user);
        }
    }
    None
}

/// The user of a name.
fn known_user(policy: &Policy, name: &str) -> Option<UserNo>
    ensures exact { result ≡ user_named policy.now name.now }
    ensures within { IfSome result (λ user. user < length policy.now.users) }
{
    policy.user(name)
}

/// Answers an event whose session is not open: opens it, where the command is to open it and is not denied.
pub(crate) fn open(
    site: &Site,
    sessions: &mut Vec<Session>,
    event: &Event,
) -> Result<Reply, BaseFault>
    requires level { event.now.level < length site.now.policy.now.labels }
    requires closed { sessions_of sessions.old.items event.now.level event.now.session ≡ None }
    ensures done { IfOk result (IsSessionStep (λ w. step_outside (site_of_run site.now) w event.now event.now.command)
        sessions.old.items sessions.new.items) }
    ensures known { IfOk result (ReplyIsKnown site.now.policy.now) }
    ensures users { AreForUsers (length site.now.policy.now.users) sessions.old.items
        → AreForUsers (length site.now.policy.now.users) sessions.new.items }
    ensures memory { IfErr result (λ e. e ≡ BaseFault.Memory) }
    ensures failed { OnErr result (sessions.new.items ≡ sessions.old.items) }
{
    let Command::Open(name) = &event.command else {
        return Ok(Reply::Denied(Denial::NoSession));
    };
    let Some(user) = known_user(site.policy, name) else {
        return Ok(Reply::Denied(Denial::UnknownUser));
    };
    if !site
        .policy
        .dominates(clearance(site.policy, user), event.level)
    {
        return Ok(Reply::Denied(Denial::Ss));
    }
    let name = Str::copy_of(site.alloc, &event.session)?;
    sessions.push(Session {
        level: event.level,
        name,
        user,
    })?;
    Ok(Reply::Opened(user))
}

/// Closes the session of a level and a name. It takes no memory.
pub(crate) fn close(sessions: &mut Vec<Session>, level: LabelNo, name: &str)
    ensures closed { sessions_of sessions.new.items
        ≡ with_session (sessions_of sessions.old.items) level name.now None }
    ensures users { (count : _) → AreForUsers count sessions.old.items → AreForUsers count sessions.new.items }
{
    sessions.retain(|session| level != session.level || name != session.name.as_str());
}
