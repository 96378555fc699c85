//! Events that change the base: denials, which are entered, writes and calls. Each is one change.
ghost use Rattle.std.specs.Prelude.{◌≡◌, ◌<◌, true, false, length, IfOk, OnOk};
ghost use Rattle.mls_audit.specs.Spelling.{HasSpelling, entry_spelling};
ghost use Rattle.mls_translang.specs.Event.{EventFits};
ghost use Rattle.mls_machine.specs.Machine.{denial_entry};
ghost use Rattle.mls_lattice.specs.Policy.{labels_of};
ghost use Rattle.mls_filterview.specs.Calls.{NoAccess, NoWriteDown};
ghost use Rattle.mls_sessions.specs.Access.{IsPermitted};
ghost use Rattle.mls_sessions.specs.Sessions.{site_of_run};
ghost use Rattle.mls_sessions.specs.Turns.{MayDo, Steps, EndsChange, IsOpen, HasDone};
ghost use Rattle.mls_queries.specs.Views.{AreViews};

use crate::calling::{bytes_of, call};
use crate::site::Site;
use mls_audit::Deed;
use mls_filterview::{Base, BaseFault, settle};
use mls_lattice::{Str, UserNo};
use mls_machine::{Denial, Reply};
use mls_queries::Views;
use mls_translang::{Command, Event};
use std::alloc::AllocError;

/// What an event of an open session changes.
#[derive(Clone, Copy)]
pub(crate) enum Effect {
    /// It is denied, in the session of this user.
    Deny { user: UserNo, denial: Denial },
    /// It writes.
    Write,
    /// It calls a transaction, in the session of this user.
    Call { user: UserNo },
}

/// The bytes of the entry of a denial.
fn denial_bytes(
    site: &Site,
    event: &Event,
    user: UserNo,
    denial: Denial,
) -> Result<Vec<u8>, AllocError>
    requires user { user < length site.now.policy.now.users }
    requires fits { EventFits site.now.policy.now site.now.schemes.now event.now }
    ensures bytes { IfOk result (λ v. v.items ≡ entry_spelling
        (denial_entry (site_of_run site.now) event.now user denial)) }
    ensures spelled { OnOk result (HasSpelling (denial_entry (site_of_run site.now) event.now user denial)) }
{
    bytes_of(site, event, event.level, user, Deed::Denied(denial.code()))
}

/// Enters a denial in the audit list, inside a change.
fn enter<B: Base>(
    site: &Site,
    base: &mut B,
    event: &Event,
    user: UserNo,
    denial: Denial,
) -> Result<Reply, BaseFault>
    requires begun { (B.seen base.old).state.begun ≡ true }
    requires may { MayDo (site_of_run site.now) event.now (Effect.Deny user denial) }
    ensures step { Steps B.seen base.old base.new result }
    ensures access { NoAccess B.seen base.old base.new }
    ensures done { HasDone B.seen (site_of_run site.now) event.now (Effect.Deny user denial) base.old base.new
        result }
{
    let bytes = settle(base, denial_bytes(site, event, user, denial))?;
    base.audit_add(&bytes)?;
    Ok(Reply::Denied(denial))
}

/// Makes the write of an event at its level, inside a change, and notes it in the views that it may have changed.
fn write<B: Base>(
    site: &Site,
    base: &mut B,
    views: &mut Views,
    event: &Event,
) -> Result<Reply, BaseFault>
    requires found { IsOpen B.seen (site_of_run site.now) true base.old views.old }
    requires may { MayDo (site_of_run site.now) event.now Effect.Write }
    ensures step { Steps B.seen base.old base.new result }
    ensures access { NoWriteDown B.seen (labels_of site.now.policy.now) event.now.level event.now.level base.old
        base.new }
    ensures done { HasDone B.seen (site_of_run site.now) event.now Effect.Write base.old base.new result }
    ensures views { OnOk result (AreViews site.now.policy.now B.seen base.new views.new) }
{
    let Command::Write { relation, write } = &event.command else {
        unreachable!()
    };
    let Site {
        alloc,
        policy,
        schemes,
        ..
    } = *site;
    let (relation, at) = (*relation, event.level);
    let outcome = mls_updates::write(alloc, base, policy, schemes, relation, at, write)?;
    views.follow(alloc, policy, relation, at, write, outcome);
    Ok(Reply::Wrote(outcome))
}

/// Does what an event changes, inside a change.
fn act<B: Base>(
    site: &Site,
    base: &mut B,
    views: &mut Views,
    event: &Event,
    effect: Effect,
) -> Result<Reply, BaseFault>
    requires found { IsOpen B.seen (site_of_run site.now) true base.old views.old }
    requires may { MayDo (site_of_run site.now) event.now effect }
    ensures step { Steps B.seen base.old base.new result }
    ensures access { IsPermitted B.seen (site_of_run site.now) event.now base.old base.new }
    ensures done { HasDone B.seen (site_of_run site.now) event.now effect base.old base.new result }
    ensures views { OnOk result (AreViews site.now.policy.now B.seen base.new views.new) }
{
    match effect {
        Effect::Deny { user, denial } => enter(site, base, event, user, denial),
        Effect::Write => write(site, base, views, event),
        Effect::Call { user } => call(site, base, views, event, user),
    }
}

/// Does what an event changes, as one change of the base.
fn carry_out<B: Base>(
    site: &Site,
    base: &mut B,
    views: &mut Views,
    event: &Event,
    effect: Effect,
) -> Result<Reply, BaseFault>
    requires found { IsOpen B.seen (site_of_run site.now) false base.old views.old }
    requires may { MayDo (site_of_run site.now) event.now effect }
    ensures over { EndsChange B.seen base.old base.new result }
    ensures access { IsPermitted B.seen (site_of_run site.now) event.now base.old base.new }
    ensures done { HasDone B.seen (site_of_run site.now) event.now effect base.old base.new result }
    ensures views { OnOk result (AreViews site.now.policy.now B.seen base.new views.new) }
{
    base.begin()?;
    let reply = act(site, base, views, event, effect)?;
    base.commit()?;
    Ok(reply)
}

/// Does what an event changes, as one change of the base. After a fault no view is kept.
pub(crate) fn change<B: Base>(
    site: &Site,
    base: &mut B,
    views: &mut Views,
    event: &Event,
    effect: Effect,
) -> Result<Reply, BaseFault>
    requires found { IsOpen B.seen (site_of_run site.now) false base.old views.old }
    requires may { MayDo (site_of_run site.now) event.now effect }
    ensures over { EndsChange B.seen base.old base.new result }
    ensures access { IsPermitted B.seen (site_of_run site.now) event.now base.old base.new }
    ensures done { HasDone B.seen (site_of_run site.now) event.now effect base.old base.new result }
    ensures views { AreViews site.now.policy.now B.seen base.new views.new }
{
    let result = carry_out(site, base, views, event, effect);
    if result.is_err() {
        views.clear();
    }
    result
}
