//! Calls of stored transactions, inside a change: they are run, and entered with what they release.
ghost use Rattle.std.specs.Prelude.{◌≡◌, ◌<◌, ◌∷◌, [], true, length, map, IfOk, OnOk};
ghost use Rattle.std.specs.List.{AllByRecursion};
ghost use Rattle.mls_lattice.specs.Name.{is_name};
ghost use Rattle.mls_lattice.specs.Canon.{user_name};
ghost use Rattle.mls_audit.specs.declared.entry.Deed.TheVariants.{Called};
ghost use Rattle.mls_audit.specs.Spelling.{IsTimed, IsShortDeed, HasSpelling, entry_spelling};
ghost use Rattle.mls_certcheck.specs.MeaningLaws.{IsItem};
ghost use Rattle.mls_machine.specs.Machine.{entry_of, release_entry, call_entries};
ghost use Rattle.mls_lattice.specs.Policy.{labels_of};
ghost use Rattle.mls_filterview.specs.Calls.{NoAccess, NoWriteDown};
ghost use Rattle.mls_certcheck.specs.declared.cert.Certificate.{Certificate};
ghost use Rattle.mls_certcheck.specs.Rules.{Rules, claim};
ghost use Rattle.mls_sessions.specs.Access.{IsPermitted};
ghost use Rattle.mls_sessions.specs.Sessions.{site_of_run};
ghost use Rattle.mls_queries.specs.Views.{AreViews};
ghost use Rattle.mls_sessions.specs.Calling.{MayEnter, HasEntered, MayRunCall, HasRun};
ghost use Rattle.mls_sessions.specs.Turns.{MayDo, Steps, IsOpen, HasDone};

use crate::arguments::fitted;
use crate::change::Effect;
use crate::finding::certified_named;
use crate::site::Site;
use mls_audit::{Deed, Entry, entry_bytes};
use mls_certcheck::{Certified, Run};
use mls_filterview::{Base, BaseFault, settle};
use mls_lattice::{LabelNo, Str, UserNo};
use mls_machine::Reply;
use mls_queries::Views;
use mls_scheme::Value;
use mls_translang::{Command, Event};
use mls_trusted::evaluate_in;
use mls_updates::copy_value;
use std::alloc::{AllocError, Global};

fn copy_time(alloc: Global, time: &Option<Str>) -> Result<Option<Str>, AllocError>
    ensures { IfOk result (λ t. t ≡ time.now) }
{
    match time {
        Some(time) => Ok(Some(Str::copy_of(alloc, time)?)),
        None => Ok(None),
    }
}

/// The bytes of an entry of an event, at a label, with the event's time.
pub(crate) fn bytes_of(
    site: &Site,
    event: &Event,
    label: LabelNo,
    user: UserNo,
    deed: Deed,
) -> Result<Vec<u8>, AllocError>
    requires user { user < length site.now.policy.now.users }
    requires session { is_name event.now.session ≡ true }
    requires timed { IsTimed event.now.time }
    requires short { IsShortDeed deed }
    ensures bytes { IfOk result (λ v. v.items ≡ entry_spelling
        (entry_of (site_of_run site.now) event.now label user deed)) }
    ensures spelled { OnOk result (HasSpelling (entry_of (site_of_run site.now) event.now label user deed)) }
{
    let time = copy_time(site.alloc, &event.time)?;
    let user = Str::copy_of(site.alloc, site.policy.user_name(user))?;
    let session = Str::copy_of(site.alloc, &event.session)?;
    let entry = Entry {
        label,
        time,
        user,
        session,
        deed,
    };
    entry_bytes(site.alloc, &entry)
}

/// The bytes of the entry of a call.
fn called_bytes(site: &Site, event: &Event, user: UserNo, name: &str) -> Result<Vec<u8>, AllocError>
    requires user { user < length site.now.policy.now.users }
    requires session { is_name event.now.session ≡ true }
    requires timed { IsTimed event.now.time }
    requires name { is_name name.now ≡ true }
    ensures bytes { IfOk result (λ v. v.items ≡ entry_spelling
        (entry_of (site_of_run site.now) event.now event.now.level user (Called name.now))) }
    ensures spelled { OnOk result (HasSpelling
        (entry_of (site_of_run site.now) event.now event.now.level user (Called name.now))) }
{
    let transaction = Str::copy_of(site.alloc, name)?;
    bytes_of(site, event, event.level, user, Deed::Called(transaction))
}

/// The bytes of the entry of a release.
fn released_bytes(
    site: &Site,
    event: &Event,
    user: UserNo,
    item: &(LabelNo, Option<Value>),
) -> Result<Vec<u8>, AllocError>
    requires user { user < length site.now.policy.now.users }
    requires session { is_name event.now.session ≡ true }
    requires timed { IsTimed event.now.time }
    requires item { IsItem site.now.policy.now item.now }
    ensures bytes { IfOk result (λ v. v.items ≡ entry_spelling
        (release_entry (site_of_run site.now) event.now user item.now)) }
    ensures spelled { OnOk result (HasSpelling (release_entry (site_of_run site.now) event.now user item.now)) }
{
    let value = copy_value(&item.1)?;
    bytes_of(site, event, item.0, user, Deed::Released(value))
}

/// Enters a call in the audit list, inside a change.
fn enter_call<B: Base>(
    site: &Site,
    base: &mut B,
    event: &Event,
    user: UserNo,
    name: &str,
) -> Result<(), BaseFault>
    requires may { MayEnter B.seen site.now.policy.now event.now user base.old }
    requires name { is_name name.now ≡ true }
    ensures step { Steps B.seen base.old base.new result }
    ensures access { NoAccess B.seen base.old base.new }
    ensures entered { HasEntered B.seen (entry_of (site_of_run site.now) event.now event.now.level user
        (Called name.now) ∷ []) base.old base.new result }
{
    let bytes = settle(base, called_bytes(site, event, user, name))?;
    base.audit_add(&bytes)
}

/// Enters a release in the audit list, inside a change.
fn enter_release<B: Base>(
    site: &Site,
    base: &mut B,
    event: &Event,
    user: UserNo,
    item: &(LabelNo, Option<Value>),
) -> Result<(), BaseFault>
    requires may { MayEnter B.seen site.now.policy.now event.now user base.old }
    requires item { IsItem site.now.policy.now item.now }
    ensures step { Steps B.seen base.old base.new result }
    ensures access { NoAccess B.seen base.old base.new }
    ensures entered { HasEntered B.seen
        (release_entry (site_of_run site.now) event.now user item.now ∷ []) base.old base.new result }
{
    let bytes = settle(base, released_bytes(site, event, user, item))?;
    base.audit_add(&bytes)
}

/// Enters releases in the audit list, inside a change.
fn enter_releases<B: Base>(
    site: &Site,
    base: &mut B,
    event: &Event,
    user: UserNo,
    released: &[(LabelNo, Option<Value>)],
) -> Result<(), BaseFault>
    requires may { MayEnter B.seen site.now.policy.now event.now user base.old }
    requires items { AllByRecursion (IsItem site.now.policy.now) released.now }
    ensures step { Steps B.seen base.old base.new result }
    ensures access { NoAccess B.seen base.old base.new }
    ensures entered { HasEntered B.seen
        (map (release_entry (site_of_run site.now) event.now user) released.now) base.old base.new result }
{
    for item in released {
        enter_release(site, base, event, user, item)?;
    }
    Ok(())
}

/// Enters a call and its releases in the audit list, inside a change.
fn enter_run<B: Base>(
    site: &Site,
    base: &mut B,
    event: &Event,
    user: UserNo,
    name: &str,
    released: &[(LabelNo, Option<Value>)],
) -> Result<(), BaseFault>
    requires may { MayEnter B.seen site.now.policy.now event.now user base.old }
    requires name { is_name name.now ≡ true }
    requires items { AllByRecursion (IsItem site.now.policy.now) released.now }
    ensures step { Steps B.seen base.old base.new result }
    ensures access { NoAccess B.seen base.old base.new }
    ensures entered { HasEntered B.seen
        (call_entries (site_of_run site.now) event.now user name.now released.now) base.old base.new result }
{
    enter_call(site, base, event, user, name)?;
    enter_releases(site, base, event, user, released)
}

/// Runs a transaction on arguments, inside a change: those of the wrong kind are taken as null.
fn run_certified<B: Base>(
    site: &Site,
    base: &mut B,
    views: &mut Views,
    certified: &Certified,
    args: &[Option<Value>],
) -> Result<Run, BaseFault>
    requires found { IsOpen B.seen (site_of_run site.now) true base.old views.old }
    requires may { MayRunCall site.now.policy.now site.now.schemes.now certified.now.tx args.now }
    ensures step { Steps B.seen base.old base.new result }
    ensures access { (cert : Certificate) → Rules (claim site.now.policy.now certified.now.tx cert)
        → NoWriteDown B.seen (labels_of site.now.policy.now) certified.now.tx.hi certified.now.tx.lo base.old base.new }
    ensures run { HasRun B.seen site.now.policy.now site.now.schemes.now certified.now.tx args.now
        base.old base.new result }
    ensures views { OnOk result (AreViews site.now.policy.now B.seen base.new views.new) }
{
    let args = settle(base, fitted(site.alloc, certified.tx(), args))?;
    evaluate_in(
        site.alloc,
        base,
        site.policy,
        site.schemes,
        views,
        certified,
        &args,
    )
}

/// Runs the transaction that an event calls, and enters the call and what it released, inside a change.
pub(crate) fn call<B: Base>(
    site: &Site,
    base: &mut B,
    views: &mut Views,
    event: &Event,
    user: UserNo,
) -> Result<Reply, BaseFault>
    requires found { IsOpen B.seen (site_of_run site.now) true base.old views.old }
    requires may { MayDo (site_of_run site.now) event.now (Effect.Call user) }
    ensures step { Steps B.seen base.old base.new result }
    ensures access { IsPermitted B.seen (site_of_run site.now) event.now base.old base.new }
    ensures done { HasDone B.seen (site_of_run site.now) event.now (Effect.Call user) base.old base.new
        result }
    ensures views { OnOk result (AreViews site.now.policy.now B.seen base.new views.new) }
{
    let Command::Call { tx, args } = &event.command else {
        unreachable!()
    };
    let certified = certified_named(&site.stored, tx);
    let run = run_certified(site, base, views, certified, args)?;
    enter_run(site, base, event, user, tx, &run.released)?;
    Ok(Reply::Ran(run))
}
