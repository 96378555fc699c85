//! Events that look at the base: views, dumps and audits. They change no content.
ghost use Rattle.std.specs.Prelude.{◌≡◌, ◌<◌, false, length, IfOk};
ghost use Rattle.mls_lattice.specs.Policy.{labels_of};
ghost use Rattle.mls_filterview.specs.Calls.{NoAccess, NoReadUp};
ghost use Rattle.mls_audit.specs.Entry.{visible};
ghost use Rattle.mls_audit.specs.Reading.{entry_at};
ghost use Rattle.mls_audit.specs.Sound.{IsSoundContent};
ghost use Rattle.mls_machine.specs.Machine.{viewed, dumped, listed};
ghost use Rattle.mls_machine.specs.Printable.{EntriesAreKnown};
ghost use Rattle.mls_sessions.specs.Sessions.{site_of_run};
ghost use Rattle.mls_sessions.specs.World.{declared, entries_in};
ghost use Rattle.mls_sessions.specs.Turns.{IsOpen, HasAnswered};
ghost use Rattle.mls_queries.specs.Views.{AreViews};

use crate::site::Site;
use mls_audit::{Entry, EntryFault, entry_of, visible};
use mls_filterview::{Base, BaseFault, low_tuples, settle};
use mls_lattice::{Items, LabelNo, Policy};
use mls_machine::Reply;
use mls_queries::{Views, find};
use mls_scheme::RelNo;
use mls_translang::Query;
use std::alloc::{AllocError, Global};

/// Answers a view by what its query finds.
pub(crate) fn look<B: Base>(
    site: &Site,
    base: &mut B,
    views: &mut Views,
    relation: RelNo,
    label: LabelNo,
    query: &Query,
) -> Result<Reply, BaseFault>
    requires found { IsOpen B.seen (site_of_run site.now) false base.old views.old }
    requires relation { relation < length site.now.schemes.now }
    requires label { label < length site.now.policy.now.labels }
    ensures looked { HasAnswered B.seen (site_of_run site.now)
        (λ w. viewed (site_of_run site.now) w relation label query.now) base.old base.new result }
    ensures access { NoReadUp B.seen (labels_of site.now.policy.now) label base.old base.new }
    ensures views { AreViews site.now.policy.now B.seen base.new views.new }
{
    let found = find(
        site.alloc,
        base,
        views,
        site.policy,
        site.schemes,
        relation,
        label,
        query,
    )?;
    Ok(Reply::Rows(found))
}

/// Answers a dump by the tuples whose classes a session's level dominates.
pub(crate) fn dump<B: Base>(
    site: &Site,
    base: &mut B,
    relation: RelNo,
    level: LabelNo,
) -> Result<Reply, BaseFault>
    requires idle { (B.seen base.old).state.begun ≡ false }
    requires level { level < length site.now.policy.now.labels }
    requires sound { (B.seen base.old).is_clean → IsSoundContent site.now.policy.now site.now.schemes.now
        (B.seen base.old).state.now }
    ensures looked { HasAnswered B.seen (site_of_run site.now)
        (λ w. dumped (site_of_run site.now) w relation level) base.old base.new result }
    ensures access { NoReadUp B.seen (labels_of site.now.policy.now) level base.old base.new }
{
    let tuples = low_tuples(site.alloc, base, site.policy, relation, level)?;
    Ok(Reply::Dumped(Items::from(tuples)))
}

/// The entry of a declared label that bytes spell.
fn declared_entry(alloc: Global, policy: &Policy, bytes: &[u8]) -> Result<Option<Entry>, AllocError>
    ensures { IfOk result (λ o. o ≡ declared (length policy.now.labels) (entry_at bytes.now)) }
{
    match entry_of(alloc, bytes) {
        Ok(entry) => {
            if entry.label().index() < policy.label_count() {
                Ok(Some(entry))
            } else {
                Ok(None)
            }
        }
        Err(EntryFault::Memory) => Err(AllocError),
        Err(_) => Ok(None),
    }
}

/// The entries of declared labels that strings spell.
pub(crate) fn entries_of(
    alloc: Global,
    policy: &Policy,
    strings: &[Items<u8>],
) -> Result<Vec<Entry>, AllocError>
    ensures exact { IfOk result (λ v. v.items ≡ entries_in (length policy.now.labels) strings.now) }
    ensures known { IfOk result (λ v. EntriesAreKnown policy.now v.items) }
{
    let mut entries = Vec::new(alloc);
    for string in strings {
        let found = declared_entry(alloc, policy, string)?;
        match found {
            Some(entry) => entries.push(entry)?,
            None => {}
        }
    }
    Ok(entries)
}

/// The entries among strings whose labels a label dominates.
pub(crate) fn seen_of(
    alloc: Global,
    policy: &Policy,
    strings: &[Items<u8>],
    label: LabelNo,
) -> Result<Vec<Entry>, AllocError>
    requires { label < length policy.now.labels }
    ensures exact { IfOk result (λ v. v.items ≡ visible (labels_of policy.now) label
        (entries_in (length policy.now.labels) strings.now)) }
    ensures known { IfOk result (λ v. EntriesAreKnown policy.now v.items) }
{
    let entries = entries_of(alloc, policy, strings)?;
    visible(alloc, policy, &entries, label)
}

/// Answers an audit of a session's level.
pub(crate) fn audit<B: Base>(site: &Site, base: &mut B, level: LabelNo) -> Result<Reply, BaseFault>
    requires idle { (B.seen base.old).state.begun ≡ false }
    requires level { level < length site.now.policy.now.labels }
    ensures looked { HasAnswered B.seen (site_of_run site.now)
        (λ w. listed (site_of_run site.now) w level) base.old base.new result }
    ensures access { NoAccess B.seen base.old base.new }
{
    let strings = base.audit_all()?;
    let entries = settle(base, seen_of(site.alloc, site.policy, &strings, level))?;
    Ok(Reply::Entries(Items::from(entries)))
}
