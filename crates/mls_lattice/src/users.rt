//! The users of a document.
ghost use Rattle.std.specs.Prelude.{◌≡◌, ◌<◌, ◌≤◌, [], codes, length, IfOk, IfSome, map, position, bytes_eq};
ghost use Rattle.std.specs.List.{list_any};
ghost use Rattle.toml.specs.Data.{get_member};
ghost use Rattle.toml.specs.View.{view, items_view, table_view};
ghost use Rattle.mls_lattice.specs.Labels.{below};
ghost use Rattle.mls_lattice.specs.Policy.{named};
ghost use Rattle.mls_lattice.specs.Reading.{Shows, Gives};
ghost use Rattle.mls_lattice.specs.PolicyReading.{rows_at, label_name_at, interval_at, trusted_at, user_at, users_at};
ghost use Rattle.mls_lattice.specs.PolicyReading.{user_place};

use crate::document::{bounded, field, name_field, name_of, optional_tables, table_of, texts_of};
use crate::failed::Failed;
use crate::fault::FieldFault;
use crate::labels::label_place;
use crate::number::LabelNo;
use crate::tables::{NamedLabel, User};
use crate::text::Str;
use crate::trail::Trail;
use std::alloc::Global;
use toml::{Table, Value};

/// The most users of a policy.
const MAX_USERS: usize = 1024;

/// The number of the label that a string names.
fn label_named(labels: &[NamedLabel], value: &Value) -> Result<LabelNo, FieldFault>
    requires { length labels.now ≤ 64 }
    ensures reads { Shows (λ l. l) result (label_name_at (map named labels.now) (view value.now)) }
    ensures within { IfOk result (λ l. l < length labels.now) }
{
    let place = label_place(labels, name_of(value)?)?;
    Ok(LabelNo::new(place as u8))
}

/// Whether the second label dominates the first.
fn is_interval(labels: &[NamedLabel], low: LabelNo, high: LabelNo) -> bool
    requires low { low < length labels.now }
    requires high { high < length labels.now }
    ensures { result ≡ below (map (λ x. x.value) (map named labels.now)) low high }
{
    labels[high.index()]
        .label
        .dominates(labels[low.index()].label)
}

fn interval_of(
    labels: &[NamedLabel],
    items: &[Value],
    at: &mut Trail,
) -> Result<Option<(LabelNo, LabelNo)>, FieldFault>
    requires { length labels.now ≤ 64 }
    ensures { Shows (λ i. i) result (interval_at (map named labels.now) (items_view items.now)) }
{
    let [low, high] = items else {
        return Err(FieldFault::WrongKind);
    };
    at.next(1);
    let low = label_named(labels, low)?;
    at.next(1);
    let high = label_named(labels, high)?;
    at.field(1, "trusted");
    if is_interval(labels, low, high) {
        Ok(Some((low, high)))
    } else {
        Err(FieldFault::EmptyInterval)
    }
}

fn trusted_of(
    labels: &[NamedLabel],
    fields: &Table,
    at: &mut Trail,
) -> Result<Option<(LabelNo, LabelNo)>, FieldFault>
    requires { length labels.now ≤ 64 }
    ensures { Shows (λ i. i) result (trusted_at (map named labels.now)
        (get_member (codes "trusted") (table_view fields.now))) }
{
    match field(fields, at.field(1, "trusted")) {
        Some(value) => interval_of(labels, texts_of(value)?, at),
        None => Ok(None),
    }
}

fn has_name(users: &[User], name: &str) -> bool
    ensures { result ≡ list_any (λ u. bytes_eq u.name name.now) users.now }
{
    users.iter().any(|other| other.name.as_str() == name)
}

#[tactic(auto, unfolding(crate::specs::PolicyReading::user_at))]
fn user_of(
    alloc: Global,
    labels: &[NamedLabel],
    users: &[User],
    value: &Value,
    at: &mut Trail,
) -> Result<User, Failed<FieldFault>>
    requires { length labels.now ≤ 64 }
    ensures { Gives (λ u. u) result (user_at (map named labels.now) users.now (view value.now)) }
{
    let fields = table_of(value)?;
    let name = name_field(fields, at.field(1, "name"))?;
    if has_name(users, name) {
        return Err(Failed::Fault(FieldFault::Repeated));
    }
    let clearance = label_place(labels, name_field(fields, at.field(1, "clearance"))?)? as u8;
    let trusted = trusted_of(labels, fields, at)?;
    let name = Str::copy_of(alloc, name)?;
    Ok(User {
        name,
        clearance: LabelNo::new(clearance),
        trusted,
    })
}

fn rows_of(
    alloc: Global,
    labels: &[NamedLabel],
    items: &[Value],
    at: &mut Trail,
) -> Result<Vec<User>, Failed<FieldFault>>
    requires { length labels.now ≤ 64 }
    ensures reads { Gives (λ v. v.items) result (rows_at (user_at (map named labels.now)) [] (items_view items.now)) }
    ensures count { IfOk result (λ v. length v.items ≡ length items.now) }
{
    let mut users = Vec::new(alloc);
    for value in items {
        at.next(0);
        let user = user_of(alloc, labels, &users, value, at)?;
        users.push(user)?;
    }
    Ok(users)
}

/// The users of a document.
#[tactic(auto, using(crate::proofs::ReadingLemmas::counts), unfolding(crate::specs::PolicyReading::users_at))]
pub(crate) fn users_of(
    alloc: Global,
    labels: &[NamedLabel],
    document: &Table,
    at: &mut Trail,
) -> Result<Vec<User>, Failed<FieldFault>>
    requires { length labels.now ≤ 64 }
    ensures reads { Gives (λ v. v.items) result (users_at (map named labels.now) (table_view document.now)) }
    ensures count { IfOk result (λ v. length v.items ≤ 1024) }
{
    let all = optional_tables(document, at.field(0, "user"))?;
    let items = bounded(all, MAX_USERS)?;
    rows_of(alloc, labels, items, at)
}

/// Where the first user of a name stands.
pub(crate) fn position_of_user(users: &[User], name: &str) -> Option<usize>
    ensures exact { result ≡ position (λ u. bytes_eq u.name name.now) users.now }
    ensures within { IfSome result (λ place. place < length users.now) }
{
    users.iter().position(|user| user.name.as_str() == name)
}

/// The number of the user of a name.
pub(crate) fn user_place(users: &[User], name: &str) -> Result<usize, FieldFault>
    ensures reads { Shows (λ place. place) result (user_place users.now name.now) }
    ensures within { IfOk result (λ place. place < length users.now) }
{
    match position_of_user(users, name) {
        Some(place) => Ok(place),
        None => Err(FieldFault::UnknownName),
    }
}
