//! The matrix of a document: what users may do with objects.
ghost use Rattle.std.specs.Prelude.{◌≡◌, ◌≤◌, [], ◌∷◌, length, map, Some, None, OnOk, option_map};
ghost use Rattle.toml.specs.View.{view, items_view, table_view};
ghost use Rattle.mls_lattice.specs.Policy.{is_entry, granted_modes, right_of, rights_of};
ghost use Rattle.mls_lattice.specs.Known.{KnowsRights};
ghost use Rattle.mls_lattice.specs.Reading.{Shows, Gives};
ghost use Rattle.mls_lattice.specs.PolicyReading.{rows_at, mode_of, more_modes, one_or_more, is_named, user_no_at};
ghost use Rattle.mls_lattice.specs.PolicyReading.{user_nos_at, objects_at, grant_at, more_rights, rights_at, matrix_at};

use crate::document::{
    bounded, field, name_of, optional_tables, table_of, text_of, texts_of, wanted,
};
use crate::failed::Failed;
use crate::fault::FieldFault;
use crate::items::Items;
use crate::modes::Modes;
use crate::names::names_of;
use crate::number::UserNo;
use crate::tables::{Grant, Right, User};
use crate::text::Str;
use crate::trail::Trail;
use crate::users::user_place;
use bitflags::Flags;
use std::alloc::Global;
use std::collections::BTreeSet;
use toml::{Table, Value};

/// The most entries of a matrix.
const MAX_RIGHTS: usize = 16384;

/// The mode that a word stands for.
fn mode_of(word: &str) -> Result<Modes, FieldFault>
    ensures { Shows (λ m. m.0) result (mode_of word.now) }
{
    match word {
        "execute" => Ok(Modes::EXECUTE),
        "read" => Ok(Modes::READ),
        "append" => Ok(Modes::APPEND),
        "write" => Ok(Modes::WRITE),
        _ => Err(FieldFault::UnknownName),
    }
}

/// The modes of an array of words, none of them twice.
#[tactic(auto, using(crate::proofs::PolicyReadingLemmas::mode_steps))]
fn modes_of(items: &[Value], at: &mut Trail) -> Result<Modes, FieldFault>
    ensures { Shows (λ m. m.0) result (more_modes 0 (items_view items.now)) }
{
    let mut modes = Modes::empty();
    for value in items {
        at.next(1);
        let mode = mode_of(text_of(value)?)?;
        if modes.contains(mode) {
            return Err(FieldFault::Repeated);
        }
        modes = modes.union(mode);
    }
    Ok(modes)
}

/// Whether an entry is one for this user and object.
fn is_entry(right: &Right, user: UserNo, object: &str) -> bool
    ensures { result ≡ is_entry user object.now right.now }
{
    right.user == user && right.object.as_str() == object
}

/// The modes of the entry for a user and an object, or none.
pub(crate) fn granted_modes(matrix: &[Right], user: UserNo, object: &str) -> Modes
    ensures { result.0 ≡ granted_modes matrix.now user object.now }
{
    for right in matrix {
        if is_entry(right, user, object) {
            return right.modes;
        }
    }
    Modes::empty()
}

/// Whether a user is one of these.
fn is_named(named: &[UserNo], user: UserNo) -> bool
    ensures { result ≡ is_named named.now user }
{
    named.iter().any(|other| *other == user)
}

/// The user of a name, who is none of these.
#[tactic(auto, unfolding(crate::specs::PolicyReading::user_no_at))]
fn user_no(users: &[User], named: &[UserNo], value: &Value) -> Result<UserNo, FieldFault>
    requires { length users.now ≤ 1024 }
    ensures { Shows (λ u. u) result (user_no_at users.now named.now (view value.now)) }
{
    let user = UserNo::new(user_place(users, name_of(value)?)? as u16);
    if is_named(named, user) {
        return Err(FieldFault::Repeated);
    }
    Ok(user)
}

/// The users of an array of names, none of them twice.
#[tactic(auto, using(crate::proofs::MatrixSteps::user_steps))]
fn user_nos(
    alloc: Global,
    users: &[User],
    items: &[Value],
    at: &mut Trail,
) -> Result<Vec<UserNo>, Failed<FieldFault>>
    requires { length users.now ≤ 1024 }
    ensures { Gives (λ v. v.items) result (rows_at (user_no_at users.now) [] (items_view items.now)) }
{
    let mut named = Vec::new(alloc);
    for value in items {
        at.next(1);
        let user = user_no(users, &named, value)?;
        named.push(user)?;
    }
    Ok(named)
}

/// The names of an array, of which there is one.
#[tactic(auto, using(crate::proofs::ReadingLemmas::counts))]
fn some_texts(value: &Value) -> Result<&[Value], FieldFault>
    ensures { Shows (λ items. items_view items.now) result (one_or_more None (Some (view value.now))) }
{
    let items = texts_of(value)?;
    if items.is_empty() {
        Err(FieldFault::MissingField)
    } else {
        Ok(items)
    }
}

/// The names of an array, where no single name stands beside it.
fn list_alone<'a>(one: Option<&Value>, many: &'a Value) -> Result<&'a [Value], FieldFault>
    ensures { Shows (λ items. items_view items.now) result
        (one_or_more (option_map (λ v. view v.now) one.entry) (Some (view many.now))) }
{
    if one.is_some() {
        return Err(FieldFault::WrongKind);
    }
    some_texts(many)
}

/// The user of a grant, or its users.
fn users_in(
    alloc: Global,
    users: &[User],
    fields: &Table,
    at: &mut Trail,
) -> Result<Vec<UserNo>, Failed<FieldFault>>
    requires { length users.now ≤ 1024 }
    ensures { Gives (λ v. v.items) result (user_nos_at users.now (table_view fields.now)) }
{
    match (field(fields, at.field(1, "user")), field(fields, "users")) {
        (Some(value), None) => Ok(vec![in alloc; user_no(users, &[], value)?]?),
        (None, None) => Err(Failed::Fault(FieldFault::MissingField)),
        (one, Some(many)) => {
            at.field(1, "users");
            user_nos(alloc, users, list_alone(one, many)?, at)
        }
    }
}

/// The object of a grant, or its objects.
#[tactic(auto, unfolding(crate::specs::PolicyReading::new_name_at))]
fn objects_in(alloc: Global, fields: &Table, at: &mut Trail) -> Result<Vec<Str>, Failed<FieldFault>>
    ensures { Gives (λ v. v.items) result (objects_at (table_view fields.now)) }
{
    match (
        field(fields, at.field(1, "object")),
        field(fields, "objects"),
    ) {
        (Some(value), None) => {
            let name = Str::copy_of(alloc, name_of(value)?)?;
            Ok(vec![in alloc; name]?)
        }
        (None, None) => Err(Failed::Fault(FieldFault::MissingField)),
        (one, Some(many)) => {
            at.field(1, "objects");
            names_of(alloc, list_alone(one, many)?, at, 1)
        }
    }
}

#[tactic(auto, unfolding(crate::specs::PolicyReading::grant_at))]
fn grant_of(
    alloc: Global,
    users: &[User],
    value: &Value,
    at: &mut Trail,
) -> Result<Grant, Failed<FieldFault>>
    requires { length users.now ≤ 1024 }
    ensures { Gives (λ g. g) result (grant_at users.now (view value.now)) }
{
    let fields = table_of(value)?;
    let users = users_in(alloc, users, fields, at)?;
    let objects = objects_in(alloc, fields, at)?;
    let words = texts_of(wanted(fields, at.field(1, "modes"))?)?;
    let modes = modes_of(words, at)?;
    Ok(Grant {
        users: Items::from(users),
        objects: Items::from(objects),
        modes,
    })
}

/// Users and objects that have an entry.
type Pairs = BTreeSet<(UserNo, Str)>;

/// Adds an entry, where it is new.
#[tactic(auto, using(crate::proofs::KnownLemmas::add_steps))]
fn right_to(
    matrix: &mut Vec<Right>,
    known: &mut Pairs,
    user: UserNo,
    object: Str,
    modes: Modes,
) -> Result<(), Failed<FieldFault>>
    requires known { KnowsRights known.old matrix.old.items }
    ensures adds { Gives (λ _. matrix.new.items) result (more_rights matrix.old.items (right_of user modes object ∷ [])) }
    ensures known { OnOk result (KnowsRights known.new matrix.new.items) }
{
    if !known.insert((user, object.clone()?))? {
        return Err(Failed::Fault(FieldFault::Repeated));
    }
    if matrix.len() >= MAX_RIGHTS {
        return Err(Failed::Fault(FieldFault::TooMany));
    }
    matrix.push(Right {
        user,
        object,
        modes,
    })?;
    Ok(())
}

/// Adds the entries of a user, for each object.
#[tactic(auto, using(crate::proofs::MatrixSteps::right_steps))]
fn rights_to(
    matrix: &mut Vec<Right>,
    known: &mut Pairs,
    user: UserNo,
    objects: &[Str],
    modes: Modes,
) -> Result<(), Failed<FieldFault>>
    requires known { KnowsRights known.old matrix.old.items }
    ensures adds { Gives (λ _. matrix.new.items) result (more_rights matrix.old.items
        (map (right_of user modes) objects.now)) }
    ensures known { OnOk result (KnowsRights known.new matrix.new.items) }
{
    for object in objects {
        right_to(matrix, known, user, object.clone()?, modes)?;
    }
    Ok(())
}

/// Adds the entries of a grant.
#[tactic(auto, using(crate::proofs::MatrixSteps::pair_steps))]
fn grant_to(
    matrix: &mut Vec<Right>,
    known: &mut Pairs,
    grant: &Grant,
) -> Result<(), Failed<FieldFault>>
    requires known { KnowsRights known.old matrix.old.items }
    ensures adds { Gives (λ _. matrix.new.items) result (more_rights matrix.old.items (rights_of grant.now)) }
    ensures known { OnOk result (KnowsRights known.new matrix.new.items) }
{
    for user in grant.users.iter() {
        rights_to(matrix, known, *user, &grant.objects, grant.modes)?;
    }
    Ok(())
}

/// The entries of an array of grants.
#[tactic(auto, using(crate::proofs::MatrixSteps::grant_steps))]
fn rows_of(
    alloc: Global,
    users: &[User],
    items: &[Value],
    at: &mut Trail,
) -> Result<Vec<Right>, Failed<FieldFault>>
    requires { length users.now ≤ 1024 }
    ensures { Gives (λ v. v.items) result (rights_at users.now [] (items_view items.now)) }
{
    let mut matrix = Vec::new(alloc);
    let mut known = BTreeSet::new(alloc);
    for value in items {
        at.next(0);
        let grant = grant_of(alloc, users, value, at)?;
        at.back(0);
        grant_to(&mut matrix, &mut known, &grant)?;
    }
    Ok(matrix)
}

/// The matrix of a document.
#[tactic(auto, unfolding(crate::specs::PolicyReading::matrix_at))]
pub(crate) fn matrix_of(
    alloc: Global,
    users: &[User],
    document: &Table,
    at: &mut Trail,
) -> Result<Vec<Right>, Failed<FieldFault>>
    requires { length users.now ≤ 1024 }
    ensures { Gives (λ v. v.items) result (matrix_at users.now (table_view document.now)) }
{
    let all = optional_tables(document, at.field(0, "matrix"))?;
    let items = bounded(all, MAX_RIGHTS)?;
    rows_of(alloc, users, items, at)
}
