//! The fields of a TOML document, as policies and schemes read them.
ghost use Rattle.std.specs.Prelude.{◌≡◌, option_map, is_some};
ghost use Rattle.std.specs.List.{list_all};
ghost use Rattle.toml.specs.Data.{get_member, as_str, as_table};
ghost use Rattle.toml.specs.View.{view, items_view, table_view};
ghost use Rattle.mls_lattice.specs.Reading.{Shows, wanted, text_at, integer_at, version_at, array_at, table_at};
ghost use Rattle.mls_lattice.specs.Reading.{name_at, name_field, texts_at, tables_at, optional, bounded, some_of};

use crate::fault::FieldFault;
use crate::name::is_name;
use crate::trail::Trail;
use crate::version::Version;
use toml::{Table, Value};

/// The value at a key.
pub fn wanted<'a>(table: &'a Table, key: &str) -> Result<&'a Value, FieldFault>
    ensures { Shows (λ v. view v.now) result (wanted key.now (table_view table.now)) }
{
    field(table, key).ok_or(FieldFault::MissingField)
}

/// The value at a key that may be missing.
pub fn field<'a>(table: &'a Table, key: &str) -> Option<&'a Value>
    ensures { option_map (λ v. view v.now) result ≡ get_member key.now (table_view table.now) }
{
    table.get(key)
}

/// The text of a string, which need not be a name.
pub fn text_of(value: &Value) -> Result<&str, FieldFault>
    ensures { Shows (λ s. s.now) result (text_at (view value.now)) }
{
    value.as_str().ok_or(FieldFault::WrongKind)
}

/// The number that an integer is; a float is of the wrong kind.
pub fn integer_of(value: &Value) -> Result<i64, FieldFault>
    ensures { Shows (λ n. n) result (integer_at (view value.now)) }
{
    value.as_integer().ok_or(FieldFault::WrongKind)
}

/// The version, which is 1 or 2.
#[tactic(auto, unfolding(crate::specs::Reading::version_at))]
pub fn version_of(document: &Table, at: &mut Trail) -> Result<Version, FieldFault>
    ensures { Shows (λ v. v) result (version_at (table_view document.now)) }
{
    match integer_of(wanted(document, at.field(0, "version"))?)? {
        1 => Ok(Version::One),
        2 => Ok(Version::Two),
        _ => Err(FieldFault::WrongKind),
    }
}

/// The items of an array, of any kind.
pub fn items_of(value: &Value) -> Result<&[Value], FieldFault>
    ensures { Shows (λ items. items_view items.now) result (array_at (view value.now)) }
{
    match value.as_array() {
        Some(items) => Ok(items.as_slice()),
        None => Err(FieldFault::WrongKind),
    }
}

/// The fields of a table, inline or under a heading.
pub fn table_of(value: &Value) -> Result<&Table, FieldFault>
    ensures { Shows (λ t. table_view t.now) result (table_at (view value.now)) }
{
    value.as_table().ok_or(FieldFault::WrongKind)
}

/// A string that is a name.
pub fn name_of(value: &Value) -> Result<&str, FieldFault>
    ensures { Shows (λ s. s.now) result (name_at (view value.now)) }
{
    let text = text_of(value)?;
    if is_name(text) {
        Ok(text)
    } else {
        Err(FieldFault::BadName)
    }
}

fn are_texts(items: &[Value]) -> bool
    ensures { result ≡ list_all (λ x. is_some (as_str (view x))) items.now }
{
    items.iter().all(|item| item.is_str())
}

fn are_tables(items: &[Value]) -> bool
    ensures { result ≡ list_all (λ x. is_some (as_table (view x))) items.now }
{
    items.iter().all(|item| item.is_table())
}

/// The items of an array of strings.
#[tactic(auto, using(crate::proofs::ReadingLemmas::counts))]
pub fn texts_of(value: &Value) -> Result<&[Value], FieldFault>
    ensures { Shows (λ items. items_view items.now) result (texts_at (view value.now)) }
{
    let items = items_of(value)?;
    if are_texts(items) {
        Ok(items)
    } else {
        Err(FieldFault::WrongKind)
    }
}

/// The items of an array of tables.
#[tactic(auto, using(crate::proofs::ReadingLemmas::counts))]
pub fn tables_of(value: &Value) -> Result<&[Value], FieldFault>
    ensures { Shows (λ items. items_view items.now) result (tables_at (view value.now)) }
{
    let items = items_of(value)?;
    if are_tables(items) {
        Ok(items)
    } else {
        Err(FieldFault::WrongKind)
    }
}

/// The strings at a key, none where it is missing.
pub fn optional_texts<'a>(table: &'a Table, key: &str) -> Result<&'a [Value], FieldFault>
    ensures { Shows (λ items. items_view items.now) result
        (optional texts_at (get_member key.now (table_view table.now))) }
{
    match field(table, key) {
        Some(value) => texts_of(value),
        None => Ok(&[]),
    }
}

/// The tables at a key, none where it is missing.
pub fn optional_tables<'a>(table: &'a Table, key: &str) -> Result<&'a [Value], FieldFault>
    ensures { Shows (λ items. items_view items.now) result
        (optional tables_at (get_member key.now (table_view table.now))) }
{
    match field(table, key) {
        Some(value) => tables_of(value),
        None => Ok(&[]),
    }
}

/// The same items, if they are no more than these.
#[tactic(auto, using(crate::proofs::ReadingLemmas::counts))]
pub fn bounded(items: &[Value], most: usize) -> Result<&[Value], FieldFault>
    ensures { Shows (λ items. items_view items.now) result (bounded most (items_view items.now)) }
{
    if items.len() > most {
        Err(FieldFault::TooMany)
    } else {
        Ok(items)
    }
}

/// The same items, if there is one and they are no more than these.
#[tactic(auto, using(crate::proofs::ReadingLemmas::counts))]
pub fn some_of(items: &[Value], most: usize) -> Result<&[Value], FieldFault>
    ensures { Shows (λ items. items_view items.now) result (some_of most (items_view items.now)) }
{
    if items.is_empty() {
        Err(FieldFault::MissingField)
    } else {
        bounded(items, most)
    }
}

/// The name at a key.
pub fn name_field<'a>(table: &'a Table, key: &str) -> Result<&'a str, FieldFault>
    ensures { Shows (λ s. s.now) result (name_field key.now (table_view table.now)) }
{
    name_of(wanted(table, key)?)
}
