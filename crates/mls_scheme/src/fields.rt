//! The fields of schemes, and what they are refused for.
ghost use Rattle.std.specs.Prelude.{◌<◌, IfOk, length};
ghost use Rattle.toml.specs.View.{view, items_view, table_view};
ghost use Rattle.mls_lattice.specs.Reading.{Shows, table_at, version_at};
ghost use Rattle.mls_scheme.specs.declared.fault.FileFault.TheVariants.{Field};
ghost use Rattle.mls_scheme.specs.Reading.{lift, name_field, text_field, kind_named, label_named, label_field};
ghost use Rattle.mls_scheme.specs.Reading.{key_items, other_items, relation_items};

use crate::fault::FileFault;
use crate::value::Kind;
use mls_lattice::document::{
    bounded, name_of, optional_tables, some_of, table_of, tables_of, text_of, version_of, wanted,
};
use mls_lattice::{FieldFault, LabelNo, Policy, Trail, Version};
use toml::{Table, Value};

/// The version of a file.
pub(crate) fn version_field(document: &Table, at: &mut Trail) -> Result<Version, FileFault>
    ensures { Shows (λ v. v) result (lift Field (version_at (table_view document.now))) }
{
    Ok(version_of(document, at)?)
}

/// The fields of a table.
pub(crate) fn fields_of(value: &Value) -> Result<&Table, FileFault>
    ensures { Shows (λ t. table_view t.now) result (lift Field (table_at (view value.now))) }
{
    Ok(table_of(value)?)
}

/// The name at a key.
pub(crate) fn name_field<'a>(fields: &'a Table, key: &str) -> Result<&'a str, FileFault>
    ensures { Shows (λ s. s.now) result (name_field key.now (table_view fields.now)) }
{
    let value = wanted(fields, key)?;
    Ok(name_of(value)?)
}

/// The string at a key.
pub(crate) fn text_field<'a>(fields: &'a Table, key: &str) -> Result<&'a str, FileFault>
    ensures { Shows (λ s. s.now) result (text_field key.now (table_view fields.now)) }
{
    let value = wanted(fields, key)?;
    Ok(text_of(value)?)
}

/// The kind of a word.
pub(crate) fn kind_named(word: &str) -> Result<Kind, FileFault>
    ensures { Shows (λ k. k) result (kind_named word.now) }
{
    match word {
        "int" => Ok(Kind::Int),
        "text" => Ok(Kind::Text),
        _ => Err(FileFault::Field(FieldFault::UnknownName)),
    }
}

/// The label of a name.
fn label_named(policy: &Policy, name: &str) -> Result<LabelNo, FileFault>
    ensures reads { Shows (λ n. n) result (label_named policy.now.labels name.now) }
    ensures within { IfOk result (λ n. n < length policy.now.labels) }
{
    match policy.label(name) {
        Some(label) => Ok(label),
        None => Err(FileFault::Field(FieldFault::UnknownName)),
    }
}

/// The label that is named at a key.
pub(crate) fn label_field(policy: &Policy, fields: &Table, key: &str) -> Result<LabelNo, FileFault>
    ensures reads { Shows (λ n. n) result (label_field policy.now.labels key.now (table_view fields.now)) }
    ensures within { IfOk result (λ n. n < length policy.now.labels) }
{
    label_named(policy, name_field(fields, key)?)
}

const MAX_KEYS: usize = 4;

const MAX_OTHERS: usize = 15;

const MAX_RELATIONS: usize = 64;

/// The tables of the key attributes.
#[tactic(auto, using(mls_lattice::proofs::ReadingLemmas::counts), unfolding(crate::specs::Reading::key_items))]
pub(crate) fn key_items<'a>(fields: &'a Table, at: &mut Trail) -> Result<&'a [Value], FileFault>
    ensures { Shows (λ items. items_view items.now) result (key_items (table_view fields.now)) }
{
    let items = optional_tables(fields, at.field(1, "key"))?;
    if items.is_empty() {
        return Err(FileFault::NoKey);
    }
    Ok(bounded(items, MAX_KEYS)?)
}

/// The tables of the attributes outside the key.
#[tactic(auto, unfolding(crate::specs::Reading::other_items))]
pub(crate) fn other_items<'a>(fields: &'a Table, at: &mut Trail) -> Result<&'a [Value], FileFault>
    ensures { Shows (λ items. items_view items.now) result (other_items (table_view fields.now)) }
{
    let items = optional_tables(fields, at.field(1, "attribute"))?;
    Ok(bounded(items, MAX_OTHERS)?)
}

/// The tables of the relations.
#[tactic(auto, unfolding(crate::specs::Reading::relation_items))]
pub(crate) fn relation_items<'a>(
    document: &'a Table,
    at: &mut Trail,
) -> Result<&'a [Value], FileFault>
    ensures { Shows (λ items. items_view items.now) result (relation_items (table_view document.now)) }
{
    let value = wanted(document, at.field(0, "relation"))?;
    let items = tables_of(value)?;
    Ok(some_of(items, MAX_RELATIONS)?)
}
