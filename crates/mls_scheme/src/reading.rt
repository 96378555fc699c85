//! Schemes from the tables of a document.
ghost use Rattle.std.specs.Prelude.{◌≡◌, ◌++◌, [], false, IfOk, string_bytes};
ghost use Rattle.toml.specs.View.{view, items_view, table_view};
ghost use Rattle.mls_scheme.specs.Named.{item_of, has_name};
ghost use Rattle.mls_lattice.specs.Reading.{Shows, Gives};
ghost use Rattle.mls_scheme.specs.Reading.{column_at, attribute_at, has_key_interval, key_at, other_at, gather};
ghost use Rattle.mls_scheme.specs.Reading.{attributes_at, has_relation, scheme_at, file_at};

use crate::attributes::{Attributes, Column};
use crate::fault::FileFault;
use crate::fields::{
    fields_of, key_items, kind_named, label_field, name_field, other_items, relation_items,
    text_field, version_field,
};
use crate::file::SchemesFile;
use crate::scheme::{Scheme, Schemes};
use mls_lattice::{Failed, FieldFault, Policy, Str, Trail};
use std::alloc::Global;
use toml::{Table, Value};

#[tactic(auto, unfolding(crate::specs::Reading::column_at))]
fn column_of(policy: &Policy, fields: &Table, at: &mut Trail) -> Result<Column, FileFault>
    ensures { Shows (λ c. c) result (column_at policy.now (table_view fields.now)) }
{
    let kind = kind_named(text_field(fields, at.field(2, "kind"))?)?;
    let low = label_field(policy, fields, at.field(2, "low"))?;
    let high = label_field(policy, fields, at.field(2, "high"))?;
    if policy.dominates(high, low) {
        Ok(Column { kind, low, high })
    } else {
        Err(FileFault::Field(FieldFault::EmptyInterval))
    }
}

/// Whether a name is taken by an attribute.
#[tactic(auto, using(crate::proofs::NamedLemmas::name_steps))]
fn is_taken(keys: &Attributes, others: &Attributes, name: &str) -> bool
    ensures { result ≡ has_name (keys.now ++ others.now) name.now }
{
    keys.has(name) || others.has(name)
}

#[tactic(auto, unfolding(crate::specs::Reading::attribute_at))]
fn read_attribute(
    alloc: Global,
    policy: &Policy,
    keys: &Attributes,
    others: &Attributes,
    value: &Value,
    at: &mut Trail,
) -> Result<(String, Column), Failed<FileFault>>
    ensures reads { Gives item_of result (attribute_at policy.now (keys.now ++ others.now) (view value.now)) }
    ensures fresh { IfOk result (λ a. has_name (keys.now ++ others.now) (string_bytes a.0) ≡ false) }
{
    let fields = fields_of(value)?;
    let name = name_field(fields, at.field(2, "name"))?;
    if is_taken(keys, others, name) {
        return Err(Failed::Fault(FileFault::Field(FieldFault::Repeated)));
    }
    let column = column_of(policy, fields, at)?;
    Ok((String::from_str(alloc, name)?, column))
}

/// Whether an interval is that of the first key attribute, if there is one.
fn has_key_interval(keys: &Attributes, column: Column) -> bool
    ensures { result ≡ has_key_interval keys.now column }
{
    if keys.is_empty() {
        return true;
    }
    let first = keys.get(0);
    first.low == column.low && first.high == column.high
}

#[tactic(auto, unfolding(crate::specs::Reading::key_at))]
fn read_key_attribute(
    alloc: Global,
    policy: &Policy,
    keys: &Attributes,
    value: &Value,
    at: &mut Trail,
) -> Result<(String, Column), Failed<FileFault>>
    ensures reads { Gives item_of result (key_at policy.now keys.now (view value.now)) }
    ensures fresh { IfOk result (λ a. has_name keys.now (string_bytes a.0) ≡ false) }
{
    let none = Attributes::new(alloc);
    let attribute = read_attribute(alloc, policy, &none, keys, value, at)?;
    at.back(1);
    if has_key_interval(keys, attribute.1) {
        Ok(attribute)
    } else {
        Err(Failed::Fault(FileFault::KeyIntervals))
    }
}

#[tactic(auto, using(crate::proofs::NamedLemmas::name_steps), unfolding(crate::specs::Reading::other_at))]
fn read_other_attribute(
    alloc: Global,
    policy: &Policy,
    keys: &Attributes,
    others: &Attributes,
    value: &Value,
    at: &mut Trail,
) -> Result<(String, Column), Failed<FileFault>>
    ensures reads { Gives item_of result (other_at policy.now keys.now others.now (view value.now)) }
    ensures fresh { IfOk result (λ a. has_name others.now (string_bytes a.0) ≡ false) }
{
    read_attribute(alloc, policy, keys, others, value, at)
}

/// The key attributes.
#[tactic(auto, using(crate::proofs::SchemeSteps::gather_steps))]
fn read_key_attributes(
    alloc: Global,
    policy: &Policy,
    items: &[Value],
    at: &mut Trail,
) -> Result<Attributes, Failed<FileFault>>
    ensures { Gives (λ a. a) result (gather (key_at policy.now) [] (items_view items.now)) }
{
    let mut keys = Attributes::new(alloc);
    for value in items {
        at.next(1);
        let attribute = read_key_attribute(alloc, policy, &keys, value, at)?;
        keys.push(attribute.0, attribute.1)?;
    }
    Ok(keys)
}

/// The attributes outside the key.
#[tactic(auto, using(crate::proofs::SchemeSteps::gather_steps))]
fn read_other_attributes(
    alloc: Global,
    policy: &Policy,
    keys: &Attributes,
    items: &[Value],
    at: &mut Trail,
) -> Result<Attributes, Failed<FileFault>>
    ensures { Gives (λ a. a) result (gather (other_at policy.now keys.now) [] (items_view items.now)) }
{
    let mut others = Attributes::new(alloc);
    for value in items {
        at.next(1);
        let attribute = read_other_attribute(alloc, policy, keys, &others, value, at)?;
        others.push(attribute.0, attribute.1)?;
    }
    Ok(others)
}

fn has_relation(relations: &[Scheme], name: &str) -> bool
    ensures { result ≡ has_relation relations.now name.now }
{
    relations.iter().any(|scheme| scheme.name() == name)
}

/// The key attributes, and those outside the key.
#[tactic(auto, unfolding(crate::specs::Reading::attributes_at))]
fn read_attributes(
    alloc: Global,
    policy: &Policy,
    fields: &Table,
    at: &mut Trail,
) -> Result<(Attributes, Attributes), Failed<FileFault>>
    ensures { Gives (λ a. a) result (attributes_at policy.now (table_view fields.now)) }
{
    let items = key_items(fields, at)?;
    let keys = read_key_attributes(alloc, policy, items, at)?;
    let items = other_items(fields, at)?;
    let others = read_other_attributes(alloc, policy, &keys, items, at)?;
    Ok((keys, others))
}

#[tactic(auto, unfolding(crate::specs::Reading::scheme_at))]
fn read_scheme(
    alloc: Global,
    policy: &Policy,
    before: &[Scheme],
    value: &Value,
    at: &mut Trail,
) -> Result<Scheme, Failed<FileFault>>
    ensures { Gives (λ s. s) result (scheme_at policy.now before.now (view value.now)) }
{
    let fields = fields_of(value)?;
    let name = name_field(fields, at.field(1, "name"))?;
    if has_relation(before, name) {
        return Err(Failed::Fault(FileFault::Field(FieldFault::Repeated)));
    }
    let (keys, others) = read_attributes(alloc, policy, fields, at)?;
    let name = Str::copy_of(alloc, name)?;
    Ok(Scheme::new(name, keys, others))
}

#[tactic(auto, using(crate::proofs::SchemeSteps::gather_steps))]
fn read_relations(
    alloc: Global,
    policy: &Policy,
    items: &[Value],
    at: &mut Trail,
) -> Result<Vec<Scheme>, Failed<FileFault>>
    ensures { Gives (λ v. v.items) result (gather (scheme_at policy.now) [] (items_view items.now)) }
{
    let mut relations = Vec::new(alloc);
    for value in items {
        at.next(0);
        let scheme = read_scheme(alloc, policy, &relations, value, at)?;
        relations.push(scheme)?;
    }
    Ok(relations)
}

#[tactic(auto, unfolding(crate::specs::Reading::file_at))]
pub(crate) fn schemes_of(
    alloc: Global,
    policy: &Policy,
    document: &Table,
    at: &mut Trail,
) -> Result<SchemesFile, Failed<FileFault>>
    ensures { Gives (λ f. (f.version, f.schemes)) result (file_at policy.now (table_view document.now)) }
{
    let version = version_field(document, at)?;
    let items = relation_items(document, at)?;
    let relations = read_relations(alloc, policy, items, at)?;
    Ok(SchemesFile {
        version,
        schemes: Schemes::new(relations),
    })
}
