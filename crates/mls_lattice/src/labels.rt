//! The labels of a document.
ghost use Rattle.std.specs.Prelude.{◌≡◌, ◌<◌, ◌≤◌, [], length, IfOk, IfSome, map, position, bytes_eq};
ghost use Rattle.std.specs.List.{list_any};
ghost use Rattle.std.specs.FinSet as set;
ghost use Rattle.toml.specs.View.{view, items_view, table_view};
ghost use Rattle.mls_lattice.specs.Lattice.{cats_of, pair_of, same_pair};
ghost use Rattle.mls_lattice.specs.Policy.{named};
ghost use Rattle.mls_lattice.specs.Reading.{Shows, Gives};
ghost use Rattle.mls_lattice.specs.PolicyReading.{rows_at, more_categories, value_at, label_at, labels_at, label_place};

use crate::document::{name_field, name_of, optional_texts, some_of, table_of, tables_of, wanted};
use crate::failed::Failed;
use crate::fault::FieldFault;
use crate::label::Label;
use crate::names::place_of;
use crate::tables::NamedLabel;
use crate::text::Str;
use crate::trail::Trail;
use std::alloc::Global;
use toml::{Table, Value};

/// The most labels of a policy.
const MAX_LABELS: usize = 64;

/// The words of a set with the categories of these names.
#[tactic(auto, using(crate::proofs::PolicyReadingLemmas::category_steps))]
fn categories_named(categories: &[Str], items: &[Value], at: &mut Trail) -> Result<u32, FieldFault>
    requires { length categories.now ≤ 32 }
    ensures { Shows cats_of result (more_categories categories.now set.empty (items_view items.now)) }
{
    let mut label = Label { rank: 0, cats: 0 };
    for value in items {
        at.next(1);
        let place = place_of(categories, name_of(value)?)? as u32;
        if label.has(place) {
            return Err(FieldFault::Repeated);
        }
        label = label.with(place);
    }
    Ok(label.cats)
}

fn has_name(labels: &[NamedLabel], name: &str) -> bool
    ensures { result ≡ list_any (λ l. bytes_eq l.name name.now) labels.now }
{
    labels.iter().any(|other| other.name.as_str() == name)
}

fn has_value(labels: &[NamedLabel], label: Label) -> bool
    ensures { result ≡ list_any (λ l. same_pair (pair_of l.label) (pair_of label)) labels.now }
{
    labels.iter().any(|other| other.label.same(label))
}

/// The rank and the categories that the fields of a label say.
#[tactic(auto, unfolding(crate::specs::PolicyReading::value_at))]
fn value_of(
    levels: &[Str],
    categories: &[Str],
    fields: &Table,
    at: &mut Trail,
) -> Result<Label, FieldFault>
    requires few_levels { length levels.now ≤ 16 }
    requires few_categories { length categories.now ≤ 32 }
    ensures { Shows pair_of result (value_at levels.now categories.now (table_view fields.now)) }
{
    let rank = place_of(levels, name_field(fields, at.field(1, "level"))?)? as u8;
    let items = optional_texts(fields, at.field(1, "categories"))?;
    let cats = categories_named(categories, items, at)?;
    Ok(Label { rank, cats })
}

#[tactic(auto, using(crate::proofs::PolicyReadingLemmas::label_views), unfolding(crate::specs::PolicyReading::label_at))]
fn label_of(
    alloc: Global,
    levels: &[Str],
    categories: &[Str],
    labels: &[NamedLabel],
    value: &Value,
    at: &mut Trail,
) -> Result<NamedLabel, Failed<FieldFault>>
    requires few_levels { length levels.now ≤ 16 }
    requires few_categories { length categories.now ≤ 32 }
    ensures { Gives named result (label_at levels.now categories.now (map named labels.now) (view value.now)) }
{
    let fields = table_of(value)?;
    let name = name_field(fields, at.field(1, "name"))?;
    if has_name(labels, name) {
        return Err(Failed::Fault(FieldFault::Repeated));
    }
    let label = value_of(levels, categories, fields, at)?;
    at.back(0);
    if has_value(labels, label) {
        return Err(Failed::Fault(FieldFault::Repeated));
    }
    let name = Str::copy_of(alloc, name)?;
    Ok(NamedLabel { name, label })
}

fn rows_of(
    alloc: Global,
    levels: &[Str],
    categories: &[Str],
    items: &[Value],
    at: &mut Trail,
) -> Result<Vec<NamedLabel>, Failed<FieldFault>>
    requires few_levels { length levels.now ≤ 16 }
    requires few_categories { length categories.now ≤ 32 }
    ensures reads { Gives (λ v. map named v.items) result
        (rows_at (label_at levels.now categories.now) [] (items_view items.now)) }
    ensures count { IfOk result (λ v. length v.items ≡ length items.now) }
{
    let mut labels = Vec::new(alloc);
    for value in items {
        at.next(0);
        let label = label_of(alloc, levels, categories, &labels, value, at)?;
        labels.push(label)?;
    }
    Ok(labels)
}

/// The labels of a document.
#[tactic(auto, using(crate::proofs::ReadingLemmas::counts), unfolding(crate::specs::PolicyReading::labels_at))]
pub(crate) fn labels_of(
    alloc: Global,
    levels: &[Str],
    categories: &[Str],
    document: &Table,
    at: &mut Trail,
) -> Result<Vec<NamedLabel>, Failed<FieldFault>>
    requires few_levels { length levels.now ≤ 16 }
    requires few_categories { length categories.now ≤ 32 }
    ensures reads { Gives (λ v. map named v.items) result
        (labels_at levels.now categories.now (table_view document.now)) }
    ensures count { IfOk result (λ v. length v.items ≤ 64) }
{
    let all = tables_of(wanted(document, at.field(0, "label"))?)?;
    let items = some_of(all, MAX_LABELS)?;
    rows_of(alloc, levels, categories, items, at)
}

/// Where the first label of a name stands.
pub(crate) fn position_of_label(labels: &[NamedLabel], name: &str) -> Option<usize>
    ensures exact { result ≡ position (λ l. bytes_eq l.name name.now) labels.now }
    ensures within { IfSome result (λ place. place < length labels.now) }
{
    labels.iter().position(|label| label.name.as_str() == name)
}

/// The number of the label of a name.
#[tactic(auto, using(crate::proofs::PolicyReadingLemmas::label_views))]
pub(crate) fn label_place(labels: &[NamedLabel], name: &str) -> Result<usize, FieldFault>
    ensures reads { Shows (λ place. place) result (label_place (map named labels.now) name.now) }
    ensures within { IfOk result (λ place. place < length labels.now) }
{
    match position_of_label(labels, name) {
        Some(place) => Ok(place),
        None => Err(FieldFault::UnknownName),
    }
}
