//! A view as a table. Cells are made twice, for the widths and for the rows, and so no list of all cells is
//! kept.
ghost use Rattle.std.specs.Prelude.{◌≡◌, ◌<◌, ◌++◌, map, length, codes, OnOk, IfOk, Some, [], flat_map};
ghost use Rattle.std.specs.List.{AllByRecursion};
ghost use Rattle.mls_lattice.specs.Canon.{label_name};
ghost use Rattle.mls_scheme.specs.Tuple.{HasClassesBelow};
ghost use Rattle.mls_tokens.specs.Screen.{escaped};
ghost use Rattle.mls_tokens.specs.Table.{wider, padded};
ghost use Rattle.mls_machine.specs.Output.{on_line, table_cell, tuple_cells, name_cells, widths_with, table_title};
ghost use Rattle.mls_machine.specs.Output.{table_names, table_rule, table_row, table_widths};

use crate::answered::Answered;
use crate::asked::{Asked, push_asked};
use crate::printing::push_front;
use crate::printing_rows::name_of;
use mls_lattice::{Items, LabelNo, Policy};
use mls_queries::Selection;
use mls_scheme::{Attributes, Element, Scheme, Tuple, Value, tuple_class};
use mls_tokens::{escape, push_row, push_rule, push_str, wider};
use mls_translang::{push_cell, push_value};
use std::alloc::{AllocError, Global};

// ---- cells

/// A cell, from the text of its value and its class.
fn cell_of(
    alloc: Global,
    value: Vec<u8>,
    policy: &Policy,
    class: LabelNo,
) -> Result<Items<u8>, AllocError>
    requires { class < length policy.now.labels }
    ensures { IfOk result (λ cell. cell ≡ escaped (value.items ++ codes " " ++ label_name policy.now.labels class)) }
{
    let mut text = value;
    push_str(&mut text, " ")?;
    push_str(&mut text, policy.name(class))?;
    Ok(Items::from(escape(alloc, &text)?))
}

fn key_cell(
    alloc: Global,
    policy: &Policy,
    class: LabelNo,
    value: &Value,
) -> Result<Items<u8>, AllocError>
    requires { class < length policy.now.labels }
    ensures { IfOk result (λ cell. cell ≡ table_cell policy.now.labels class (Some value.now)) }
{
    let mut text = Vec::new(alloc);
    push_value(alloc, &mut text, value)?;
    cell_of(alloc, text, policy, class)
}

fn element_cell(alloc: Global, policy: &Policy, element: &Element) -> Result<Items<u8>, AllocError>
    requires { element.now.class < length policy.now.labels }
    ensures { IfOk result (λ cell. cell ≡ table_cell policy.now.labels element.now.class element.now.value) }
{
    let mut text = Vec::new(alloc);
    push_cell(alloc, &mut text, &element.value)?;
    cell_of(alloc, text, policy, element.class)
}

fn push_key_cells(
    alloc: Global,
    cells: &mut Vec<Items<u8>>,
    policy: &Policy,
    class: LabelNo,
    key: &[Value],
) -> Result<(), AllocError>
    requires { class < length policy.now.labels }
    ensures { OnOk result (cells.new.items ≡ cells.old.items
        ++ map (λ v. table_cell policy.now.labels class (Some v)) key.now) }
{
    for value in key {
        let cell = key_cell(alloc, policy, class, value)?;
        cells.push(cell)?;
    }
    Ok(())
}

fn push_element_cells(
    alloc: Global,
    cells: &mut Vec<Items<u8>>,
    policy: &Policy,
    elements: &[Element],
) -> Result<(), AllocError>
    requires { AllByRecursion (λ e. e.class < length policy.now.labels) elements.now }
    ensures { OnOk result (cells.new.items ≡ cells.old.items
        ++ map (λ e. table_cell policy.now.labels e.class e.value) elements.now) }
{
    for element in elements {
        let cell = element_cell(alloc, policy, element)?;
        cells.push(cell)?;
    }
    Ok(())
}

/// The cells of a tuple: its values, each with its class.
fn tuple_cells(alloc: Global, policy: &Policy, tuple: &Tuple) -> Result<Vec<Items<u8>>, AllocError>
    requires { HasClassesBelow (length policy.now.labels) tuple.now }
    ensures { IfOk result (λ cells. cells.items ≡ tuple_cells policy.now tuple.now) }
{
    let mut cells = Vec::new(alloc);
    push_key_cells(alloc, &mut cells, policy, tuple.key_class, &tuple.key)?;
    push_element_cells(alloc, &mut cells, policy, &tuple.elements)?;
    Ok(cells)
}

fn name_cell(alloc: Global, name: &str) -> Result<Items<u8>, AllocError>
    ensures { IfOk result (λ cell. cell ≡ name.now) }
{
    let mut text = Vec::new(alloc);
    push_str(&mut text, name)?;
    Ok(Items::from(text))
}

fn push_name_cells(
    alloc: Global,
    cells: &mut Vec<Items<u8>>,
    attributes: &Attributes,
) -> Result<(), AllocError>
    ensures { OnOk result (cells.new.items ≡ cells.old.items ++ map (λ a. a.0) attributes.now) }
{
    for place in 0..attributes.len() {
        let cell = name_cell(alloc, attributes.name(place))?;
        cells.push(cell)?;
    }
    Ok(())
}

/// The cells of the heading: the names of the attributes.
fn name_cells(alloc: Global, scheme: &Scheme) -> Result<Vec<Items<u8>>, AllocError>
    ensures { IfOk result (λ cells. cells.items ≡ name_cells scheme.now) }
{
    let mut cells = Vec::new(alloc);
    push_name_cells(alloc, &mut cells, scheme.keys())?;
    push_name_cells(alloc, &mut cells, scheme.others())?;
    Ok(cells)
}

// ---- columns

/// How wide columns are that have room for the cells of a tuple too.
fn widened(
    alloc: Global,
    policy: &Policy,
    widths: &[usize],
    tuple: &Tuple,
) -> Result<Vec<usize>, AllocError>
    requires { HasClassesBelow (length policy.now.labels) tuple.now }
    ensures { IfOk result (λ wide. wide.items ≡ wider widths.now 0 (tuple_cells policy.now tuple.now)) }
{
    let cells = tuple_cells(alloc, policy, tuple)?;
    wider(alloc, widths, &cells)
}

/// How wide the columns of a table are.
#[tactic(auto, using(crate::proofs::TableSteps::widths_steps))]
fn widths_of(
    alloc: Global,
    policy: &Policy,
    names: &[Items<u8>],
    rows: &Selection,
) -> Result<Vec<usize>, AllocError>
    requires { AllByRecursion (HasClassesBelow (length policy.now.labels)) rows.now }
    ensures { IfOk result (λ widths. widths.items ≡ widths_with policy.now (wider [] 0 names.now) rows.now) }
{
    let mut widths = wider(alloc, &[], names)?;
    for place in 0..rows.len() {
        widths = widened(alloc, policy, &widths, rows.get(place))?;
    }
    Ok(widths)
}

// ---- lines

fn push_title_line(text: &mut Vec<u8>, to: &Answered, what: &Asked) -> Result<(), AllocError>
    ensures { OnOk result (text.new.items ≡ text.old.items ++ on_line to.now.policy.now to.now.event.now
        (table_title what.now.policy.now what.now.scheme.now what.now.label what.now.query.now)) }
{
    push_front(text, to, to.event.level)?;
    push_asked(text, "view", what)?;
    push_str(text, "\n")?;
    Ok(())
}

fn push_names_line(
    text: &mut Vec<u8>,
    to: &Answered,
    names: &[Items<u8>],
    widths: &[usize],
) -> Result<(), AllocError>
    ensures { OnOk result (text.new.items ≡ text.old.items
        ++ on_line to.now.policy.now to.now.event.now (padded widths.now 0 names.now ++ codes "class")) }
{
    push_front(text, to, to.event.level)?;
    push_row(text, widths, names)?;
    push_str(text, "class")?;
    push_str(text, "\n")?;
    Ok(())
}

fn push_rule_line(text: &mut Vec<u8>, to: &Answered, widths: &[usize]) -> Result<(), AllocError>
    ensures { OnOk result (text.new.items ≡ text.old.items
        ++ on_line to.now.policy.now to.now.event.now (table_rule widths.now)) }
{
    push_front(text, to, to.event.level)?;
    push_rule(text, widths)?;
    push_str(text, "-----")?;
    push_str(text, "\n")?;
    Ok(())
}

/// Appends the cells of a tuple and its class.
fn push_tuple(
    alloc: Global,
    text: &mut Vec<u8>,
    policy: &Policy,
    widths: &[usize],
    tuple: &Tuple,
) -> Result<(), AllocError>
    requires { HasClassesBelow (length policy.now.labels) tuple.now }
    ensures { OnOk result (text.new.items ≡ text.old.items ++ table_row policy.now widths.now tuple.now) }
{
    let cells = tuple_cells(alloc, policy, tuple)?;
    push_row(text, widths, &cells)?;
    push_str(text, name_of(policy, tuple_class(policy, tuple)))
}

fn push_tuples(
    text: &mut Vec<u8>,
    to: &Answered,
    widths: &[usize],
    rows: &Selection,
) -> Result<(), AllocError>
    requires { AllByRecursion (HasClassesBelow (length to.now.policy.now.labels)) rows.now }
    ensures { OnOk result (text.new.items ≡ text.old.items ++ flat_map
        (λ t. on_line to.now.policy.now to.now.event.now (table_row to.now.policy.now widths.now t)) rows.now) }
{
    for place in 0..rows.len() {
        push_front(text, to, to.event.level)?;
        push_tuple(to.alloc, text, to.policy, widths, rows.get(place))?;
        push_str(text, "\n")?;
    }
    Ok(())
}

/// Appends the lines of a view as a table.
pub(crate) fn push_table(
    text: &mut Vec<u8>,
    to: &Answered,
    what: &Asked,
    rows: &Selection,
) -> Result<(), AllocError>
    requires { AllByRecursion (HasClassesBelow (length to.now.policy.now.labels)) rows.now }
    ensures { let row = on_line to.now.policy.now to.now.event.now in
        let widths = table_widths to.now.policy.now what.now.scheme.now rows.now in
        OnOk result (text.new.items ≡ text.old.items
        ++ (row (table_title what.now.policy.now what.now.scheme.now what.now.label what.now.query.now)
        ++ (row (table_names what.now.scheme.now widths) ++ (row (table_rule widths)
        ++ flat_map (λ t. row (table_row to.now.policy.now widths t)) rows.now)))) }
{
    let names = name_cells(to.alloc, what.scheme)?;
    let widths = widths_of(to.alloc, to.policy, &names, rows)?;
    push_title_line(text, to, what)?;
    push_names_line(text, to, &names, &widths)?;
    push_rule_line(text, to, &widths)?;
    push_tuples(text, to, &widths, rows)
}
