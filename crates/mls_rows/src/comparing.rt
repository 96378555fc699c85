//! The rows that tables have, compared with those of a store.
ghost use Rattle.std.specs.Prelude.{◌≡◌, ◌≤◌, ◌++◌, false, length, map, flat_map, IsTrue, IfOk, OnOk, IsPermutation};
ghost use Rattle.std.specs.List.{AllByRecursion};
ghost use Rattle.mls_filterview.specs.Fragment.{node_of, cells_of};
ghost use Rattle.mls_rows.specs.Finding.{IsSpelledEntry, AreAlike, node_rows, cell_rows};
ghost use Rattle.mls_rows.specs.Holding.{node_row, cell_row};
ghost use Rattle.mls_rows.specs.Condemning.{IsOfTuples};

use crate::place::{Step, Where};
use crate::writing::{row_of_cell, row_of_node};
use mls_filterview::{TupleMap, cells_of, nodes_of};
use mls_scheme::RelNo;
use mls_tables::{CellRow, NodeRow};
use std::alloc::{AllocError, Global};

/// Puts the rows of the nodes of a relation behind others.
fn push_nodes(
    alloc: Global,
    rows: &mut Vec<NodeRow>,
    relation: RelNo,
    table: &TupleMap,
) -> Result<(), AllocError>
    requires spelled { AllByRecursion IsSpelledEntry table.now.entries }
    ensures pushed { OnOk result (rows.new.items ≡ rows.old.items
        ++ map (node_row relation) (map node_of table.now.entries)) }
{
    let nodes = nodes_of(alloc, table)?;
    for node in &nodes {
        rows.push(row_of_node(alloc, relation, node)?)?;
    }
    Ok(())
}

/// Puts the rows of the cells of a relation behind others.
fn push_cells(
    alloc: Global,
    rows: &mut Vec<CellRow>,
    relation: RelNo,
    table: &TupleMap,
) -> Result<(), AllocError>
    requires spelled { AllByRecursion IsSpelledEntry table.now.entries }
    ensures pushed { OnOk result (rows.new.items ≡ rows.old.items
        ++ map (cell_row relation) (flat_map cells_of table.now.entries)) }
{
    let cells = cells_of(alloc, table)?;
    for cell in &cells {
        rows.push(row_of_cell(alloc, relation, cell)?)?;
    }
    Ok(())
}

/// The rows of the nodes of tables.
pub fn node_rows(alloc: Global, tables: &[TupleMap]) -> Result<Vec<NodeRow>, AllocError>
    requires few { length tables.now ≤ 256 }
    requires spelled { AllByRecursion (λ t. AllByRecursion IsSpelledEntry t.entries) tables.now }
    ensures rows { IfOk result (λ rows. rows.items ≡ node_rows 0 (map (λ t. t.entries) tables.now)) }
{
    let mut rows = Vec::new(alloc);
    for (relation, table) in tables.iter().enumerate() {
        push_nodes(alloc, &mut rows, RelNo::new(relation as u8), table)?;
    }
    Ok(rows)
}

/// The rows of the cells of tables.
pub fn cell_rows(alloc: Global, tables: &[TupleMap]) -> Result<Vec<CellRow>, AllocError>
    requires few { length tables.now ≤ 256 }
    requires spelled { AllByRecursion (λ t. AllByRecursion IsSpelledEntry t.entries) tables.now }
    ensures rows { IfOk result (λ rows. rows.items ≡ cell_rows 0 (map (λ t. t.entries) tables.now)) }
{
    let mut rows = Vec::new(alloc);
    for (relation, table) in tables.iter().enumerate() {
        push_cells(alloc, &mut rows, RelNo::new(relation as u8), table)?;
    }
    Ok(rows)
}

/// Whether two lists have the same rows, each as often.
fn have_same_nodes(
    mut left: Vec<NodeRow>,
    mut right: Vec<NodeRow>,
    at: &mut Where,
) -> Result<bool, AllocError>
    ensures same { IfOk result (λ b. IsTrue b → IsPermutation left.items right.items) }
    ensures only { AreAlike (λ r. r.rel) left.items right.items → IfOk result IsTrue }
    ensures condemned { IfOk result (λ b. b ≡ false → IsOfTuples at.new.step) }
{
    left.sort()?;
    right.sort()?;
    let are_same = left.as_slice() == right.as_slice();
    if !are_same {
        at.compare(Step::LooseNode, Step::LooseNode, &right, &left);
    }
    Ok(are_same)
}

/// Whether two lists have the same rows, each as often.
fn have_same_cells(
    mut left: Vec<CellRow>,
    mut right: Vec<CellRow>,
    at: &mut Where,
) -> Result<bool, AllocError>
    ensures same { IfOk result (λ b. IsTrue b → IsPermutation left.items right.items) }
    ensures only { AreAlike (λ r. r.rel) left.items right.items → IfOk result IsTrue }
    ensures condemned { IfOk result (λ b. b ≡ false → IsOfTuples at.new.step) }
{
    left.sort()?;
    right.sort()?;
    let are_same = left.as_slice() == right.as_slice();
    if !are_same {
        at.compare(Step::LooseCell, Step::MissingCell, &right, &left);
    }
    Ok(are_same)
}

/// Whether the nodes and the cells of tables are these.
pub(crate) fn have_rows(
    alloc: Global,
    tables: &[TupleMap],
    nodes: Vec<NodeRow>,
    cells: Vec<CellRow>,
    at: &mut Where,
) -> Result<bool, AllocError>
    requires few { length tables.now ≤ 256 }
    requires spelled { AllByRecursion (λ t. AllByRecursion IsSpelledEntry t.entries) tables.now }
    ensures same { IfOk result (λ b. IsTrue b
        → IsPermutation (node_rows 0 (map (λ t. t.entries) tables.now)) nodes.items
        × IsPermutation (cell_rows 0 (map (λ t. t.entries) tables.now)) cells.items) }
    ensures only { AreAlike (λ r. r.rel) (node_rows 0 (map (λ t. t.entries) tables.now)) nodes.items
        → AreAlike (λ r. r.rel) (cell_rows 0 (map (λ t. t.entries) tables.now)) cells.items → IfOk result IsTrue }
    ensures condemned { IfOk result (λ b. b ≡ false → IsOfTuples at.new.step) }
{
    if !have_same_nodes(node_rows(alloc, tables)?, nodes, at)? {
        return Ok(false);
    }
    have_same_cells(cell_rows(alloc, tables)?, cells, at)
}
