//! Statements on the table of cells. Its key has `attr` before `label`: the rows of an entity at a key class
//! are looked up by what the key begins with, and those of a class are chosen among them.
ghost use Rattle.std.specs.Prelude.{
  ◌≡◌,
  ◌≢◌,
  ◌⊎◌,
  ◌<◌,
  ◌≤◌,
  ◌+◌,
  ◌*◌,
  length,
  take,
  map,
  filter,
  IfOk,
  IfErr,
  OnOk,
  OnErr,
};
ghost use Rattle.std.specs.Prelude.{IsTrue, IsPermutation};
ghost use Rattle.sqlite.specs.State.{HasCleanDisk, Executes};
ghost use Rattle.sqlite.specs.Held.{state};
ghost use Rattle.sqlite.specs.Values.{bound};
ghost use Rattle.mls_tables.specs.declared.rows.CellRow.{CellRow as SpecCell};
ghost use Rattle.mls_tables.specs.Rows.{tables_of, is_cell_at, is_cell_among, is_cell_in, cell_beside, own_values};
ghost use Rattle.mls_tables.specs.Rows.{cell_values, class_values, at_values, among_values};
ghost use Rattle.sqlite.specs.declared.error.Error.TheVariants.{SqliteFailure};
ghost use Rattle.sqlite.specs.declared.error.ErrorCode.TheVariants.{OutOfMemory};
ghost use Rattle.mls_tables.specs.Sql.{add_cells, set_cell, drop_cells, cells_of_class, cells_among, cells_of_tuple};
ghost use Rattle.mls_tables.specs.Statements.{IsSchemaReady, Changes, IsWrite, AreWrites, IsQuery, AddsCell, AddsCells};
ghost use Rattle.mls_tables.specs.Statements.{ClearsCells, SetsCell, DropsCells, IsOne, has_key_of, IsEnded, IsOfRun};
ghost use Rattle.mls_tables.specs.Statements.{IsWithin, Performs, Refuses, RefusesCells, IsFailed};

use crate::rows::{CellRow, NodeRow, OwnCell, TupleKey};
use crate::statements::streaming::select;
use sqlite::types::{ToSql, ValueRef};
use sqlite::{Alter, Connection, Error, params};
use std::alloc::{AllocError, Global};

/// The statement that adds 15 cells of one entity and class: four parameters are the key, and each cell has two more.
/// Its first
/// 61 + 24 n bytes are the statement that adds n of them.
const ADD_CELLS: &str =
    "INSERT INTO cell (rel, ent, kclass, label, attr, value) VALUES (?1, ?2, ?3, ?4, ?, ?), (?1, ?2, ?3, ?4, ?, ?), (?1, ?2, ?3, ?4, ?, ?), (?1, ?2, ?3, ?4, ?, ?), (?1, ?2, ?3, ?4, ?, ?), (?1, ?2, ?3, ?4, ?, ?), (?1, ?2, ?3, ?4, ?, ?), (?1, ?2, ?3, ?4, ?, ?), (?1, ?2, ?3, ?4, ?, ?), (?1, ?2, ?3, ?4, ?, ?), (?1, ?2, ?3, ?4, ?, ?), (?1, ?2, ?3, ?4, ?, ?), (?1, ?2, ?3, ?4, ?, ?), (?1, ?2, ?3, ?4, ?, ?), (?1, ?2, ?3, ?4, ?, ?)";

/// Adds a cell.
pub fn add_cell<S: Alter>(conn: &mut Connection<S>, cell: &CellRow) -> Result<usize, Error>
    ensures { IsWrite (AddsCell cell.now) (state S.Store conn.old) (state S.Store conn.new) result }
{
    conn.execute(
        "INSERT INTO cell (rel, ent, kclass, label, attr, value) VALUES (?1, ?2, ?3, ?4, ?5, ?6)",
        params![
            cell.rel,
            cell.ent.as_slice(),
            cell.kclass,
            cell.label,
            cell.attr,
            cell.value.as_slice()
        ],
    )
}

/// Adds cells, in a change.
pub fn add_cells<S: Alter>(conn: &mut Connection<S>, cells: &[CellRow]) -> Result<(), Error>
    ensures { AreWrites (AddsCells cells.now) (state S.Store conn.old) (state S.Store conn.new) result }
{
    for cell in cells {
        add_cell(conn, cell)?;
    }
    Ok(())
}

/// The statement that adds so many cells of one entity and class.
fn adding(count: usize) -> &'static str
    requires some { 0 < count }
    requires few { count ≤ 15 }
    ensures { result.now ≡ take (61 + 24 * count) ADD_CELLS.now }
{
    &ADD_CELLS[..61 + 24 * count]
}

/// What the statement that adds cells beside a node is given.
fn params_of<'a>(
    alloc: Global,
    node: &'a NodeRow,
    cells: &'a [OwnCell],
) -> Result<Vec<ValueRef<'a>>, AllocError>
    requires { length cells.now ≤ 15 }
    ensures { IfOk result (λ params. bound params.items ≡ own_values node.now cells.now) }
{
    let mut params = Vec::with_capacity(alloc, 4 + 2 * cells.len())?;
    params.push(node.rel.to_sql())?;
    params.push(node.ent.as_slice().to_sql())?;
    params.push(node.kclass.to_sql())?;
    params.push(node.label.to_sql())?;
    for cell in cells {
        params.push(cell.attr.to_sql())?;
        params.push(cell.value.as_slice().to_sql())?;
    }
    Ok(params)
}

/// Adds some cells beside a node, by one statement.
fn add_some<S: Alter>(
    conn: &mut Connection<S>,
    alloc: Global,
    node: &NodeRow,
    cells: &[OwnCell],
) -> Result<usize, Error>
    requires some { 0 < length cells.now }
    requires few { length cells.now ≤ 15 }
    ensures wrote { AreWrites (AddsCells (map (cell_beside node.now) cells.now))
        (state S.Store conn.old) (state S.Store conn.new) result }
    ensures did { HasCleanDisk (state S.Store conn.new) → IsWithin (state S.Store conn.old)
        → OnOk result (Performs (add_cells (length cells.now)) (own_values node.now cells.now)
        conn.old.step_limit (state S.Store conn.old).now (state S.Store conn.new).now) }
    ensures stopped { HasCleanDisk (state S.Store conn.new) → IsWithin (state S.Store conn.old)
        → IfErr result (λ e. e ≢ SqliteFailure OutOfMemory → IsFailed (state S.Store conn.old) (state S.Store conn.new)
        ⊎ Refuses (add_cells (length cells.now)) (own_values node.now cells.now)
        conn.old.step_limit (state S.Store conn.old).now) }
    ensures faults { (state S.Store conn.old).faults ≤ (state S.Store conn.new).faults }
    ensures limit { conn.new.step_limit ≡ conn.old.step_limit }
{
    let params = params_of(alloc, node, cells)?;
    conn.execute(adding(cells.len()), &params)
}

/// Adds the cells of a tuple's own class beside its node, in a change.
pub fn add_own<S: Alter>(
    conn: &mut Connection<S>,
    alloc: Global,
    node: &NodeRow,
    cells: &[OwnCell],
) -> Result<(), Error>
    ensures wrote { AreWrites (AddsCells (map (cell_beside node.now) cells.now))
        (state S.Store conn.old) (state S.Store conn.new) result }
    ensures stopped { HasCleanDisk (state S.Store conn.new) → IsWithin (state S.Store conn.old)
        → IfErr result (λ e. e ≢ SqliteFailure OutOfMemory → IsFailed (state S.Store conn.old) (state S.Store conn.new)
        ⊎ RefusesCells node.now cells.now conn.old.step_limit (state S.Store conn.old).now) }
{
    for some in cells.chunks(15) {
        add_some(conn, alloc, node, some)?;
    }
    Ok(())
}

/// Drops every cell.
pub fn clear_cells<S: Alter>(conn: &mut Connection<S>) -> Result<usize, Error>
    ensures { IsWrite ClearsCells (state S.Store conn.old) (state S.Store conn.new) result }
{
    conn.execute("DELETE FROM cell", &[])
}

/// Gives the one cell with the key of `cell` its value.
pub fn set_cell<S: Alter>(conn: &mut Connection<S>, cell: &CellRow) -> Result<usize, Error>
    ensures set { HasCleanDisk (state S.Store conn.new) → IsSchemaReady (state S.Store conn.old).now → (was : SpecCell)
        → IsOne (has_key_of cell.now) (tables_of (state S.Store conn.old).now.trees).cells was
        → OnOk result (Changes (SetsCell cell.now) (state S.Store conn.old) (state S.Store conn.new)) }
    ensures cause { HasCleanDisk (state S.Store conn.new)
        → (IsTrue (state S.Store conn.old).is_open → IsSchemaReady (state S.Store conn.old).now)
        → IfErr result IsOfRun }
    ensures err { HasCleanDisk (state S.Store conn.new)
        → OnErr result (IsEnded (state S.Store conn.old) (state S.Store conn.new)) }
    ensures clean { HasCleanDisk (state S.Store conn.new) → HasCleanDisk (state S.Store conn.old) }
    ensures runs { HasCleanDisk (state S.Store conn.new)
        → Executes set_cell (cell_values cell.now) (state S.Store conn.old) (state S.Store conn.new) result }
{
    conn.execute(
        "UPDATE cell SET value = ?6 WHERE rel = ?1 AND ent = ?2 AND kclass = ?3 AND label = ?4 AND attr = ?5",
        params![
            cell.rel,
            cell.ent.as_slice(),
            cell.kclass,
            cell.label,
            cell.attr,
            cell.value.as_slice()
        ],
    )
}

/// Drops the cells of one tuple's own class.
pub fn drop_cells<S: Alter>(conn: &mut Connection<S>, key: &TupleKey) -> Result<usize, Error>
    ensures wrote { IsWrite (DropsCells key.now) (state S.Store conn.old) (state S.Store conn.new) result }
    ensures runs { HasCleanDisk (state S.Store conn.new)
        → Executes drop_cells (class_values key.now) (state S.Store conn.old) (state S.Store conn.new) result }
{
    conn.execute(
        "DELETE FROM cell WHERE rel = ?1 AND ent = ?2 AND kclass = ?3 AND label = ?4",
        params![key.rel, key.ent.as_slice(), key.kclass, key.label],
    )
}

/// The cells of one class.
pub fn cells_of_class<S: Alter>(
    conn: &mut Connection<S>,
    alloc: Global,
    rel: u32,
    label: u32,
) -> Result<Vec<CellRow>, Error>
    ensures { IsQuery (IsPermutation (filter (is_cell_at rel label)
        (tables_of (state S.Store conn.old).now.trees).cells))
        cells_of_class (at_values rel label)
        (state S.Store conn.old) (state S.Store conn.new) result }
{
    select::<S, CellRow>(
        conn,
        alloc,
        "SELECT rel, ent, kclass, label, attr, value FROM cell WHERE rel = ?1 AND label = ?2",
        params![rel, label],
    )
}

/// The cells of the labels whose bits are set.
pub fn cells_among<S: Alter>(
    conn: &mut Connection<S>,
    alloc: Global,
    rel: u32,
    labels: u64,
) -> Result<Vec<CellRow>, Error>
    ensures { IsQuery (IsPermutation (filter (is_cell_among rel labels)
        (tables_of (state S.Store conn.old).now.trees).cells))
        cells_among (among_values rel labels)
        (state S.Store conn.old) (state S.Store conn.new) result }
{
    select::<S, CellRow>(
        conn,
        alloc,
        "SELECT rel, ent, kclass, label, attr, value FROM cell WHERE rel = ?1 AND ?2 & (1 << label)",
        params![rel, labels.cast_signed()],
    )
}

/// The cells of one tuple's own class.
pub fn cells_of_tuple<S: Alter>(
    conn: &mut Connection<S>,
    alloc: Global,
    key: &TupleKey,
) -> Result<Vec<CellRow>, Error>
    ensures { IsQuery (IsPermutation
        (filter (is_cell_in key.now) (tables_of (state S.Store conn.old).now.trees).cells))
        cells_of_tuple (class_values key.now)
        (state S.Store conn.old) (state S.Store conn.new) result }
{
    select::<S, CellRow>(
        conn,
        alloc,
        "SELECT rel, ent, kclass, label, attr, value FROM cell WHERE rel = ?1 AND ent = ?2 AND kclass = ?3 AND label = ?4",
        params![key.rel, key.ent.as_slice(), key.kclass, key.label],
    )
}
