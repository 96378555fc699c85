//! Whole tables, whose rows are all read.
ghost use Rattle.std.specs.Prelude.{◌≡◌, true, [], ◌∷◌, map, IfOk, IfErr, OnOk, OnErr};
ghost use Rattle.std.specs.List.{AllByRecursion};
ghost use Rattle.sqlite.specs.Held.{state};
ghost use Rattle.mls_tables.specs.declared.rows.MetaRow.{MetaRow as SpecMeta};
ghost use Rattle.mls_tables.specs.Rows.{shown_meta, shows_meta, node_columns, cell_columns, audit_columns, is_node_row};
ghost use Rattle.mls_tables.specs.Rows.{is_cell_row, is_audit_row};
ghost use Rattle.mls_tables.specs.Adopting.{AreNodes, AreCells, AreEntries, ReadsMeta, IsVersion, IsReadDescription};
ghost use Rattle.mls_tables.specs.Adopting.{IsDescribed, IsWholeTable, ReadsTables};

use crate::adopting::AdoptFault;
use crate::decode::rows_from;
use crate::rows::{AuditRow, CellRow, MetaRow, NodeRow};
use crate::statements::streaming;
use sqlite::{Alter, Connection, Row};
use std::alloc::Global;

/// Every node.
pub fn nodes<S: Alter>(conn: &mut Connection<S>, alloc: Global) -> Result<Vec<NodeRow>, AdoptFault>
    ensures { ReadsTables (IsWholeTable is_node_row 0 (λ t. t.nodes)) (λ db. AreNodes (map node_columns (db.trees 0)))
        (state S.Store conn.old) (state S.Store conn.new) result }
{
    let sql = "SELECT rel, ent, kclass, label, pattern, rowid FROM node ORDER BY rowid";
    streaming::whole::<S, NodeRow>(conn, alloc, sql, 5)
}

/// Every cell.
pub fn cells<S: Alter>(conn: &mut Connection<S>, alloc: Global) -> Result<Vec<CellRow>, AdoptFault>
    ensures { ReadsTables (IsWholeTable is_cell_row 2 (λ t. t.cells)) (λ db. AreCells (map cell_columns (db.trees 2)))
        (state S.Store conn.old) (state S.Store conn.new) result }
{
    let sql = "SELECT rel, ent, kclass, label, attr, value, rowid FROM cell ORDER BY rowid";
    streaming::whole::<S, CellRow>(conn, alloc, sql, 6)
}

/// Every entry.
pub fn entries<S: Alter>(
    conn: &mut Connection<S>,
    alloc: Global,
) -> Result<Vec<AuditRow>, AdoptFault>
    ensures { ReadsTables (IsWholeTable is_audit_row 4 (λ t. t.audit))
        (λ db. AreEntries (map audit_columns (db.trees 4)))
        (state S.Store conn.old) (state S.Store conn.new) result }
{
    let sql = "SELECT number, bytes FROM audit ORDER BY number";
    streaming::whole::<S, AuditRow>(conn, alloc, sql, 0)
}

/// The one row, where there is one and its version is 1 or 2.
fn one_description(mut found: Vec<MetaRow>) -> Result<MetaRow, AdoptFault>
    ensures ok { IfOk result (λ m. (found.items ≡ m ∷ []) × IsVersion m.version) }
    ensures bad { OnErr result (¬ ((m : SpecMeta) × (found.items ≡ m ∷ []) × IsVersion m.version)) }
{
    let Some(row) = found.pop() else {
        return Err(AdoptFault::BadRows);
    };
    if !found.is_empty() {
        return Err(AdoptFault::BadRows);
    }
    match row.version {
        1 | 2 => Ok(row),
        _ => Err(AdoptFault::BadRows),
    }
}

/// The same of rows as a query showed them.
fn shown_description(alloc: Global, rows: &[Row]) -> Result<MetaRow, AdoptFault>
    ensures ok { IfOk result (λ m. (map shown_meta rows.now ≡ m ∷ []) × IsVersion m.version) }
    ensures whole { OnOk result (AllByRecursion (λ r. shows_meta r ≡ true) rows.now) }
    ensures bad { IfErr result (λ e. e ≡ AdoptFault.BadRows → AllByRecursion ReadsMeta rows.now
        → ¬ ((m : SpecMeta) × (map shown_meta rows.now ≡ m ∷ []) × IsVersion m.version)) }
{
    match rows_from::<MetaRow>(alloc, rows) {
        Ok(found) => one_description(found),
        Err(error) => Err(AdoptFault::of_row(error)),
    }
}

/// The one row of version 1 or 2 that describes the store.
pub fn description<S: Alter>(conn: &mut Connection<S>, alloc: Global) -> Result<MetaRow, AdoptFault>
    ensures { ReadsTables (λ db m. IsDescribed m db) IsReadDescription
        (state S.Store conn.old) (state S.Store conn.new) result }
{
    match conn.query_all("SELECT id, version, lattice, schemes FROM meta", &[]) {
        Ok(rows) => shown_description(alloc, &rows),
        Err(error) => Err(AdoptFault::of_store(error)),
    }
}
