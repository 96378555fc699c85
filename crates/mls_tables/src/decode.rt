//! Rows of tables from rows that queries show.
ghost use Rattle.std.specs.Prelude.{◌≡◌, pos, Bool, true, map, IfOk, IfErr};
ghost use Rattle.std.specs.List.{AllByRecursion};
ghost use Rattle.sqlite_value.specs.Order.{Row as SqlRow, column};
ghost use Rattle.sqlite_trees.specs.View.{is_int};
ghost use Rattle.sqlite_rules.specs.Edit.{id_in};
ghost use Rattle.mls_tables.specs.Rows.{nat_in, blob_in, text_in, is_nat, is_blob, is_text, shown_node, shows_node};
ghost use Rattle.mls_tables.specs.Rows.{shown_cell, shows_cell, shown_entry, shows_entry, shown_meta, shows_meta};
ghost use Rattle.mls_tables.specs.Rows.{are_numbered};
ghost use Rattle.mls_tables.specs.Pattern.{shown_bytes};
ghost use Rattle.mls_tables.specs.Adopting.{IsNumber, IsInteger, IsBytes, IsText, ReadsNode, ReadsCell, ReadsEntry};
ghost use Rattle.mls_tables.specs.Adopting.{ReadsMeta, Refutes};

use crate::rows::{AuditRow, CellRow, MetaRow, NodeRow};
use mls_lattice::{Items, Str};
use sqlite::{Error, Row};
use std::alloc::Global;

/// What a row stands for, as a query shows it.
pub(crate) trait Shown: Drop {
    // What a row shows, whether it shows as much, and which rows read.
    ghost show: { SqlRow → Self };

    ghost shows: { SqlRow → Bool };

    ghost reads: { SqlRow → Type 0 };

    /// What a row shows.
    fn from_row(row: &Row) -> Result<Self, Error>
        ensures ok { IfOk result (λ x. (x ≡ show row.now) × (shows row.now ≡ true)) }
        ensures refused { IfErr result (Refutes (reads row.now)) };
}

fn bytes_at(row: &Row, at: usize) -> Result<Items<u8>, Error>
    ensures ok { IfOk result (λ bytes. (bytes ≡ blob_in (column row.now at)) × (is_blob (column row.now at) ≡ true)) }
    ensures refused { IfErr result (Refutes (IsBytes (column row.now at))) }
{
    let bytes: Vec<u8> = row.get(at)?;
    Ok(Items::from(bytes))
}

fn text_at(row: &Row, at: usize) -> Result<Str, Error>
    ensures ok { IfOk result (λ text. (text ≡ text_in (column row.now at)) × (is_text (column row.now at) ≡ true)) }
    ensures refused { IfErr result (Refutes (IsText (column row.now at))) }
{
    let text: String = row.get(at)?;
    Ok(Str::from(text))
}

fn number_at(row: &Row, at: usize) -> Result<u32, Error>
    ensures ok { IfOk result (λ n. (n ≡ nat_in (column row.now at)) × (is_nat (column row.now at) ≡ true)) }
    ensures refused { IfErr result (Refutes (IsNumber (column row.now at))) }
{
    row.get(at)
}

pub(crate) fn integer_at(row: &Row, at: usize) -> Result<i64, Error>
    ensures ok { IfOk result (λ n. (n ≡ id_in (column row.now at)) × (is_int (column row.now at) ≡ true)) }
    ensures refused { IfErr result (Refutes (IsInteger (column row.now at))) }
{
    row.get(at)
}

impl Shown for NodeRow {
    ghost show = { shown_node };

    ghost shows = { shows_node };

    ghost reads = { ReadsNode };

    fn from_row(row: &Row) -> Result<NodeRow, Error> {
        Ok(NodeRow {
            rel: number_at(row, 0)?,
            ent: bytes_at(row, 1)?,
            kclass: number_at(row, 2)?,
            label: number_at(row, 3)?,
            pattern: bytes_at(row, 4)?,
        })
    }
}

impl Shown for CellRow {
    ghost show = { shown_cell };

    ghost shows = { shows_cell };

    ghost reads = { ReadsCell };

    fn from_row(row: &Row) -> Result<CellRow, Error> {
        Ok(CellRow {
            rel: number_at(row, 0)?,
            ent: bytes_at(row, 1)?,
            kclass: number_at(row, 2)?,
            label: number_at(row, 3)?,
            attr: number_at(row, 4)?,
            value: bytes_at(row, 5)?,
        })
    }
}

impl Shown for AuditRow {
    ghost show = { shown_entry };

    ghost shows = { shows_entry };

    ghost reads = { ReadsEntry };

    fn from_row(row: &Row) -> Result<AuditRow, Error> {
        Ok(AuditRow {
            number: integer_at(row, 0)?,
            bytes: bytes_at(row, 1)?,
        })
    }
}

impl Shown for MetaRow {
    ghost show = { shown_meta };

    ghost shows = { shows_meta };

    ghost reads = { ReadsMeta };

    fn from_row(row: &Row) -> Result<MetaRow, Error> {
        Ok(MetaRow {
            id: integer_at(row, 0)?,
            version: integer_at(row, 1)?,
            lattice: text_at(row, 2)?,
            schemes: text_at(row, 3)?,
        })
    }
}

/// Bytes alone, as a pattern is shown.
impl Shown for Items<u8> {
    ghost show = { shown_bytes };

    ghost shows = { λ r. is_blob (column r 0) };

    ghost reads = { λ r. IsBytes (column r 0) };

    fn from_row(row: &Row) -> Result<Items<u8>, Error> {
        bytes_at(row, 0)
    }
}

/// What the rows show.
pub(crate) fn rows_from<T: Shown>(alloc: Global, rows: &[Row]) -> Result<Vec<T>, Error>
    ensures shown { IfOk result (λ xs. (xs.items ≡ map T.show rows.now)
        × AllByRecursion (λ r. T.shows r ≡ true) rows.now) }
    ensures refused { IfErr result (Refutes (AllByRecursion T.reads rows.now)) }
{
    let mut found = Vec::new(alloc);
    for row in rows {
        found.push(T::from_row(row)?)?;
    }
    Ok(found)
}

/// Whether the entries have the numbers 1, 2, .. in order.
pub fn are_numbered(entries: &[AuditRow]) -> bool
    ensures { result ≡ are_numbered (pos 1) entries.now }
{
    let mut last: i64 = 0;
    for entry in entries {
        if last.checked_add(1) != Some(entry.number) {
            return false;
        }
        last = entry.number;
    }
    true
}
