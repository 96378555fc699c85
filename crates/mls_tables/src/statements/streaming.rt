//! What the rows of queries show: of some rows at once; and of a whole table one at a time, whose rowids are found to
//! differ.
ghost use Rattle.std.specs.Prelude.{◌≡◌, ◌++◌, true, [], ◌∷◌, int_lt, IfOk, IfErr, IfSome, OnOk, OnErr};
ghost use Rattle.sqlite.specs.Given.{IsPlain};
ghost use Rattle.sqlite.specs.Listing.{understood};
ghost use Rattle.sqlite.specs.State.{HasCleanDisk, IsUnchanged, KeepsCommit};
ghost use Rattle.sqlite.specs.Held.{state};
ghost use Rattle.sqlite.specs.Values.{bound};
ghost use Rattle.sqlite_value.specs.Order.{column};
ghost use Rattle.sqlite_trees.specs.View.{is_int};
ghost use Rattle.sqlite_rules.specs.Edit.{id_in};
ghost use Rattle.mls_tables.specs.Adopting.{Blames, IsInteger, ShowsAll, BlamesOne, ReadsAll, ShowsSome, FailsToShow};

use crate::adopting::AdoptFault;
use crate::decode::{Shown, integer_at, rows_from};
use sqlite::types::ValueRef;
use sqlite::{Alter, Connection, Error, Row};
use std::alloc::Global;

/// What every row of a query shows.
pub fn select<S: Alter, T: Shown>(
    conn: &mut Connection<S>,
    alloc: Global,
    sql: &str,
    params: &[ValueRef<'_>],
) -> Result<Vec<T>, Error>
    ensures shown { HasCleanDisk (state S.Store conn.new) → IfOk result (λ xs.
        ShowsSome T.show T.shows sql.now (bound params.now) (state S.Store conn.old)
        (state S.Store conn.new) xs.items) }
    ensures refused { HasCleanDisk (state S.Store conn.new) → IfErr result
        (FailsToShow T.reads sql.now (bound params.now) (state S.Store conn.old) (state S.Store conn.new)) }
    ensures clean { HasCleanDisk (state S.Store conn.new) → HasCleanDisk (state S.Store conn.old) }
{
    match conn.query_all(sql, params) {
        Ok(rows) => rows_from::<T>(alloc, &rows),
        Err(error) => Err(error),
    }
}

/// The rowid of a row, which is above that of the row before.
fn next_rowid(row: &Row, at: usize, last: Option<i64>) -> Result<i64, AdoptFault>
    ensures read { IfOk result (λ id. (is_int (column row.now at) ≡ true) × (id ≡ id_in (column row.now at))) }
    ensures above { IfOk result (λ id. IfSome last (λ low. int_lt low id ≡ true)) }
    ensures bad { IfErr result (Blames (IsInteger (column row.now at))) }
{
    match (integer_at(row, at), last) {
        (Ok(id), Some(low)) if id <= low => Err(AdoptFault::Store),
        (Ok(id), _) => Ok(id),
        (Err(error), _) => Err(AdoptFault::of_row(error)),
    }
}

/// Keeps what a row shows, and answers its rowid, which is above that of the row before.
fn keep<T: Shown>(
    row: &Row,
    at: usize,
    last: Option<i64>,
    found: &mut Vec<T>,
) -> Result<i64, AdoptFault>
    ensures kept { OnOk result ((found.new.items ≡ found.old.items ++ T.show row.now ∷ [])
        × (T.shows row.now ≡ true)) }
    ensures read { IfOk result (λ id. (is_int (column row.now at) ≡ true) × (id ≡ id_in (column row.now at))) }
    ensures above { IfOk result (λ id. IfSome last (λ low. int_lt low id ≡ true)) }
    ensures bad { IfErr result (Blames (T.reads row.now × IsInteger (column row.now at))) }
{
    let id = next_rowid(row, at, last)?;
    match T::from_row(row).map_err(AdoptFault::of_row) {
        Ok(shown) => match found.push(shown) {
            Ok(()) => Ok(id),
            Err(_) => Err(AdoptFault::Memory),
        },
        Err(fault) => Err(fault),
    }
}

/// What every row of a query shows, with the rowid at a place, unless one does not read.
fn each<S: Alter, T: Shown>(
    conn: &mut Connection<S>,
    alloc: Global,
    sql: &str,
    at: usize,
) -> Result<Result<Vec<T>, AdoptFault>, Error>
    ensures all { HasCleanDisk (state S.Store conn.new)
        → IsPlain (understood (state S.Store conn.old).now.schema sql.now)
        → IfOk result (λ read. IfOk read (λ xs.
        ShowsAll at T.show T.shows sql.now (state S.Store conn.old) (state S.Store conn.new) xs.items)) }
    ensures bad { HasCleanDisk (state S.Store conn.new)
        → IsPlain (understood (state S.Store conn.old).now.schema sql.now)
        → IfOk result (λ read. IfErr read (BlamesOne at T.reads sql.now (state S.Store conn.new))) }
    ensures same { HasCleanDisk (state S.Store conn.new)
        → IsPlain (understood (state S.Store conn.old).now.schema sql.now)
        → OnOk result (IsUnchanged (state S.Store conn.old) (state S.Store conn.new)) }
    ensures err { HasCleanDisk (state S.Store conn.new)
        → IsPlain (understood (state S.Store conn.old).now.schema sql.now)
        → OnErr result (KeepsCommit (state S.Store conn.old) (state S.Store conn.new)) }
    ensures clean { HasCleanDisk (state S.Store conn.new) → HasCleanDisk (state S.Store conn.old) }
{
    let mut found = Vec::new(alloc);
    let mut last = None;
    let mut rows = conn.query(sql, &[])?;
    'rows: for _ in 0..u64::MAX {
        rows.advance()?;
        let Some(row) = rows.get() else {
            return Ok(Ok(found));
        };
        match keep::<T>(row, at, last, &mut found) {
            Ok(id) => last = Some(id),
            Err(fault) => return Ok(Err(fault)),
        }
    }
    Ok(Err(AdoptFault::Store))
}

/// The same, at an adoption.
pub fn whole<S: Alter, T: Shown>(
    conn: &mut Connection<S>,
    alloc: Global,
    sql: &str,
    at: usize,
) -> Result<Vec<T>, AdoptFault>
    ensures { ReadsAll at T.show T.shows T.reads sql.now (state S.Store conn.old) (state S.Store conn.new) result }
{
    match each::<S, T>(conn, alloc, sql, at) {
        Ok(read) => read,
        Err(error) => Err(AdoptFault::of_store(error)),
    }
}
