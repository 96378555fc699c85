//! Statements on the audit list.
ghost use Rattle.std.specs.Prelude.{[], IsPermutation};
ghost use Rattle.sqlite.specs.State.{HasCleanDisk, Executes};
ghost use Rattle.sqlite.specs.Held.{state};
ghost use Rattle.mls_tables.specs.Rows.{tables_of, audit_values};
ghost use Rattle.mls_tables.specs.Sql.{add_entry, clear_entries, all_entries};
ghost use Rattle.mls_tables.specs.Statements.{IsWrite, IsQuery, AddsEntry, ClearsEntries};

use crate::rows::AuditRow;
use crate::statements::streaming::select;
use sqlite::{Alter, Connection, Error, params};
use std::alloc::Global;

/// Adds an entry under its number.
pub fn add_entry<S: Alter>(conn: &mut Connection<S>, entry: &AuditRow) -> Result<usize, Error>
    ensures wrote { IsWrite (AddsEntry entry.now) (state S.Store conn.old) (state S.Store conn.new) result }
    ensures runs { HasCleanDisk (state S.Store conn.new)
        → Executes add_entry (audit_values entry.now) (state S.Store conn.old) (state S.Store conn.new) result }
{
    conn.execute(
        "INSERT INTO audit (number, bytes) VALUES (?1, ?2)",
        params![&entry.number, entry.bytes.as_slice()],
    )
}

/// Drops every entry.
pub fn clear_entries<S: Alter>(conn: &mut Connection<S>) -> Result<usize, Error>
    ensures wrote { IsWrite ClearsEntries (state S.Store conn.old) (state S.Store conn.new) result }
    ensures runs { HasCleanDisk (state S.Store conn.new)
        → Executes clear_entries [] (state S.Store conn.old) (state S.Store conn.new) result }
{
    conn.execute("DELETE FROM audit", &[])
}

/// Every entry.
pub fn entries<S: Alter>(conn: &mut Connection<S>, alloc: Global) -> Result<Vec<AuditRow>, Error>
    ensures { IsQuery (IsPermutation (tables_of (state S.Store conn.old).now.trees).audit) all_entries []
        (state S.Store conn.old) (state S.Store conn.new) result }
{
    select::<S, AuditRow>(
        conn,
        alloc,
        "SELECT number, bytes FROM audit ORDER BY number",
        &[],
    )
}
