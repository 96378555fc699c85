//! The four tables, made.
ghost use Rattle.std.specs.Prelude.{◌≡◌, ◌↔◌, IsTrue, OnOk, OnErr};
ghost use Rattle.sqlite.specs.State.{HasCleanDisk, KeepsCommit};
ghost use Rattle.sqlite.specs.Held.{state};
ghost use Rattle.mls_tables.specs.Schema.{IsMade, no_schema, with_node, with_cell, with_audit, no_others, schema};
ghost use Rattle.mls_tables.specs.Statements.{IsMaking, IsNext, IsNewStore};

use crate::statements::{change, meta};
use sqlite::{Alter, Connection, Error};

/// Whether the database has no table, index or view.
pub fn has_nothing<S: Alter>(conn: &Connection<S>) -> bool
    ensures { IsTrue result ↔ ((state S.Store conn.now).now.schema ≡ no_schema) }
{
    let schema = conn.schema();
    schema.tables.is_empty() && schema.indexes.is_empty() && schema.views.is_empty()
}

/// Makes the table of nodes in a database that has nothing.
pub fn create_node<S: Alter>(conn: &mut Connection<S>) -> Result<usize, Error>
    ensures { IsMaking no_schema with_node (state S.Store conn.old) (state S.Store conn.new) result }
{
    conn.execute(
        "CREATE TABLE node (rel INTEGER NOT NULL, ent BLOB NOT NULL, kclass INTEGER NOT NULL, label INTEGER NOT NULL, pattern BLOB NOT NULL, PRIMARY KEY (rel, ent, kclass, label)) STRICT",
        &[],
    )
}

/// Makes the table of cells, after that of nodes.
pub fn create_cell<S: Alter>(conn: &mut Connection<S>) -> Result<usize, Error>
    ensures { IsMaking with_node with_cell (state S.Store conn.old) (state S.Store conn.new) result }
{
    conn.execute(
        "CREATE TABLE cell (rel INTEGER NOT NULL, ent BLOB NOT NULL, kclass INTEGER NOT NULL, label INTEGER NOT NULL, attr INTEGER NOT NULL, value BLOB NOT NULL, PRIMARY KEY (rel, ent, kclass, attr, label)) STRICT",
        &[],
    )
}

/// Makes the audit table, after that of cells.
pub fn create_audit<S: Alter>(conn: &mut Connection<S>) -> Result<usize, Error>
    ensures { IsMaking with_cell with_audit (state S.Store conn.old) (state S.Store conn.new) result }
{
    conn.execute(
        "CREATE TABLE audit (number INTEGER PRIMARY KEY NOT NULL, bytes BLOB NOT NULL) STRICT",
        &[],
    )
}

/// Makes the table that describes the store, the last of the four.
pub fn create_meta<S: Alter>(conn: &mut Connection<S>) -> Result<usize, Error>
    ensures { IsMaking with_audit (schema no_others) (state S.Store conn.old) (state S.Store conn.new) result }
{
    conn.execute(
        "CREATE TABLE meta (id INTEGER PRIMARY KEY NOT NULL, version INTEGER NOT NULL, lattice TEXT NOT NULL, schemes TEXT NOT NULL) STRICT",
        &[],
    )
}

/// Makes the four tables in a database that has nothing, in a transaction.
fn create_tables<S: Alter>(conn: &mut Connection<S>) -> Result<usize, Error>
    ensures made { HasCleanDisk (state S.Store conn.new) → IsMade no_schema (state S.Store conn.old).now
        → OnOk result (IsMade (schema no_others) (state S.Store conn.new).now
        × IsNext (state S.Store conn.old) (state S.Store conn.new)) }
    ensures err { HasCleanDisk (state S.Store conn.new) → IsMade no_schema (state S.Store conn.old).now
        → IsTrue (state S.Store conn.old).in_transaction
        → OnErr result (KeepsCommit (state S.Store conn.old) (state S.Store conn.new)) }
    ensures clean { HasCleanDisk (state S.Store conn.new) → HasCleanDisk (state S.Store conn.old) }
{
    create_node(conn)?;
    create_cell(conn)?;
    create_audit(conn)?;
    create_meta(conn)
}

/// Makes the four tables and the row that describes the store, in one transaction, in a database that has nothing.
pub fn create_store<S: Alter>(
    conn: &mut Connection<S>,
    version: u32,
    lattice: &str,
    schemes: &str,
) -> Result<usize, Error>
    ensures made { HasCleanDisk (state S.Store conn.new) → (state S.Store conn.old).now.schema ≡ no_schema
        → OnOk result (IsNewStore version lattice.now schemes.now (state S.Store conn.new)) }
    ensures err { HasCleanDisk (state S.Store conn.new) → (state S.Store conn.old).now.schema ≡ no_schema
        → OnErr result (KeepsCommit (state S.Store conn.old) (state S.Store conn.new)) }
    ensures clean { HasCleanDisk (state S.Store conn.new) → HasCleanDisk (state S.Store conn.old) }
{
    change::begin(conn)?;
    create_tables(conn)?;
    meta::add_meta(conn, version, lattice, schemes)?;
    change::commit(conn)
}
