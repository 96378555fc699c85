//! Stores whose nodes, cells and description are replaced.
ghost use Rattle.std.specs.Prelude.{OnOk, OnErr};
ghost use Rattle.sqlite.specs.State.{HasCleanDisk, KeepsCommit};
ghost use Rattle.sqlite.specs.Held.{state};
ghost use Rattle.mls_tables.specs.Statements.{AreWrites, ClearsStore, Rewrites, HasSettled, IsRewritten};
ghost use Rattle.mls_tables.specs.Store.{HasEnded};

use crate::ghost_store::GhostStore;
use crate::rows::{CellRow, NodeRow};
use crate::statements::{cell, change, meta, node};
use crate::store::{StoreFault, abandon_unless_ended};
use sqlite::{Alter, Connection, Error};

/// Drops every node, every cell and the row that describes the store, in a change.
fn clear<S: Alter>(conn: &mut Connection<S>) -> Result<(), Error>
    ensures { AreWrites ClearsStore (state S.Store conn.old) (state S.Store conn.new) result }
{
    node::clear_nodes(conn)?;
    cell::clear_cells(conn)?;
    meta::clear_meta(conn)?;
    Ok(())
}

/// Replaces nodes, cells and description, in a change.
fn replace<S: Alter>(
    conn: &mut Connection<S>,
    nodes: &[NodeRow],
    cells: &[CellRow],
    version: u32,
    lattice: &str,
    schemes: &str,
) -> Result<(), Error>
    ensures { AreWrites (Rewrites nodes.now cells.now version lattice.now schemes.now)
        (state S.Store conn.old) (state S.Store conn.new) result }
{
    clear(conn)?;
    meta::add_meta(conn, version, lattice, schemes)?;
    node::add_nodes(conn, nodes)?;
    cell::add_cells(conn, cells)
}

/// The same, in one transaction.
fn replace_at_once<S: Alter>(
    conn: &mut Connection<S>,
    nodes: &[NodeRow],
    cells: &[CellRow],
    version: u32,
    lattice: &str,
    schemes: &str,
) -> Result<usize, Error>
    ensures rewritten { HasCleanDisk (state S.Store conn.new) → HasSettled (state S.Store conn.old)
        → OnOk result (IsRewritten nodes.now cells.now version lattice.now schemes.now (state S.Store conn.old)
        (state S.Store conn.new)) }
    ensures err { HasCleanDisk (state S.Store conn.new) → HasSettled (state S.Store conn.old)
        → OnErr result (KeepsCommit (state S.Store conn.old) (state S.Store conn.new)) }
    ensures clean { HasCleanDisk (state S.Store conn.new) → HasCleanDisk (state S.Store conn.old) }
{
    change::begin(conn)?;
    replace(conn, nodes, cells, version, lattice, schemes)?;
    change::commit(conn)
}

/// Gives a store other nodes and cells and another description, in one transaction. The entries stay. After an `Err`
/// the store
/// has the rows that it had.
pub fn rewrite_store<S: Alter>(
    conn: &mut Connection<S>,
    nodes: &[NodeRow],
    cells: &[CellRow],
    version: u32,
    lattice: &str,
    schemes: &str,
) -> Result<(), StoreFault>
    requires tables { HasCleanDisk (state S.Store conn.old) → HasSettled (state S.Store conn.old) }
    ensures rewritten { HasCleanDisk (state S.Store conn.new)
        → OnOk result (IsRewritten nodes.now cells.now version lattice.now schemes.now (state S.Store conn.old)
        (state S.Store conn.new)) }
    ensures ended { HasCleanDisk (state S.Store conn.new)
        → OnErr result (HasEnded (state S.Store conn.old) (state S.Store conn.new)) }
    ensures clean { HasCleanDisk (state S.Store conn.new) → HasCleanDisk (state S.Store conn.old) }
{
    match replace_at_once(conn, nodes, cells, version, lattice, schemes) {
        Ok(_) => Ok(()),
        Err(error) => Err(abandon_unless_ended(conn, &mut GhostStore::new(), error)),
    }
}
