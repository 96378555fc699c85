//! Tables that a store already has.
ghost use Rattle.std.specs.Prelude.{◌≡◌, ◌≢◌, IsTrue, IfOk, IfErr, OnOk, OnErr};
ghost use Rattle.sqlite.specs.Effect.{Database};
ghost use Rattle.sqlite.specs.State.{HasCleanDisk, KeepsCommit};
ghost use Rattle.sqlite.specs.Held.{state};
ghost use Rattle.sqlite.specs.declared.error.Error.TheVariants.{SqliteFailure};
ghost use Rattle.sqlite.specs.declared.error.ErrorCode.TheVariants.{OutOfMemory};
ghost use Rattle.mls_tables.specs.Rows.{is_meta_row};
ghost use Rattle.mls_tables.specs.Schema.{HasTables};
ghost use Rattle.mls_tables.specs.Statements.{AreRows};
ghost use Rattle.mls_tables.specs.Store.{HasEnded};
ghost use Rattle.mls_tables.specs.Adopting.{Blames, AreRead, HasRows, HasReadRows, IsReadDescription, HasDescription};
ghost use Rattle.mls_tables.specs.Adopting.{IsDescribed, HasRead, IsAdopted, ReadsTables, IsReading};

use crate::rows::{AuditRow, CellRow, MetaRow, NodeRow};
use crate::statements::schema::has_tables;
use crate::statements::{change, whole};
use sqlite::{Alter, Connection, Error, ErrorCode};
use std::alloc::Global;

/// Why tables that a store has are not adopted.
#[derive(Clone, Copy)]
pub enum AdoptFault {
    /// The store failed.
    Store,
    /// A growth was refused.
    Memory,
    /// The tables are not the four, a row is not what its table is for, or it is not one row, of version 1 or 2, that
    /// describes
    /// the store.
    BadRows,
}

impl AdoptFault {
    /// Why a statement failed.
    pub(crate) fn of_store(error: Error) -> AdoptFault
        ensures { result ≢ AdoptFault.BadRows }
    {
        match error {
            Error::SqliteFailure(ErrorCode::OutOfMemory) => AdoptFault::Memory,
            _ => AdoptFault::Store,
        }
    }

    /// Why a row does not read.
    pub(crate) fn of_row(error: Error) -> AdoptFault
        ensures { result ≡ AdoptFault.BadRows → error ≢ SqliteFailure OutOfMemory }
    {
        match error {
            Error::SqliteFailure(ErrorCode::OutOfMemory) => AdoptFault::Memory,
            _ => AdoptFault::BadRows,
        }
    }
}

/// Every row of the tables of nodes, cells and entries, each table's in any order.
#[derive(Drop)]
pub struct AllRows {
    pub nodes: Vec<NodeRow>,
    pub cells: Vec<CellRow>,
    pub entries: Vec<AuditRow>,
}

/// What is read of a database of the four tables.
trait ReadOut: Drop {
    // What is said of the database, and where all that is asked for reads.
    ghost says: { Database → Self → Type 0 };

    ghost reads: { Database → Type 0 };

    /// Reads it.
    fn read<S: Alter>(conn: &mut Connection<S>, alloc: Global) -> Result<Self, AdoptFault>
        ensures { ReadsTables says reads (state S.Store conn.old) (state S.Store conn.new) result };
}

/// Every row.
impl ReadOut for AllRows {
    ghost says = { HasRows };

    ghost reads = { AreRead };

    fn read<S: Alter>(conn: &mut Connection<S>, alloc: Global) -> Result<AllRows, AdoptFault> {
        let nodes = whole::nodes(conn, alloc)?;
        let cells = whole::cells(conn, alloc)?;
        let entries = whole::entries(conn, alloc)?;
        Ok(AllRows {
            nodes,
            cells,
            entries,
        })
    }
}

/// The row that describes the store.
impl ReadOut for MetaRow {
    ghost says = { λ db m. IsDescribed m db };

    ghost reads = { IsReadDescription };

    fn read<S: Alter>(conn: &mut Connection<S>, alloc: Global) -> Result<MetaRow, AdoptFault> {
        whole::description(conn, alloc)
    }
}

/// The same, in one transaction.
fn at_once<S: Alter, T: ReadOut>(conn: &mut Connection<S>, alloc: Global) -> Result<T, AdoptFault>
    ensures was_open { HasCleanDisk (state S.Store conn.new) → OnOk result (IsTrue (state S.Store conn.old).is_open) }
    ensures says { HasCleanDisk (state S.Store conn.new) → HasTables (state S.Store conn.old).now.schema
        → IfOk result (λ x. T.says (state S.Store conn.old).now x
        × HasRead (state S.Store conn.old) (state S.Store conn.new)) }
    ensures left { HasCleanDisk (state S.Store conn.new) → HasTables (state S.Store conn.old).now.schema
        → OnErr result (KeepsCommit (state S.Store conn.old) (state S.Store conn.new)) }
    ensures bad { HasCleanDisk (state S.Store conn.new) → HasTables (state S.Store conn.old).now.schema
        → IfErr result (Blames (T.reads (state S.Store conn.old).now)) }
    ensures clean { HasCleanDisk (state S.Store conn.new) → HasCleanDisk (state S.Store conn.old) }
{
    change::begin(conn).map_err(AdoptFault::of_store)?;
    let found = T::read(conn, alloc)?;
    change::commit(conn).map_err(AdoptFault::of_store)?;
    Ok(found)
}

/// The same, in any database.
fn of_database<S: Alter, T: ReadOut>(
    conn: &mut Connection<S>,
    alloc: Global,
) -> Result<T, AdoptFault>
    ensures says { HasCleanDisk (state S.Store conn.new) → IfOk result (λ x. T.says (state S.Store conn.old).now x
        × HasRead (state S.Store conn.old) (state S.Store conn.new)) }
    ensures reading { IsReading KeepsCommit (λ db. HasTables db.schema × T.reads db)
        (state S.Store conn.old) (state S.Store conn.new) result }
{
    if !has_tables(conn) {
        return Err(AdoptFault::BadRows);
    }
    at_once::<S, T>(conn, alloc)
}

/// The same, and no transaction is begun afterwards.
fn read_out<S: Alter, T: ReadOut>(conn: &mut Connection<S>, alloc: Global) -> Result<T, AdoptFault>
    ensures says { HasCleanDisk (state S.Store conn.new) → IfOk result (λ x. T.says (state S.Store conn.old).now x
        × HasRead (state S.Store conn.old) (state S.Store conn.new)) }
    ensures reading { IsReading HasEnded (λ db. HasTables db.schema × T.reads db)
        (state S.Store conn.old) (state S.Store conn.new) result }
{
    match of_database::<S, T>(conn, alloc) {
        Ok(found) => Ok(found),
        Err(fault) => {
            let _ = change::end(conn);
            Err(fault)
        }
    }
}

/// Every row of nodes, cells and entries of a store that one row describes, read in one transaction, since
/// nothing says of a connection outside of one that it shows what it has committed. No transaction is begun
/// afterwards. Rowids that do not rise are a failure of the store, and not bad rows.
pub fn read_store<S: Alter>(conn: &mut Connection<S>, alloc: Global) -> Result<AllRows, AdoptFault>
    requires described { HasCleanDisk (state S.Store conn.old)
        → AreRows is_meta_row ((state S.Store conn.old).now.trees 5) }
    ensures adopted { HasCleanDisk (state S.Store conn.new)
        → IfOk result (IsAdopted (state S.Store conn.old) (state S.Store conn.new)) }
    ensures reading { IsReading HasEnded HasReadRows (state S.Store conn.old) (state S.Store conn.new) result }
{
    read_out::<S, AllRows>(conn, alloc)
}

/// The one row that describes a store of the four tables, of version 1 or 2, read in a transaction of its own:
/// texts are judged before rows, and nobody writes between, since the connection keeps the file locked. No
/// transaction is begun afterwards.
pub fn read_description<S: Alter>(
    conn: &mut Connection<S>,
    alloc: Global,
) -> Result<MetaRow, AdoptFault>
    ensures described { HasCleanDisk (state S.Store conn.new)
        → IfOk result (λ m. IsDescribed m (state S.Store conn.old).now) }
    ensures read { HasCleanDisk (state S.Store conn.new)
        → OnOk result (HasRead (state S.Store conn.old) (state S.Store conn.new)) }
    ensures reading { IsReading HasEnded HasDescription (state S.Store conn.old) (state S.Store conn.new) result }
{
    read_out::<S, MetaRow>(conn, alloc)
}
