//! The four tables over a connection, with the rows of the last commit.
ghost use Rattle.std.specs.Prelude.{◌≡◌, ◌≢◌, ◌↔◌, ◌+◌, ◌≤◌, true, false, []};
ghost use Rattle.std.specs.Prelude.{map, filter, IsTrue, IfOk, IfErr};
ghost use Rattle.std.specs.Prelude.{IsPermutation};
ghost use Rattle.sqlite.specs.State.{HasCleanDisk};
ghost use Rattle.sqlite.specs.Held.{state};
ghost use Rattle.sqlite.specs.declared.error.Error.TheVariants.{SqliteFailure};
ghost use Rattle.sqlite.specs.declared.error.ErrorCode.TheVariants.{OutOfMemory};
ghost use Rattle.mls_tables.specs.declared.rows.CellRow.{CellRow as SpecCell};
ghost use Rattle.mls_tables.specs.Rows.{Tables, tables_of, described, is_node_at, is_node_among, is_node, is_cell_at};
ghost use Rattle.mls_tables.specs.Rows.{is_cell_among, is_cell_in, cell_beside};
ghost use Rattle.mls_tables.specs.Schema.{no_schema};
ghost use Rattle.mls_tables.specs.Statements.{IsSchemaReady, AddsNode, DropsNode, AddsCells, SetsCell, DropsCells};
ghost use Rattle.mls_tables.specs.Statements.{AddsEntry, ClearsEntries, IsOne, has_key_of, HasSettled};
ghost use Rattle.mls_tables.specs.Store.{IsClean, IsStoreFault, IsStoreTurn, IsStoreWrite, IsStoreQuery, HasEnded};
ghost use Rattle.mls_tables.specs.Rows.{node_values, cell_values, audit_values, class_values, at_values, among_values};
ghost use Rattle.mls_tables.specs.Sql.{add_node, drop_node, nodes_of_class, nodes_among, nodes_of_key, patterns_of_key};
ghost use Rattle.mls_tables.specs.Sql.{set_cell, drop_cells, cells_of_class, cells_among, cells_of_tuple};
ghost use Rattle.mls_tables.specs.Sql.{add_entry, clear_entries, all_entries};
ghost use Rattle.mls_tables.specs.Store.{HasFallen, IsRefused, AreCellsRefused, IsUnread};

use crate::ghost_store::GhostStore;
use crate::rows::{AuditRow, CellRow, NodeRow, OwnCell, TupleKey};
use crate::statements::{audit, cell, change, creation, node};
use mls_lattice::Items;
use sqlite::{Alter, Connection, Error, ErrorCode};
use std::alloc::Global;
use std::marker::Model;

/// Why a call over the tables gives no answer.
#[derive(Clone, Copy)]
pub enum StoreFault {
    /// The store failed in this call.
    Store,
    /// A growth was refused.
    Memory,
}

/// The four tables over a connection.
///
/// Contracts see the rows now and as of the last commit, whether a change is begun, whether the disk is clean,
/// and how many calls of the store have failed. A fault ends the change, and leaves the rows of the last
/// commit. These are remembered for contracts alone, since a connection that has shut says nothing of them.
#[derive(Drop)]
pub struct TableStore<S: Alter> {
    conn: Connection<S>,
    alloc: Global,
    begun: bool,
    notes: GhostStore,
}

impl<S: Alter> Model for TableStore<S> {
    ghost use Rattle.sqlite.specs.Held.{state};
    ghost use Rattle.mls_tables.specs.Store.{TableState, table_state, MatchesConnection};

    ghost Value = { TableState };

    ghost view = { λ t. table_state (state S.Store t.conn) t.begun t.notes.noted.failures t.notes.noted.rows };

    ghost invariant = { λ t. MatchesConnection (state S.Store t.conn) t.begun t.notes.noted.rows };
}

/// Notes the rows that the connection committed, which only clauses read.
fn remember<S: Alter>(store: &mut GhostStore, _conn: &Connection<S>)
    ghost rows: { Tables }
    ensures { store.new.noted ≡ record store.old.noted { rows = rows } }
{
    store.keep();
}

/// One more call failed, for another cause than want of memory.
fn rise(store: &mut GhostStore, _error: Error)
    requires { _error ≢ SqliteFailure OutOfMemory }
    ensures { store.new.noted ≡ record store.old.noted { failures = store.old.noted.failures + 1 } }
{
    store.keep();
}

/// Notes why a call failed.
fn count_failure(store: &mut GhostStore, error: Error) -> StoreFault
    ensures cause { result ≡ StoreFault.Memory ↔ error ≡ SqliteFailure OutOfMemory }
    ensures store { result ≡ StoreFault.Store → store.new.noted.failures ≡ store.old.noted.failures + 1 }
    ensures memory { result ≢ StoreFault.Store → store.new.noted.failures ≡ store.old.noted.failures }
    ensures rows { store.new.noted.rows ≡ store.old.noted.rows }
{
    match error {
        Error::SqliteFailure(ErrorCode::OutOfMemory) => StoreFault::Memory,
        error => {
            rise(store, error);
            StoreFault::Store
        }
    }
}

/// Ends the change after a failed call, if it has not ended, and says why the call failed.
pub(crate) fn abandon_unless_ended<S: Alter>(
    conn: &mut Connection<S>,
    store: &mut GhostStore,
    error: Error,
) -> StoreFault
    ensures fallen { HasFallen (state S.Store conn.old) (state S.Store conn.new) store.old.noted.failures
        store.new.noted.failures error result }
    ensures rows { store.new.noted.rows ≡ store.old.noted.rows }
{
    let fault = count_failure(store, error);
    if let Err(other) = change::end(conn) {
        count_failure(store, other);
    }
    fault
}

/// Ends the change after a failed call, so that none is begun, and says why the call failed.
fn abandon_after<S: Alter>(
    conn: &mut Connection<S>,
    begun: &mut bool,
    store: &mut GhostStore,
    error: Error,
) -> StoreFault
    ensures fallen { HasFallen (state S.Store conn.old) (state S.Store conn.new) store.old.noted.failures
        store.new.noted.failures error result }
    ensures rows { store.new.noted.rows ≡ store.old.noted.rows }
    ensures mode { begun.new ≡ false }
{
    *begun = false;
    abandon_unless_ended(conn, store, error)
}

/// What a call over the connection of a store answers. A call that failed is counted, and ends the change.
macro_rules! settle {
    ($store:expr, $found:pat => $answer:expr, $call:expr) => {
        match $call {
            Ok($found) => Ok($answer),
            Err(error) => Err(abandon_after(
                &mut $store.conn,
                &mut $store.begun,
                &mut $store.notes,
                error,
            )),
        }
    };
}

impl<S: Alter> TableStore<S> {
    /// Makes a new store in a database that has nothing, described by a version and two texts. An `Err` hands the
    /// connection back, with
    /// what it had.
    pub fn create(
        alloc: Global,
        mut conn: Connection<S>,
        version: u32,
        lattice: &str,
        schemes: &str,
    ) -> Result<TableStore<S>, (StoreFault, Connection<S>)>
        requires nothing { HasCleanDisk (state S.Store conn) → (state S.Store conn).now.schema ≡ no_schema }
        ensures made { IfOk result (λ t. IsClean t
            → (t.now ≡ described version lattice.now schemes.now) × (t.kept ≡ t.now)) }
        ensures mode { IfOk result (λ t. t.begun ≡ false) }
        ensures clean { IfOk result (λ t. IsClean t → HasCleanDisk (state S.Store conn)) }
        ensures refused { IfErr result (λ e. HasCleanDisk (state S.Store e.1)
            → HasCleanDisk (state S.Store conn) × HasEnded (state S.Store conn) (state S.Store e.1)) }
    {
        match creation::create_store(&mut conn, version, lattice, schemes) {
            Ok(_) => Ok(TableStore::over(alloc, conn)),
            Err(error) => Err((
                abandon_unless_ended(&mut conn, &mut GhostStore::new(), error),
                conn,
            )),
        }
    }

    /// The four tables that a connection has committed.
    pub fn over(alloc: Global, conn: Connection<S>) -> TableStore<S>
        requires tables { HasCleanDisk (state S.Store conn) → HasSettled (state S.Store conn) }
        ensures rows { IsClean result → (result.now ≡ tables_of (state S.Store conn).now.trees)
            × (result.kept ≡ result.now) }
        ensures mode { result.begun ≡ false }
        ensures clean { IsClean result → HasCleanDisk (state S.Store conn) }
    {
        let mut notes = GhostStore::new();
        remember(&mut notes, &conn);
        TableStore {
            conn,
            alloc,
            begun: false,
            notes,
        }
    }

    /// The connection, with no change begun: where it is open, its tables have the rows of the store.
    pub fn into_connection(self) -> Connection<S>
        requires begun { self.begun ≡ false }
        ensures clean { HasCleanDisk (state S.Store result) → IsClean self }
        ensures is_open { (state S.Store result).is_open ≡ self.is_open }
        ensures mode { HasCleanDisk (state S.Store result) → IsTrue (state S.Store result).is_open
            → (state S.Store result).in_transaction ≡ false }
        ensures rows { HasCleanDisk (state S.Store result) → IsTrue (state S.Store result).is_open
            → IsSchemaReady (state S.Store result).now × (tables_of (state S.Store result).now.trees ≡ self.now) }
    {
        let TableStore {
            conn,
            alloc: _,
            begun: _,
            notes: _,
        } = self;
        conn
    }

    /// Ends the change, if one is begun: the rows are those of the last commit.
    pub fn abandon(&mut self)
        ensures clean { IsClean self.new → IsClean self.old }
        ensures fault { IsStoreFault StoreFault.Memory self.old self.new }
        ensures count { self.old.failures ≤ self.new.failures }
    {
        self.begun = false;
        if let Err(other) = change::end(&mut self.conn) {
            count_failure(&mut self.notes, other);
        }
    }

    /// Counts a failure of a store whose disk gave back other rows than were written to it, and ends the
    /// change, if one is begun. It is for a store that is not clean, so a base has no way to a `Store` of its
    /// own.
    pub fn abandon_corrupt(&mut self)
        requires { IsClean self.old → ⊥ }
        ensures clean { IsClean self.new → ⊥ }
        ensures fault { IsStoreFault StoreFault.Store self.old self.new }
    {
        rise(
            &mut self.notes,
            Error::SqliteFailure(ErrorCode::DatabaseCorrupt),
        );
        self.abandon();
    }

    /// Whether a change is begun.
    pub fn is_begun(&self) -> bool
        ensures { result ≡ self.now.begun }
    {
        self.begun
    }

    /// Begins a change. A `Store` has a cause: the disk failed or refused, the connection was shut, or, where rows are
    /// asked for or
    /// written, the database refuses the statement, as for a constraint, a size or a limit of steps.
    pub fn begin(&mut self) -> Result<(), StoreFault>
        requires begun { self.old.begun ≡ false }
        ensures { IsStoreTurn true self.old.now self.old self.new result }
    {
        settle!(self, _ => self.begun = true, change::begin(&mut self.conn))
    }

    /// Keeps what the change did, and ends it.
    pub fn commit(&mut self) -> Result<(), StoreFault>
        requires begun { self.old.begun ≡ true }
        ensures { IsStoreTurn false self.old.now self.old self.new result }
    {
        settle!(
            self,
            _ => {
                self.begun = false;
                remember(&mut self.notes, &self.conn);
            },
            change::commit(&mut self.conn)
        )
    }

    /// Goes back to the last commit, and ends the change.
    pub fn rollback(&mut self) -> Result<(), StoreFault>
        requires begun { self.old.begun ≡ true }
        ensures { IsStoreTurn false self.old.kept self.old self.new result }
    {
        self.begun = false;
        match change::end(&mut self.conn) {
            Ok(()) => Ok(()),
            Err(error) => Err(abandon_unless_ended(&mut self.conn, &mut self.notes, error)),
        }
    }

    /// Adds a node.
    pub fn add_node(&mut self, node: &NodeRow) -> Result<(), StoreFault>
        requires begun { self.old.begun ≡ true }
        ensures { IsStoreWrite (AddsNode node.now) (IsRefused add_node (node_values node.now) self.old)
            self.old self.new result }
    {
        settle!(self, _ => (), node::add_node(&mut self.conn, node))
    }

    /// Drops the node at a key.
    pub fn drop_node(&mut self, key: &TupleKey) -> Result<(), StoreFault>
        requires begun { self.old.begun ≡ true }
        ensures { IsStoreWrite (DropsNode key.now) (IsRefused drop_node (class_values key.now) self.old)
            self.old self.new result }
    {
        settle!(self, _ => (), node::drop_node(&mut self.conn, key))
    }

    /// The nodes of one class.
    pub fn nodes_of_class(&mut self, rel: u32, label: u32) -> Result<Vec<NodeRow>, StoreFault>
        ensures { IsStoreQuery (IsPermutation (filter (is_node_at rel label) self.old.now.nodes))
            (IsUnread nodes_of_class (at_values rel label) self.old) self.old self.new result }
    {
        settle!(self, rows => rows, node::nodes_of_class(&mut self.conn, self.alloc, rel, label))
    }

    /// The nodes of the labels whose bits are set, in one scan of the table.
    pub fn nodes_among(&mut self, rel: u32, labels: u64) -> Result<Vec<NodeRow>, StoreFault>
        ensures { IsStoreQuery (IsPermutation (filter (is_node_among rel labels) self.old.now.nodes))
            (IsUnread nodes_among (among_values rel labels) self.old) self.old self.new result }
    {
        settle!(self, rows => rows, node::nodes_among(&mut self.conn, self.alloc, rel, labels))
    }

    /// The node at a key, where there is one.
    pub fn nodes_of_key(&mut self, key: &TupleKey) -> Result<Vec<NodeRow>, StoreFault>
        ensures { IsStoreQuery (IsPermutation (filter (is_node key.now) self.old.now.nodes))
            (IsUnread nodes_of_key (class_values key.now) self.old) self.old self.new result }
    {
        settle!(self, rows => rows, node::nodes_of_key(&mut self.conn, self.alloc, key))
    }

    /// The pattern of the node at a key, where there is one.
    pub fn patterns_of_key(&mut self, key: &TupleKey) -> Result<Vec<Items<u8>>, StoreFault>
        ensures { IsStoreQuery (IsPermutation (map (λ n. n.pattern) (filter (is_node key.now) self.old.now.nodes)))
            (IsUnread patterns_of_key (class_values key.now) self.old) self.old self.new result }
    {
        settle!(self, rows => rows, node::patterns_of_key(&mut self.conn, self.alloc, key))
    }

    /// Adds the cells of a tuple's own class beside its node.
    pub fn add_cells(&mut self, node: &NodeRow, cells: &[OwnCell]) -> Result<(), StoreFault>
        requires begun { self.old.begun ≡ true }
        ensures { IsStoreWrite (AddsCells (map (cell_beside node.now) cells.now))
            (AreCellsRefused node.now cells.now self.old)
            self.old self.new result }
    {
        settle!(self, _ => (), cell::add_own(&mut self.conn, self.alloc, node, cells))
    }

    /// Gives the one cell with the key of `cell` its value.
    pub fn set_cell(&mut self, cell: &CellRow) -> Result<(), StoreFault>
        requires begun { self.old.begun ≡ true }
        requires there { IsClean self.old → (was : SpecCell) × IsOne (has_key_of cell.now) self.old.now.cells was }
        ensures { IsStoreWrite (SetsCell cell.now) (IsRefused set_cell (cell_values cell.now) self.old)
            self.old self.new result }
    {
        settle!(self, _ => (), cell::set_cell(&mut self.conn, cell))
    }

    /// Drops the cells of one tuple's own class.
    pub fn drop_cells(&mut self, key: &TupleKey) -> Result<(), StoreFault>
        requires begun { self.old.begun ≡ true }
        ensures { IsStoreWrite (DropsCells key.now) (IsRefused drop_cells (class_values key.now) self.old)
            self.old self.new result }
    {
        settle!(self, _ => (), cell::drop_cells(&mut self.conn, key))
    }

    /// The cells of one class.
    pub fn cells_of_class(&mut self, rel: u32, label: u32) -> Result<Vec<CellRow>, StoreFault>
        ensures { IsStoreQuery (IsPermutation (filter (is_cell_at rel label) self.old.now.cells))
            (IsUnread cells_of_class (at_values rel label) self.old) self.old self.new result }
    {
        settle!(self, rows => rows, cell::cells_of_class(&mut self.conn, self.alloc, rel, label))
    }

    /// The cells of the labels whose bits are set, in one scan of the table.
    pub fn cells_among(&mut self, rel: u32, labels: u64) -> Result<Vec<CellRow>, StoreFault>
        ensures { IsStoreQuery (IsPermutation (filter (is_cell_among rel labels) self.old.now.cells))
            (IsUnread cells_among (among_values rel labels) self.old) self.old self.new result }
    {
        settle!(self, rows => rows, cell::cells_among(&mut self.conn, self.alloc, rel, labels))
    }

    /// The cells of one tuple's own class.
    pub fn cells_of_tuple(&mut self, key: &TupleKey) -> Result<Vec<CellRow>, StoreFault>
        ensures { IsStoreQuery (IsPermutation (filter (is_cell_in key.now) self.old.now.cells))
            (IsUnread cells_of_tuple (class_values key.now) self.old) self.old self.new result }
    {
        settle!(self, rows => rows, cell::cells_of_tuple(&mut self.conn, self.alloc, key))
    }

    /// Adds an entry under its number, which is handed in: an opened store is not known to hand out rising
    /// ones.
    pub fn add_entry(&mut self, entry: &AuditRow) -> Result<(), StoreFault>
        requires begun { self.old.begun ≡ true }
        ensures { IsStoreWrite (AddsEntry entry.now) (IsRefused add_entry (audit_values entry.now) self.old)
            self.old self.new result }
    {
        settle!(self, _ => (), audit::add_entry(&mut self.conn, entry))
    }

    /// Drops every entry.
    pub fn clear_entries(&mut self) -> Result<(), StoreFault>
        requires begun { self.old.begun ≡ true }
        ensures { IsStoreWrite ClearsEntries (IsRefused clear_entries [] self.old)
            self.old self.new result }
    {
        settle!(self, _ => (), audit::clear_entries(&mut self.conn))
    }

    /// Every entry, in any order. A base orders them and tests their numbers, which it knows over a clean
    /// store.
    pub fn entries(&mut self) -> Result<Vec<AuditRow>, StoreFault>
        ensures { IsStoreQuery (IsPermutation self.old.now.audit)
            (IsUnread all_entries [] self.old) self.old self.new result }
    {
        settle!(self, rows => rows, audit::entries(&mut self.conn, self.alloc))
    }
}
