//! Stores that are opened.
ghost use Rattle.std.specs.Prelude.{◌≡◌, ◌⊎◌, false, length, map, string_bytes, None, IsTrue, IfOk, IfErr, IfSome};
ghost use Rattle.std.specs.Prelude.{OnOk};
ghost use Rattle.sqlite.specs.Held.{state};
ghost use Rattle.sqlite.specs.State.{HasCleanDisk};
ghost use Rattle.sqlite.specs.WalFiles.{image_at};
ghost use Rattle.mls_lattice.specs.Canon as lattice;
ghost use Rattle.mls_lattice.specs.Version.{version_number, later};
ghost use Rattle.mls_scheme.specs.Canon as scheme;
ghost use Rattle.mls_scheme.specs.Scheme.{AreUnder};
ghost use Rattle.mls_filterview.specs.Content.{no_content};
ghost use Rattle.mls_audit.specs.Sound.{IsSoundContent};
ghost use Rattle.mls_tables.specs.Rows.{described, first_meta, is_meta_row, tables_of};
ghost use Rattle.mls_tables.specs.Schema.{no_schema};
ghost use Rattle.mls_tables.specs.Statements.{AreRows, HasSettled, IsRewritten};
ghost use Rattle.mls_tables.specs.Store.{IsClean};
ghost use Rattle.mls_fragments.specs.Again.{FindsHoldings};
ghost use Rattle.mls_fragments.specs.Based.{IsBaseOf, state_of};
ghost use Rattle.mls_rows.specs.Finding.{node_rows, cell_rows};
ghost use Rattle.mls_fragments.specs.Holdings.{HasHoldings, HaveOneMeta};
ghost use Rattle.mls_fragments.specs.Migrating.{IsBefore, IsSoundBefore, AreSpelledTables};
ghost use Rattle.mls_fragments.specs.Opening.{AreTexts, HoldsContent, IsFoundUnadopted, IsMigrated, IsRefused};
ghost use Rattle.mls_fragments.specs.Opening.{IsStoreOrMemory, IsUnadopted, IsUnmade, IsUnopened, IsUntaken};

use crate::base::SqlBase;
use crate::connecting::connected_at;
use crate::design::Design;
use crate::judging::judge;
use crate::migrating::{Lineage, Older, find_widened, lineage_of};
use crate::noted::Noted;
use crate::open_fault::OpenFault;
use mls_lattice::Policy;
use mls_rows::{Found, Where, cell_rows, node_rows};
use mls_scheme::SchemesFile;
use mls_tables::statements::creation::has_nothing;
use mls_tables::{TableStore, read_description, read_store, rewrite_store};
use sqlite::{Alter, Connection, FileFrom, FileStore, Start};
use std::alloc::{AllocError, Global};

/// The two texts that describe the stores of a policy and its schemes: of its labels, and of the schemes.
pub fn texts_of(alloc: Global, design: &Design<'_>) -> Result<(String, String), AllocError>
    ensures lattice { IfOk result (λ texts. string_bytes texts.0 ≡ lattice.lattice_of design.now.policy.now) }
    ensures schemes { IfOk result (λ texts. string_bytes texts.1
        ≡ scheme.canon_of design.now.policy.now design.now.file.now.version design.now.file.now.schemes) }
{
    let lattice = String::from_utf8(design.policy.lattice_text(alloc)?).unwrap();
    let schemes = String::from_utf8(design.file.canon(alloc, design.policy)?).unwrap();
    Ok((lattice, schemes))
}

/// An empty base over the store of a connection, which has no table, index or view.
fn created<S: Alter>(
    alloc: Global,
    conn: Connection<S>,
    design: &Design<'_>,
    texts: &(String, String),
) -> Result<SqlBase<S>, (OpenFault, Connection<S>)>
    requires texts { AreTexts design.now.policy.now design.now.file.now (string_bytes texts.now.0)
        (string_bytes texts.now.1) }
    requires nothing { HasCleanDisk (state S.Store conn) → (state S.Store conn).now.schema ≡ no_schema }
    ensures content { IfOk result (λ b. state_of b ≡ record { now = no_content; kept = no_content; begun = false }) }
    ensures described { IfOk result (λ b. IsClean b.tables → HasCleanDisk (state S.Store conn)
        × (b.tables.now ≡ described (version_number (later design.now.policy.now.version design.now.file.now.version))
        (lattice.lattice_of design.now.policy.now)
        (scheme.canon_of design.now.policy.now design.now.file.now.version design.now.file.now.schemes))) }
    ensures unmade { IfErr result (λ e. IsUnmade (state S.Store conn) (state S.Store e.1) e.0) }
{
    let version = design.policy.version().later(design.file.version);
    match TableStore::create(alloc, conn, version.number() as u32, &texts.0, &texts.1) {
        Ok(store) => Ok(SqlBase::over_new(alloc, store)),
        Err((fault, conn)) => Err((OpenFault::from(fault), conn)),
    }
}

/// A base over the rows of a store of this policy and these schemes.
fn taken<S: Alter>(
    alloc: Global,
    mut conn: Connection<S>,
    design: &Design<'_>,
) -> Result<SqlBase<S>, (OpenFault, Connection<S>)>
    requires described { HasCleanDisk (state S.Store conn) → AreRows is_meta_row ((state S.Store conn).now.trees 5)
        × HaveOneMeta (tables_of (state S.Store conn).now.trees) }
    ensures rows { IfOk result (λ b. IsClean b.tables → HasCleanDisk (state S.Store conn)
        × (b.tables.now ≡ tables_of (state S.Store conn).now.trees)) }
    ensures content { IfOk result (HoldsContent design.now.policy.now design.now.file.now.schemes) }
    ensures untaken { IfErr result (λ e. IsUntaken (IsSoundContent design.now.policy.now design.now.file.now.schemes)
        (state S.Store conn) (state S.Store e.1) e.0) }
{
    let rows = match read_store(&mut conn, alloc) {
        Ok(rows) => rows,
        Err(fault) => return Err((OpenFault::from(fault), conn)),
    };
    match judge(alloc, design, design.policy.label_count(), rows) {
        Ok(noted) => Ok(SqlBase::over_found(alloc, TableStore::over(alloc, conn), noted)),
        Err(fault) => Err((OpenFault::from(fault), conn)),
    }
}

/// Gives a store the rows of what was found in it and these texts, in one transaction. Its version is 2 then.
fn rewritten<S: Alter>(
    alloc: Global,
    conn: &mut Connection<S>,
    found: &Found,
    texts: &(String, String),
) -> Result<(), OpenFault>
    requires tables { AreSpelledTables found.now }
    requires settled { HasCleanDisk (state S.Store conn.old) → HasSettled (state S.Store conn.old) }
    ensures rewritten { HasCleanDisk (state S.Store conn.new)
        → OnOk result (IsRewritten (node_rows 0 (map (λ t. t.entries) found.now.tables.items))
        (cell_rows 0 (map (λ t. t.entries) found.now.tables.items)) 2 (string_bytes texts.now.0)
        (string_bytes texts.now.1) (state S.Store conn.old) (state S.Store conn.new)) }
    ensures refused { IfErr result (λ e.
        IsStoreOrMemory e × IsRefused (state S.Store conn.old) (state S.Store conn.new)) }
    ensures clean { HasCleanDisk (state S.Store conn.new) → HasCleanDisk (state S.Store conn.old) }
{
    let nodes = node_rows(alloc, &found.tables)?;
    let cells = cell_rows(alloc, &found.tables)?;
    rewrite_store(conn, &nodes, &cells, 2, &texts.0, &texts.1)?;
    Ok(())
}

/// A base over a store of an older policy or older schemes, whose relations are widened and which gets these texts, in
/// one
/// transaction.
fn migrated<S: Alter>(
    alloc: Global,
    mut conn: Connection<S>,
    design: &Design<'_>,
    texts: &(String, String),
    older: &Older,
) -> Result<SqlBase<S>, (OpenFault, Connection<S>)>
    requires older { IsBefore design.now.policy.now design.now.file.now.schemes older.now.labels
        older.now.counts.items }
    requires described { HasCleanDisk (state S.Store conn) → AreRows is_meta_row ((state S.Store conn).now.trees 5) }
    ensures migrated { IfOk result (IsMigrated design.now.policy.now design.now.file.now.schemes older.now.labels
        older.now.counts.items (first_meta 2 (string_bytes texts.now.0) (string_bytes texts.now.1))
        (state S.Store conn)) }
    ensures content { IfOk result (HoldsContent design.now.policy.now design.now.file.now.schemes) }
    ensures untaken { IfErr result (λ e. IsUntaken (IsSoundBefore design.now.policy.now design.now.file.now.schemes
        older.now.labels older.now.counts.items) (state S.Store conn) (state S.Store e.1) e.0) }
{
    let rows = match read_store(&mut conn, alloc) {
        Ok(rows) => rows,
        Err(fault) => return Err((OpenFault::from(fault), conn)),
    };
    let mut at = Where::start();
    let found = match find_widened(alloc, design, older, rows, &mut at) {
        Ok(found) => found,
        Err(fault) => return Err((OpenFault::from(fault), conn)),
    };
    match rewritten(alloc, &mut conn, &found, texts) {
        Ok(()) => Ok(SqlBase::over_found(
            alloc,
            TableStore::over(alloc, conn),
            Noted::find(&found),
        )),
        Err(fault) => Err((fault, conn)),
    }
}

/// A base over the four tables of a connection's store, as its description says.
fn opened<S: Alter>(
    alloc: Global,
    mut conn: Connection<S>,
    design: &Design<'_>,
    texts: &(String, String),
) -> Result<SqlBase<S>, (OpenFault, Connection<S>)>
    requires texts { AreTexts design.now.policy.now design.now.file.now (string_bytes texts.now.0)
        (string_bytes texts.now.1) }
    ensures over { IfOk result (λ b. IsClean b.tables → HasCleanDisk (state S.Store conn)
        × IsBaseOf (HasHoldings (state S.Store conn).now) design.now.policy.now design.now.file.now b) }
    ensures content { IfOk result (HoldsContent design.now.policy.now design.now.file.now.schemes) }
    ensures unopened { IfErr result (λ e.
        IsUnopened design.now.policy.now design.now.file.now (state S.Store conn) (state S.Store e.1) e.0) }
{
    let described = match read_description(&mut conn, alloc) {
        Ok(described) => described,
        Err(fault) => return Err((OpenFault::from(fault), conn)),
    };
    match lineage_of(alloc, design, texts, &described) {
        Ok(Some(Lineage::Same)) => taken(alloc, conn, design),
        Ok(Some(Lineage::Older(older))) => migrated(alloc, conn, design, texts, &older),
        Ok(None) => Err((OpenFault::OtherPolicy, conn)),
        Err(_) => Err((OpenFault::Memory, conn)),
    }
}

impl<S: Alter> SqlBase<S> {
    /// A base over the store of a connection. A store that has no table, index or view gets the four tables and
    /// the row that describes it, in one transaction. Of a store with the four tables all rows are read; users
    /// and the matrix of rights are not compared. One of an older policy or older schemes, which these extend
    /// in version 2, is migrated in one transaction: its tuples get null at their key class for each new
    /// attribute. Every other store is refused as BadRows. An `Err` hands the connection back. It asks that no
    /// transaction is begun only where the connection is open and its disk clean: no more is known of one that
    /// `into_connection` gives back.
    pub fn adopt(
        alloc: Global,
        conn: Connection<S>,
        policy: &Policy,
        file: &SchemesFile,
    ) -> Result<SqlBase<S>, (OpenFault, Connection<S>)>
        requires under { AreUnder (length policy.now.labels) file.now.schemes }
        requires outside { HasCleanDisk (state S.Store conn) → IsTrue (state S.Store conn).is_open
            → (state S.Store conn).in_transaction ≡ false }
        ensures new { (state S.Store conn).now.schema ≡ no_schema → IfOk result (λ b. (state_of b).now ≡ no_content) }
        ensures over { IfOk result (λ b. IsClean b.tables → HasCleanDisk (state S.Store conn)
            × IsBaseOf (HasHoldings (state S.Store conn).now) policy.now file.now b) }
        ensures sound { IfOk result (λ b. IsSoundContent policy.now file.now.schemes (state_of b).now) }
        ensures mode { IfOk result (λ b. (state_of b).begun ≡ false) }
        ensures refused { IfErr result (λ e.
            IsUnadopted policy.now file.now (state S.Store conn) (state S.Store e.1) e.0) }
    {
        let design = Design { policy, file };
        let texts = match texts_of(alloc, &design) {
            Ok(texts) => texts,
            Err(_) => return Err((OpenFault::Memory, conn)),
        };
        if has_nothing(&conn) {
            return created(alloc, conn, &design, &texts);
        }
        opened(alloc, conn, &design, &texts)
    }
}

impl<F: Start> SqlBase<FileStore<FileFrom<F>>> {
    /// A base over the store in the files at a path, as `adopt` opens it; they are made where there are none.
    /// `F` stands for what the files held, which nobody knows before they are read: a program passes `Unknown`.
    /// New files get no sums of pages, so that other programs of SQLite read and write them. An `Err` hands the
    /// connection back where the files were opened, since only of one can be said that the store is as it was;
    /// where they were not, it is Store or Memory.
    pub fn open_from(
        rt: &HostRuntime,
        path: &str,
        start: F,
        policy: &Policy,
        file: &SchemesFile,
    ) -> Result<
        SqlBase<FileStore<FileFrom<F>>>,
        (OpenFault, Option<Connection<FileStore<FileFrom<F>>>>),
    >
        requires under { AreUnder (length policy.now.labels) file.now.schemes }
        ensures over { IfOk result (λ b. IsClean b.tables
            → IsBaseOf (FindsHoldings (image_at F.Start)) policy.now file.now b) }
        ensures sound { IfOk result (λ b. IsSoundContent policy.now file.now.schemes (state_of b).now) }
        ensures mode { IfOk result (λ b. (state_of b).begun ≡ false) }
        ensures unopened { IfErr result (λ e. e.1 ≡ None → (e.0 ≡ OpenFault.Store) ⊎ (e.0 ≡ OpenFault.Memory)) }
        ensures refused { IfErr result (λ e. IfSome e.1
            (IsFoundUnadopted policy.now file.now (image_at F.Start) e.0)) }
    {
        let conn = match connected_at(rt, path, start) {
            Ok(conn) => conn,
            Err(fault) => return Err((fault, None)),
        };
        match SqlBase::adopt_files(rt.alloc(), conn, policy, file) {
            Ok(base) => Ok(base),
            Err((fault, conn)) => Err((fault, Some(conn))),
        }
    }
}
