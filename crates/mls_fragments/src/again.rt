//! Bases over the two files of a store, which are closed and opened again.
ghost use Rattle.std.specs.Prelude.{◌≡◌, ◌⊎◌, false, not, length, IsTrue, IfOk, IfErr};
ghost use Rattle.sqlite.specs.Closing.{IsCopied};
ghost use Rattle.sqlite.specs.Effect.{IsDatabase};
ghost use Rattle.sqlite.specs.Files.{IsClosed, image_of, file_state};
ghost use Rattle.sqlite.specs.FileStore as store;
ghost use Rattle.sqlite.specs.Held.{state};
ghost use Rattle.sqlite.specs.State.{HasCleanDisk};
ghost use Rattle.sqlite.specs.WalReads.{AreClean};
ghost use Rattle.mls_scheme.specs.Scheme.{AreUnder};
ghost use Rattle.mls_filterview.specs.Content.{no_content};
ghost use Rattle.mls_audit.specs.Sound.{IsSoundContent};
ghost use Rattle.mls_tables.specs.Schema.{no_schema};
ghost use Rattle.mls_tables.specs.Store.{IsClean};
ghost use Rattle.mls_tables.specs.declared.rows.MetaRow.{MetaRow};
ghost use Rattle.mls_fragments.specs.Again.{AreLetGo, AreRefused, AreUnclosed, FindsHoldings, IsBaseKept};
ghost use Rattle.mls_fragments.specs.Based.{HasRow, IsBaseOf, state_of};
ghost use Rattle.mls_fragments.specs.Holdings.{HasHoldings, holdings_of};
ghost use Rattle.mls_fragments.specs.Opening.{IsUnadopted};

use crate::base::SqlBase;
use crate::connecting::{connected, fault_of};
use crate::open_fault::OpenFault;
use mls_lattice::Policy;
use mls_scheme::SchemesFile;
use sqlite::{Alter, Connection, FileStore, Files, Options};
use sqlite_disk::Disk;
use std::alloc::Global;

/// Whether a connection has committed all that it shows, which is a database where it is open.
fn is_settled<S: Alter>(conn: &Connection<S>) -> bool
    ensures value { result ≡ not (state S.Store conn.now).in_transaction }
    ensures settled { IsTrue result → IsTrue (state S.Store conn.now).is_open
        → (state S.Store conn.now).now ≡ (state S.Store conn.now).committed }
    ensures sound { IsTrue (state S.Store conn.now).is_open → IsDatabase (state S.Store conn.now).now }
{
    // for what it says of the database
    let _schema = conn.schema();
    conn.is_autocommit()
}

/// The connection of a base outside a change: it has committed all that it shows.
fn settled_connection<S: Alter>(base: SqlBase<S>) -> Connection<S>
    requires begun { (state_of base).begun ≡ false }
    ensures clean { HasCleanDisk (state S.Store result) → IsClean base.tables }
    ensures is_open { (state S.Store result).is_open ≡ base.tables.is_open }
    ensures row { IsClean base.tables → (row : MetaRow) × HasRow base row }
    ensures held { HasCleanDisk (state S.Store result) → IsTrue (state S.Store result).is_open
        → (row : MetaRow) → HasRow base row
        → HasHoldings (state S.Store result).now (holdings_of row (state_of base).now) }
    ensures settled { HasCleanDisk (state S.Store result) → IsTrue (state S.Store result).is_open
        → (state S.Store result).now ≡ (state S.Store result).committed }
    ensures sound { IsTrue (state S.Store result).is_open → IsDatabase (state S.Store result).now }
{
    let conn = base.into_connection();
    // for what it says of the last commit
    let _settled = is_settled(&conn);
    conn
}

/// The same of a base over files. Each call over these of a function that is generic over stores is dear to prove, so
/// that each such function is called by one over files, and that by all others.
fn settled_files<D: Disk + Drop>(base: SqlBase<FileStore<D>>) -> Connection<FileStore<D>>
    requires begun { (state_of base).begun ≡ false }
    ensures clean { HasCleanDisk (file_state result) → IsClean base.tables }
    ensures is_open { (file_state result).is_open ≡ base.tables.is_open }
    ensures row { IsClean base.tables → (row : MetaRow) × HasRow base row }
    ensures held { HasCleanDisk (file_state result) → IsTrue (file_state result).is_open
        → (row : MetaRow) → HasRow base row
        → HasHoldings (file_state result).now (holdings_of row (state_of base).now) }
    ensures settled { HasCleanDisk (file_state result) → IsTrue (file_state result).is_open
        → (file_state result).now ≡ (file_state result).committed }
    ensures sound { IsTrue (file_state result).is_open → IsDatabase (file_state result).now }
{
    settled_connection(base)
}

/// Gives the files of a store back, which has committed nothing more.
pub fn let_go<D: Disk + Drop>(conn: Connection<FileStore<D>>) -> Files<D>
    ensures { AreClean D.Disk result.log result.db → AreLetGo conn result }
{
    conn.into_store().close()
}

/// Closes a connection to a store in files: the database file alone then holds the last commit, also after a crash.
fn files_closed<D: Disk + Drop>(
    conn: Connection<FileStore<D>>,
) -> Result<Files<D>, (OpenFault, Files<D>)>
    ensures usable { IfOk result (λ files. IsTrue (D.Disk.is_usable files.log) × IsTrue (D.Disk.is_usable files.db)) }
    ensures copied { IfOk result (λ files. AreClean D.Disk files.log files.db → IsCopied conn files) }
    ensures was_clean { IfErr result (λ e. AreClean D.Disk e.1.log e.1.db → HasCleanDisk (file_state conn)) }
    ensures fault { IfErr result (λ e. (e.0 ≡ OpenFault.Store) ⊎ (e.0 ≡ OpenFault.Memory)) }
    ensures unclosed { IfErr result (λ e. (last : _) × ((e.1.log, e.1.db) ≡ store.files last) × IsClosed conn last) }
{
    match conn.close_files() {
        Ok(files) => Ok(files),
        Err((error, store)) => Err((fault_of(error), store.close())),
    }
}

impl<D: Disk + Drop> SqlBase<FileStore<D>> {
    /// A base over the store of a connection to files, as `adopt` makes it.
    pub(crate) fn adopt_files(
        alloc: Global,
        conn: Connection<FileStore<D>>,
        policy: &Policy,
        file: &SchemesFile,
    ) -> Result<SqlBase<FileStore<D>>, (OpenFault, Connection<FileStore<D>>)>
        requires under { AreUnder (length policy.now.labels) file.now.schemes }
        requires outside { HasCleanDisk (file_state conn) → IsTrue (file_state conn).is_open
            → (file_state conn).in_transaction ≡ false }
        ensures new { (file_state conn).now.schema ≡ no_schema → IfOk result (λ b. (state_of b).now ≡ no_content) }
        ensures over { IfOk result (λ b. IsClean b.tables → HasCleanDisk (file_state conn)
            × IsBaseOf (HasHoldings (file_state conn).now) policy.now file.now b) }
        ensures sound { IfOk result (λ b. IsSoundContent policy.now file.now.schemes (state_of b).now) }
        ensures mode { IfOk result (λ b. (state_of b).begun ≡ false) }
        ensures refused { IfErr result (λ e.
            IsUnadopted policy.now file.now (file_state conn) (file_state e.1) e.0) }
    {
        SqlBase::adopt(alloc, conn, policy, file)
    }

    /// A base over the store in the files of a disk, as `adopt` opens it. An `Err` gives the files back.
    pub fn open_files(
        alloc: Global,
        files: Files<D>,
        options: Options,
        policy: &Policy,
        file: &SchemesFile,
    ) -> Result<SqlBase<FileStore<D>>, (OpenFault, Files<D>)>
        requires under { AreUnder (length policy.now.labels) file.now.schemes }
        ensures clean { IfOk result (λ b. IsClean b.tables → AreClean D.Disk files.log files.db) }
        ensures over { IfOk result (λ b. IsClean b.tables
            → IsBaseOf (FindsHoldings (image_of D.Disk files)) policy.now file.now b) }
        ensures sound { IfOk result (λ b. IsSoundContent policy.now file.now.schemes (state_of b).now) }
        ensures mode { IfOk result (λ b. (state_of b).begun ≡ false) }
        ensures refused { IfErr result (λ e. AreRefused D.Disk policy.now file.now files e.0 e.1) }
    {
        let conn = match connected(alloc, files, options) {
            Ok(conn) => conn,
            Err(refused) => return Err(refused),
        };
        match SqlBase::adopt_files(alloc, conn, policy, file) {
            Ok(base) => Ok(base),
            Err((fault, conn)) => Err((fault, let_go(conn))),
        }
    }

    /// Lets the store go, and gives its files back.
    pub fn into_files(self) -> Files<D>
        requires begun { (state_of self).begun ≡ false }
        ensures clean { AreClean D.Disk result.log result.db → IsClean self.tables }
    {
        let_go(settled_files(self))
    }

    /// Closes the files: the database file alone then keeps what was committed, also after a crash. Where that
    /// fails, the log keeps the rest. The files come back, since nothing could be said of them else.
    pub fn close_files(self) -> Result<Files<D>, (OpenFault, Files<D>)>
        requires begun { (state_of self).begun ≡ false }
        ensures usable { IfOk result (λ files. IsTrue (D.Disk.is_usable files.log)
            × IsTrue (D.Disk.is_usable files.db)) }
        ensures clean { IfOk result (λ files. AreClean D.Disk files.log files.db → IsClean self.tables) }
        ensures kept { IfOk result (λ files. IsClean self.tables → IsBaseKept D.Disk files self) }
        ensures unclosed { IfErr result (λ e. AreUnclosed D.Disk self e.1) }
        ensures fault { IfErr result (λ e. (e.0 ≡ OpenFault.Store) ⊎ (e.0 ≡ OpenFault.Memory)) }
    {
        match files_closed(settled_files(self)) {
            Ok(files) => Ok(files),
            Err(refused) => Err(refused),
        }
    }
}
