//! Connections to the two files of a store, in which a database is made where they have none.
ghost use Rattle.std.specs.Prelude.{◌≡◌, ◌⊎◌, ◌↔◌, true, false, [], IsTrue, IfOk, IfErr};
ghost use Rattle.sqlite.specs.Files.{IsCleanLeft, image_of, file_state};
ghost use Rattle.sqlite.specs.FileStore.{view};
ghost use Rattle.sqlite.specs.State.{HasCleanDisk};
ghost use Rattle.sqlite.specs.WalFiles.{image_at};
ghost use Rattle.sqlite.specs.WalReads.{AreClean, OnlyReads};
ghost use Rattle.sqlite_std_file.specs.File.{IsFresh};
ghost use Rattle.sqlite_store.specs.Unopened.{files_of, state_of, wanted_by};
ghost use Rattle.sqlite_wal.specs.PageSize.{bytes_of};
ghost use Rattle.mls_fragments.specs.Again.{AreUnopened};
ghost use Rattle.mls_fragments.specs.Creating.{IsBlankImage, IsConnectedIn, IsMadeIn, LeavesBlank, page_bytes};
ghost use Rattle.mls_fragments.specs.Opening.{IsFoundIn};

use crate::open_fault::OpenFault;
use sqlite::{Connection, Error, ErrorCode, FileFrom, FileStore, Files, Leftover, Options, Start};
use sqlite_disk::Disk;
use sqlite_pager::Pager;
use sqlite_pool::probe_blank;
use sqlite_std_file::OpenError as PathError;
use sqlite_store::{OpenError, Unopened};
use sqlite_wal::{Error as LogError, PageSize};
use std::alloc::{AllocFailed, Global};
use std::hash::{BuildHasher, RandomState};
use std::io::ErrorKind;

/// The bytes of a page. Each commit writes whole pages to the log, with their digests and sums, so small ones are
/// cheap.
const PAGE_BYTES: usize = 1024;

/// Why the files of a store are not opened.
pub(crate) fn fault_of(error: Error) -> OpenFault
    ensures { (result ≡ OpenFault.Store) ⊎ (result ≡ OpenFault.Memory) }
{
    match error {
        Error::SqliteFailure(ErrorCode::OutOfMemory) => OpenFault::Memory,
        _ => OpenFault::Store,
    }
}

/// The size of the pages of a new file.
fn page_size() -> PageSize
    ensures { bytes_of result ≡ page_bytes }
{
    PageSize::new(PAGE_BYTES).unwrap()
}

/// Whether files have no database, but what a creation left that a crash cut off.
fn are_blank<D: Disk>(alloc: Global, files: &mut Files<D>) -> Result<bool, OpenFault>
    requires usable { IsTrue (D.Disk.is_usable files.old.log) × IsTrue (D.Disk.is_usable files.old.db) }
    ensures blank { IfOk result (λ b. AreClean D.Disk files.new.log files.new.db
        → (IsTrue b ↔ IsBlankImage (image_of D.Disk files.old))) }
    ensures log { OnlyReads D.Disk files.old.log files.new.log }
    ensures db { OnlyReads D.Disk files.old.db files.new.db }
    ensures fault { IfErr result (λ e. (e ≡ OpenFault.Store) ⊎ (e ≡ OpenFault.Memory)) }
{
    match probe_blank(alloc, files, page_size(), false) {
        Ok(is_blank) => Ok(is_blank),
        Err(LogError::OutOfMemory) => Err(OpenFault::Memory),
        Err(_) => Err(OpenFault::Store),
    }
}

/// Files of which nothing is read yet, with such pages. An `Err` gives them back.
fn unopened<D: Disk>(
    alloc: Global,
    files: Files<D>,
    options: Options,
) -> Result<Unopened<D>, Files<D>>
    ensures back { IfErr result (λ left. (left.log ≡ files.log) × (left.db ≡ files.db)) }
    ensures files { IfOk result (λ it. files_of it ≡ (files.log, files.db)) }
    ensures size { IfOk result (λ it. (state_of it).page_size ≡ page_bytes) }
    ensures none { IfOk result (λ it. wanted_by it ≡ []) }
{
    let pager = match Pager::new(alloc, files, page_size(), options) {
        Ok(pager) => pager,
        Err(AllocFailed { value }) => return Err(value),
    };
    match Unopened::new(alloc, pager, &[]) {
        Ok(fresh) => Ok(fresh),
        Err(AllocFailed { value }) => Err(value.close()),
    }
}

/// Why a database is not made.
fn fault_of_making(error: OpenError) -> OpenFault
    ensures { (result ≡ OpenFault.Store) ⊎ (result ≡ OpenFault.Memory) }
{
    match error {
        OpenError::OutOfMemory => OpenFault::Memory,
        _ => OpenFault::Store,
    }
}

/// An empty database, which is made in blank files. A later call takes up what one left that a crash cut off.
fn made<D: Disk + Drop>(
    alloc: Global,
    files: Files<D>,
    options: Options,
) -> Result<FileStore<D>, (OpenFault, Leftover<D>)>
    requires usable { IsTrue (D.Disk.is_usable files.log) × IsTrue (D.Disk.is_usable files.db) }
    requires blank { AreClean D.Disk files.log files.db → IsBlankImage (image_of D.Disk files) }
    ensures made { IfOk result (λ s. IsTrue (view s).is_clean → IsMadeIn files s) }
    ensures left { IfErr result (λ e. IsCleanLeft e.1
        → IsBlankImage (image_of D.Disk files) × LeavesBlank files e.1) }
    ensures fault { IfErr result (λ e. (e.0 ≡ OpenFault.Store) ⊎ (e.0 ≡ OpenFault.Memory)) }
{
    let fresh = match unopened(alloc, files, options) {
        Ok(fresh) => fresh,
        Err(files) => return Err((OpenFault::Memory, Leftover::Files(files))),
    };
    match fresh.create() {
        Ok(store) => Ok(store),
        Err((error, left)) => Err((fault_of_making(error), Leftover::Unopened(left))),
    }
}

/// A connection to such a database.
fn connected_new<D: Disk + Drop>(
    alloc: Global,
    files: Files<D>,
    options: Options,
) -> Result<Connection<FileStore<D>>, (OpenFault, Leftover<D>)>
    requires usable { IsTrue (D.Disk.is_usable files.log) × IsTrue (D.Disk.is_usable files.db) }
    requires blank { AreClean D.Disk files.log files.db → IsBlankImage (image_of D.Disk files) }
    ensures made { IfOk result (λ c. HasCleanDisk (file_state c) → IsConnectedIn files c) }
    ensures idle { IfOk result (λ c. c.in_transaction ≡ false) }
    ensures left { IfErr result (λ e. IsCleanLeft e.1
        → IsBlankImage (image_of D.Disk files) × LeavesBlank files e.1) }
    ensures fault { IfErr result (λ e. (e.0 ≡ OpenFault.Store) ⊎ (e.0 ≡ OpenFault.Memory)) }
{
    let store = match made(alloc, files, options) {
        Ok(store) => store,
        Err(failed) => return Err(failed),
    };
    match Connection::over(alloc, store) {
        Ok(conn) => Ok(conn),
        Err((error, store)) => Err((fault_of(error), Leftover::Store(store))),
    }
}

/// A connection to the store in files. One is made where the database file is empty, with pages of 1,024 bytes, or
/// where a crash cut off that it was made. Files that may not be used are given back.
pub fn connected<D: Disk + Drop>(
    alloc: Global,
    mut files: Files<D>,
    options: Options,
) -> Result<Connection<FileStore<D>>, (OpenFault, Files<D>)>
    ensures found { IfOk result (λ c. HasCleanDisk (file_state c)
        → IsFoundIn (image_of D.Disk files) (file_state c).now) }
    ensures clean { IfOk result (λ c. HasCleanDisk (file_state c) → AreClean D.Disk files.log files.db) }
    ensures idle { IfOk result (λ c. c.in_transaction ≡ false) }
    ensures fault { IfErr result (λ e. (e.0 ≡ OpenFault.Store) ⊎ (e.0 ≡ OpenFault.Memory)) }
    ensures unopened { IfErr result (λ e. AreUnopened D.Disk files e.1) }
{
    if !files.may_be_used() {
        return Err((OpenFault::Store, files));
    }
    let is_new = match are_blank(alloc, &mut files) {
        Ok(is_new) => is_new,
        Err(fault) => return Err((fault, files)),
    };
    if is_new {
        return match connected_new(alloc, files, options) {
            Ok(conn) => Ok(conn),
            Err((fault, left)) => Err((fault, left.into_files())),
        };
    }
    match Connection::open_files(alloc, files, options) {
        Ok(conn) => Ok(conn),
        Err((error, left)) => Err((fault_of(error), left.into_files())),
    }
}

/// The files at a path, which are made where there are none.
fn files_at<F: Start>(
    rt: &HostRuntime,
    path: &str,
    start: F,
) -> Result<Files<FileFrom<F>>, OpenFault>
    ensures fresh { IfOk result (λ files. IsFresh true files.log × IsFresh false files.db) }
    ensures fault { IfErr result (λ e. (e ≡ OpenFault.Store) ⊎ (e ≡ OpenFault.Memory)) }
{
    // SQLite's names for a store in memory, and for what is no path
    if path == ":memory:" || path.starts_with("file:") {
        return Err(OpenFault::Store);
    }
    match sqlite_std_file::open(rt, path, start) {
        Ok(files) => Ok(files),
        Err(PathError::OutOfMemory) => Err(OpenFault::Memory),
        Err(PathError::Io(error)) if error.kind() == ErrorKind::OutOfMemory => {
            Err(OpenFault::Memory)
        }
        Err(_) => Err(OpenFault::Store),
    }
}

/// How much is kept in memory, and a random number for the log.
fn options(rt: &HostRuntime) -> Result<Options, OpenFault>
    ensures { IfErr result (λ e. e ≡ OpenFault.Store) }
{
    let seed = RandomState::new(rt)
        .map_err(|_| OpenFault::Store)?
        .hash_one(&0u8);
    Ok(Options::new(seed))
}

/// A connection to the store in the files at a path.
pub(crate) fn connected_at<F: Start>(
    rt: &HostRuntime,
    path: &str,
    start: F,
) -> Result<Connection<FileStore<FileFrom<F>>>, OpenFault>
    ensures found { IfOk result (λ c. HasCleanDisk (file_state c) → IsFoundIn (image_at F.Start) (file_state c).now) }
    ensures idle { IfOk result (λ c. c.in_transaction ≡ false) }
    ensures fault { IfErr result (λ e. (e ≡ OpenFault.Store) ⊎ (e ≡ OpenFault.Memory)) }
{
    let options = options(rt)?;
    let files = files_at(rt, path, start)?;
    match connected(rt.alloc(), files, options) {
        Ok(conn) => Ok(conn),
        Err((fault, _)) => Err(fault),
    }
}
