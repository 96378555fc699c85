//! The files of a store as they stand, for who explains it: nothing is made, and nothing is written.
//! A file without a log is read without the lock, which needs one: whoever has a store open has made its log.
use mls_host::{StoreCause, StoreFiles};
use sqlite::Unknown;
use sqlite_disk::{Disk, Files};
use sqlite_std_file::{OpenError, open};
use std::alloc::Global;
use std::fs::{self, Metadata, OpenOptions};
use std::io::{self, ErrorKind, Read};
use std::os::unix::fs::MetadataExt;
use std::path::Path;

/// Why a call of the system failed.
fn cause_of(error: io::Error) -> StoreCause {
    match error.kind() {
        ErrorKind::NotFound | ErrorKind::NotADirectory => StoreCause::NoFolder,
        ErrorKind::PermissionDenied | ErrorKind::ReadOnlyFilesystem => StoreCause::NoRight,
        ErrorKind::IsADirectory | ErrorKind::Unsupported => StoreCause::NoFile,
        ErrorKind::OutOfMemory => StoreCause::Memory,
        _ => StoreCause::Unreadable,
    }
}

/// Why the two files are not opened.
fn cause_of_open(error: OpenError) -> StoreCause {
    match error {
        OpenError::Io(error) => cause_of(error),
        OpenError::OutOfMemory => StoreCause::Memory,
        OpenError::Busy => StoreCause::InUse,
        OpenError::HotJournal => StoreCause::Journal,
    }
}

/// Whether something stands at a path, behind links.
fn is_there(rt: &HostRuntime, path: &str) -> Result<bool, StoreCause> {
    match fs::metadata(rt, path) {
        Ok(_) => Ok(true),
        Err(error) if error.kind() == ErrorKind::NotFound => Ok(false),
        Err(error) => Err(cause_of(error)),
    }
}

/// Whether this process may make files in a folder, as far as modes tell: a group's right counts for everybody.
fn may_make(rt: &HostRuntime, folder: &Metadata) -> bool {
    let both = 0o3;
    let mode = folder.mode();
    match fs::metadata(rt, "/proc/self") {
        Ok(own) if own.uid() == 0 => true,
        Ok(own) if own.uid() == folder.uid() => (mode >> 6) & both == both,
        Ok(_) => (mode | (mode >> 3)) & both == both,
        Err(_) => true,
    }
}

/// Looks whether a file can be made beside a path: in a folder that is there, and in which this process may make files.
fn check_folder(rt: &HostRuntime, path: &str) -> Result<(), StoreCause> {
    let folder = match Path::new(path).parent() {
        Some(folder) if !folder.as_str().is_empty() => folder.as_str(),
        _ => ".",
    };
    match fs::metadata(rt, folder) {
        Ok(found) if !found.is_dir() => Err(StoreCause::NoFolder),
        Ok(found) if !may_make(rt, &found) => Err(StoreCause::NoRight),
        Ok(_) => Ok(()),
        Err(error) => Err(cause_of(error)),
    }
}

/// The files of a store that is yet to be made. A link that leads nowhere stands in the way of one.
fn no_files(rt: &HostRuntime, alloc: Global, path: &str) -> Result<StoreFiles, StoreCause> {
    check_folder(rt, path)?;
    match fs::symlink_metadata(rt, path) {
        Ok(_) => Err(StoreCause::NoFile),
        Err(_) => Ok(StoreFiles {
            log: Vec::new(alloc),
            db: Vec::new(alloc),
        }),
    }
}

/// Whether SQLite left a journal at a path that is not played back: one that is empty or begins with a zero is.
fn has_journal(rt: &HostRuntime, path: &str) -> io::Result<bool> {
    let mut first = [0];
    match fs::open(rt, path) {
        Ok(mut journal) => Ok(journal.read(&mut first)? == 1 && first[0] != 0),
        Err(error) if error.kind() == ErrorKind::NotFound => Ok(false),
        Err(error) => Err(error),
    }
}

/// A database file without a log, which nobody has open then. A run reads and writes it, so it is opened for both.
fn file_alone(rt: &HostRuntime, alloc: Global, path: &str) -> io::Result<StoreFiles> {
    let mut file = OpenOptions::new().read(true).write(true).open(rt, path)?;
    if !file.metadata()?.is_file() {
        return Err(ErrorKind::Unsupported.into());
    }
    let mut db = Vec::new(alloc);
    file.read_to_end(&mut db)?;
    Ok(StoreFiles {
        log: Vec::new(alloc),
        db,
    })
}

/// All bytes of a disk, no sync of which has failed.
fn bytes_of<D: Disk>(alloc: Global, disk: &mut D) -> io::Result<Vec<u8>> {
    if !disk.may_be_used() {
        return Err(ErrorKind::InvalidData.into());
    }
    let mut bytes = Vec::new(alloc);
    bytes.resize(disk.len()?, 0)?;
    disk.read_at(0, &mut bytes)?;
    Ok(bytes)
}

/// The bytes of two files.
fn both<D: Disk + Drop>(alloc: Global, mut files: Files<D>) -> io::Result<StoreFiles> {
    Ok(StoreFiles {
        log: bytes_of(alloc, &mut files.log)?,
        db: bytes_of(alloc, &mut files.db)?,
    })
}

/// A database file beside its log, under the lock that a run has while they are read.
fn file_with_log(rt: &HostRuntime, alloc: Global, path: &str) -> Result<StoreFiles, StoreCause> {
    match open(rt, path, Unknown) {
        Ok(files) => both(alloc, files).map_err(cause_of),
        Err(error) => Err(cause_of_open(error)),
    }
}

/// A path, with what stands behind its name.
fn beside(alloc: Global, path: &str, ending: &str) -> Result<String, StoreCause> {
    format!(in alloc; "{path}{ending}").map_err(|_| StoreCause::Memory)
}

/// The files of a store that stands at a path with no link in it.
fn files_there(rt: &HostRuntime, alloc: Global, path: &str) -> Result<StoreFiles, StoreCause> {
    if is_there(rt, &beside(alloc, path, "-wal")?)? {
        return file_with_log(rt, alloc, path);
    }
    if has_journal(rt, &beside(alloc, path, "-journal")?).map_err(cause_of)? {
        return Err(StoreCause::Journal);
    }
    let files = file_alone(rt, alloc, path).map_err(cause_of)?;
    // where its log is made
    check_folder(rt, path)?;
    Ok(files)
}

/// The bytes of the files of the store at a path; none, where there is none yet.
pub fn files_at(rt: &HostRuntime, alloc: Global, path: &str) -> Result<StoreFiles, StoreCause> {
    // sqlite's names for a store in memory, and for one in a file that nobody finds
    if path == ":memory:" || path.is_empty() {
        return Err(StoreCause::NoFile);
    }
    if !is_there(rt, path)? {
        return no_files(rt, alloc, path);
    }
    match fs::canonicalize(rt, path) {
        Ok(real) => files_there(rt, alloc, real.as_str()),
        Err(error) => Err(cause_of(error)),
    }
}
