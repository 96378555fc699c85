//! Stores over copies of their files.
ghost use Rattle.std.specs.Prelude.{◌≡◌, ◌⊎◌, false, IfOk, IfErr, OnOk};
ghost use Rattle.sqlite.specs.Files.{file_state};
ghost use Rattle.mls_fragments.specs.MemoryFile.{bytes_of};
ghost use Rattle.mls_fragments.specs.Opening.{IsFoundIn};
ghost use Rattle.mls_explain.specs.Diagnosis.{image, IsSoundIn, IsOthersIn, IsBadIn};

use mls_fragments::{Design, MemoryFile, OpenFault, SqlBase, connected};
use sqlite::{Connection, FileStore, Files, Options};
use std::alloc::{AllocError, Global};

/// Why files in memory are not opened: for want of memory, where one of them could not grow.
fn fault_in_memory(files: &Files<MemoryFile>, fault: OpenFault) -> OpenFault
    ensures { (result ≡ fault) ⊎ (result ≡ OpenFault.Memory) }
{
    if files.log.has_failed() || files.db.has_failed() {
        OpenFault::Memory
    } else {
        fault
    }
}

/// Copies of a log and a database file.
fn files_of(alloc: Global, log: &[u8], db: &[u8]) -> Result<Files<MemoryFile>, AllocError>
    ensures log { IfOk result (λ files. bytes_of files.log ≡ log.now) }
    ensures db { IfOk result (λ files. bytes_of files.db ≡ db.now) }
{
    let log = Vec::from_slice(alloc, log)?;
    let db = Vec::from_slice(alloc, db)?;
    Ok(Files {
        log: MemoryFile::holding(log),
        db: MemoryFile::holding(db),
    })
}

/// A connection to the store in copies of a log and a database file.
pub(crate) fn connection(
    alloc: Global,
    log: &[u8],
    db: &[u8],
) -> Result<Connection<FileStore<MemoryFile>>, OpenFault>
    ensures found { IfOk result (λ c. IsFoundIn (image log.now db.now) (file_state c).now) }
    ensures idle { IfOk result (λ c. c.in_transaction ≡ false) }
    ensures fault { IfErr result (λ e. (e ≡ OpenFault.Store) ⊎ (e ≡ OpenFault.Memory)) }
{
    let files = files_of(alloc, log, db)?;
    match connected(alloc, files, Options::new(0)) {
        Ok(conn) => Ok(conn),
        Err((fault, files)) => Err(fault_in_memory(&files, fault)),
    }
}

/// Why the store is not opened under a policy and schemes, if it is not.
pub(crate) fn verdict(
    alloc: Global,
    log: &[u8],
    db: &[u8],
    design: &Design<'_>,
) -> Result<(), OpenFault>
    ensures sound { OnOk result (IsSoundIn design.now.policy.now design.now.file.now log.now db.now) }
    ensures others { IfErr result (λ e. e ≡ OpenFault.OtherPolicy
        → IsOthersIn design.now.policy.now design.now.file.now log.now db.now) }
    ensures bad { IfErr result (λ e. e ≡ OpenFault.BadRows
        → IsBadIn design.now.policy.now design.now.file.now log.now db.now) }
{
    let files = files_of(alloc, log, db)?;
    match SqlBase::open_files(alloc, files, Options::new(0), design.policy, design.file) {
        Ok(base) => {
            // for what it says of the disk
            let _files = base.into_files();
            Ok(())
        }
        Err((fault, files)) => Err(fault_in_memory(&files, fault)),
    }
}
