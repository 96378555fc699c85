//! A base over a store in memory: its files, and how it is opened and closed.
ghost use Rattle.std.specs.Prelude.{◌≡◌, false, length, IfOk};
ghost use Rattle.sqlite.specs.Files.{file_state};
ghost use Rattle.mls_lattice.specs.Version.{version_number, later};
ghost use Rattle.mls_scheme.specs.Scheme.{AreUnder};
ghost use Rattle.mls_filterview.specs.Content.{no_content};
ghost use Rattle.mls_tables.specs.Schema.{no_schema};
ghost use Rattle.mls_tables.specs.Store.{IsClean};
ghost use Rattle.mls_fragments.specs.Based.{HasRow, state_of};
ghost use Rattle.mls_fragments.specs.Holdings.{row_of};

use crate::again::let_go;
use crate::base::SqlBase;
use crate::connecting::connected;
use crate::in_memory::InMemory;
use crate::memory_file::MemoryFile;
use mls_lattice::Policy;
use mls_scheme::SchemesFile;
use sqlite::{Connection, FileStore, Files, Options};
use std::alloc::{AllocError, Global};

/// How many pages are kept. To keep one spares one copy of it.
const CACHE_PAGES: usize = 64;

/// A base over a store in memory: over files that keep each write at once. These files refuse nothing but growths,
/// which [`SqlBase`]
/// reports as Store.
pub type MemoryBase = InMemory<SqlBase<FileStore<MemoryFile>>>;

/// A connection to an empty store in memory.
fn empty_store(alloc: Global) -> Result<Connection<FileStore<MemoryFile>>, AllocError>
    ensures empty { IfOk result (λ c. (file_state c).now.schema ≡ no_schema) }
    ensures idle { IfOk result (λ c. c.in_transaction ≡ false) }
{
    let files = Files {
        log: MemoryFile::new(alloc),
        db: MemoryFile::new(alloc),
    };
    let mut options = Options::new(0);
    options.cache_pages = CACHE_PAGES;
    match connected(alloc, files, options) {
        Ok(conn) => Ok(conn),
        Err(_) => Err(AllocError),
    }
}

impl InMemory<SqlBase<FileStore<MemoryFile>>> {
    /// An empty base, which policy and schemes describe. Nothing but want of memory refuses it.
    pub fn open(
        alloc: Global,
        policy: &Policy,
        file: &SchemesFile,
    ) -> Result<MemoryBase, AllocError>
        requires under { AreUnder (length policy.now.labels) file.now.schemes }
        ensures content { IfOk result (λ b. state_of b.base
            ≡ record { now = no_content; kept = no_content; begun = false }) }
        ensures described { IfOk result (λ b. IsClean b.base.tables
            → HasRow b.base (row_of policy.now file.now (version_number (later policy.now.version file.now.version)))) }
    {
        let conn = empty_store(alloc)?;
        match SqlBase::adopt_files(alloc, conn, policy, file) {
            Ok(base) => Ok(InMemory { base }),
            Err((_, conn)) => {
                // a connection is dearer to drop, in a proof, than files
                let _files = let_go(conn);
                Err(AllocError)
            }
        }
    }

    /// Lets the store go, which has given back what was written to it.
    pub fn close(self)
        requires begun { (state_of self.base).begun ≡ false }
        ensures clean { IsClean self.base.tables }
    {
        let InMemory { base } = self;
        let _files = base.into_files();
    }
}
