//! A machine in memory, of which contracts know all: its files, its standard input, and one store.
ghost use Rattle.std.specs.Prelude.{◌≡◌, IfOk, IfErr, option_map};
ghost use Rattle.mls_runs.specs.Memory.{IsUncopied, file_named, cause_of, in_memory_fault};

use mls_fragments::{OpenFault, SqlBase};
use mls_host::{CloseFault, Host, HostFault, StoreCause, StoreFiles};
use mls_lattice::{Items, Policy, Str};
use mls_scheme::SchemesFile;
use mls_tokens::{BytesIn, LinesOf, MOST_BYTES};
use sqlite::{Connection, MemStore};
use std::alloc::Global;
use std::io::Write;
use std::snapshot::Snapshot;

/// A file of a machine in memory: its name, and its bytes or why they are not read.
#[derive(Drop)]
pub struct HeldFile {
    pub name: Str,
    pub bytes: Result<Items<u8>, HostFault>,
}

/// A machine in memory. Its one store is opened at each path; there is none while it is open, or where it was given
/// none. A store that is
/// looked at is the file of that name, without a log.
/// Its store is a connection to the kit's store in memory, since its contents are given as one. It is in this crate,
/// since a law speaks of it.
#[derive(Drop)]
pub struct MemoryHost<'a> {
    pub files: Vec<HeldFile>,
    pub input: &'a [u8],
    pub store: Option<Connection<MemStore>>,
    /// Whether somebody reads its standard error at a terminal.
    pub is_watched: bool,
    /// Whether the store was opened, also where it was refused then.
    pub was_opened: bool,
    /// For contracts alone: the store that a run left.
    pub left: Option<Snapshot<SqlBase<MemStore>>>,
}

/// The first file of a name.
fn file_named<'a>(files: &'a [HeldFile], name: &str) -> Option<&'a HeldFile>
    ensures { option_map (λ f. f.now) result ≡ file_named files.now name.now }
{
    for file in files {
        if file.name.as_str() == name {
            return Some(file);
        }
    }
    None
}

/// A copy of bytes, which are as many as a file may have.
fn copy_of(alloc: Global, bytes: &[u8]) -> Result<Vec<u8>, HostFault>
    ensures same { IfOk result (λ copy. copy.items ≡ bytes.now) }
    ensures uncopied { IfErr result (IsUncopied bytes.now) }
{
    if bytes.len() > MOST_BYTES {
        return Err(HostFault::TooLong);
    }
    match Vec::from_slice(alloc, bytes) {
        Ok(copy) => Ok(copy),
        Err(_) => Err(HostFault::Memory),
    }
}

/// Why a store in memory is not opened: where it fails, memory ran out.
fn in_memory_fault(fault: OpenFault) -> OpenFault
    ensures { result ≡ in_memory_fault fault }
{
    match fault {
        OpenFault::Store => OpenFault::Memory,
        other => other,
    }
}

/// Why a file is not shown as a store's.
fn cause_of(fault: HostFault) -> StoreCause
    ensures { result ≡ cause_of fault }
{
    match fault {
        HostFault::Memory => StoreCause::Memory,
        HostFault::Unreadable | HostFault::TooLong => StoreCause::NoFile,
    }
}

impl<'a> Host for MemoryHost<'a> {
    ghost use Rattle.mls_runs.specs.Memory.{hosting};

    ghost hosting = { hosting };

    type Store = SqlBase<MemStore>;

    type Lines = LinesOf<BytesIn<'a>>;

    fn file(&self, alloc: Global, path: &str) -> Result<Vec<u8>, HostFault> {
        let Some(file) = file_named(&self.files, path) else {
            return Err(HostFault::Unreadable);
        };
        match &file.bytes {
            Ok(bytes) => copy_of(alloc, bytes),
            Err(fault) => Err(*fault),
        }
    }

    fn input(&self, alloc: Global) -> Result<Vec<u8>, HostFault> {
        copy_of(alloc, self.input)
    }

    fn lines(&self) -> LinesOf<BytesIn<'a>> {
        LinesOf::new(BytesIn::new(self.input))
    }

    fn is_terminal(&self) -> bool {
        false
    }

    fn is_watched(&self) -> bool {
        self.is_watched
    }

    fn store(
        &mut self,
        alloc: Global,
        path: &str,
        policy: &Policy,
        file: &SchemesFile,
    ) -> Result<SqlBase<MemStore>, OpenFault> {
        let Some(conn) = self.store.take() else {
            return Err(OpenFault::Store);
        };
        self.was_opened = true;
        if !conn.is_autocommit() {
            self.store = Some(conn);
            return Err(OpenFault::Store);
        }
        match SqlBase::adopt(alloc, conn, policy, file) {
            Ok(base) => Ok(base),
            Err((fault, conn)) => {
                // for what it says of the content, outside a change
                let _ = conn.is_autocommit();
                self.store = Some(conn);
                Err(in_memory_fault(fault))
            }
        }
    }

    fn store_files(&self, alloc: Global, path: &str) -> Result<StoreFiles, StoreCause> {
        match self.file(alloc, path) {
            Ok(db) => Ok(StoreFiles {
                log: Vec::new(alloc),
                db,
            }),
            Err(fault) => Err(cause_of(fault)),
        }
    }

    fn keep(&mut self, path: &str, store: SqlBase<MemStore>) -> Result<(), CloseFault> {
        self.left = Some(Snapshot::of(&store));
        self.store = Some(store.into_connection());
        Ok(())
    }
}
