//! Disks in memory that stop.
use sqlite::Files;
use sqlite_disk::{Crash, Disk, Fuse, Memory};
use std::alloc::Global;

/// A disk that stops, and what is found of it afterwards.
pub trait Medium: Crash + Drop {
    /// A disk that holds these bytes, all of them synced, and stops after so many calls.
    fn holding(alloc: Global, bytes: &[u8], calls: u64) -> Option<Self>;

    /// The bytes that were written.
    fn bytes(&self) -> &[u8];
}

/// A file in memory with these bytes, all of them synced.
fn memory_of(alloc: Global, bytes: &[u8]) -> Option<Memory> {
    let mut memory = Memory::new(alloc);
    if !memory.may_be_used() {
        return None;
    }
    memory.write_at(0, bytes).ok()?;
    memory.sync().ok()?;
    Some(memory)
}

impl Medium for Fuse<Memory> {
    fn holding(alloc: Global, bytes: &[u8], calls: u64) -> Option<Fuse<Memory>> {
        Some(Fuse::new(memory_of(alloc, bytes)?, calls))
    }

    fn bytes(&self) -> &[u8] {
        self.inner().bytes()
    }
}

/// How many calls the log, the database file and the writer of replies take before they stop.
#[derive(Clone, Copy)]
pub struct Calls {
    pub log: u64,
    pub db: u64,
    pub replies: u64,
}

impl Calls {
    /// Nothing stops.
    pub const ALL: Calls = Calls {
        log: u64::MAX,
        db: u64::MAX,
        replies: u64::MAX,
    };
}

/// The bytes of the two files of a store.
#[derive(Drop)]
pub struct Copies {
    pub log: Vec<u8>,
    pub db: Vec<u8>,
}

impl Copies {
    /// Those of a store that is yet to be made.
    pub fn none(alloc: Global) -> Copies {
        Copies {
            log: Vec::new(alloc),
            db: Vec::new(alloc),
        }
    }

    /// What was written to files.
    pub fn of<D: Medium>(alloc: Global, files: &Files<D>) -> Option<Copies> {
        let log = files.log.bytes().to_vec(alloc).ok()?;
        let db = files.db.bytes().to_vec(alloc).ok()?;
        Some(Copies { log, db })
    }

    /// Files with these bytes, which stop after so many calls.
    pub fn files<D: Medium>(&self, alloc: Global, calls: Calls) -> Option<Files<D>> {
        let log = D::holding(alloc, &self.log, calls.log)?;
        let db = D::holding(alloc, &self.db, calls.db)?;
        Some(Files { log, db })
    }
}
