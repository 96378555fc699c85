//! A machine with the files of a desk, whose stores are lists, and whose lines own their bytes: a function that
//! makes a machine and calls `act` takes none whose lines are borrowed.
use crate::desk::{file_of, lines_of};
use mls_command::{Advises, ignored_of};
use mls_fragments::OpenFault;
use mls_host::{CloseFault, Documents, Host, HostFault, StoreCause, StoreFiles, read_whole};
use mls_lattice::Policy;
use mls_runs::Advice;
use mls_scheme::SchemesFile;
use mls_tokens::{AnyReader, LinesOf};
use mls_updates::ListBase;
use std::alloc::{AllocError, Global};
use std::io::Cursor;
use std::rt::Files;

/// Each store is a new one, and what a run leaves in it is not kept.
#[derive(Drop)]
pub struct Lists<'a, R: Files> {
    pub rt: &'a R,
    pub script: &'a [u8],
}

impl<'a, R: Files + AllocGlobal> Host for Lists<'a, R> {
    ghost use Rattle.std.specs.Prelude.{true};

    // Any bytes and any content: what a file has is known to nobody before it is read.
    ghost hosting = { λ _. record {
      gives = λ _ _. Unit {0};
      lacks = λ _ _. Unit {0};
      types = λ _. Unit {0};
      breaks = Unit {0};
      is_terminal = true;
      is_watched = true;
      keeps = λ _ _. Unit {0};
      bars = λ _ _ _ _. Unit {0};
      shows = λ _ _ _. Unit {0};
      hides = λ _ _. Unit {0};
      ignores = λ _ _. Unit {0};
      is_honest = Unit {0};
      has_failed = ⊥;
      is_unclosed = ⊥;
      asked = λ _. ⊥;
      changed = λ _. ⊥;
    } };

    type Store = ListBase;

    type Lines = LinesOf<AnyReader<Cursor<Vec<u8>>>>;

    fn file(&self, alloc: Global, path: &str) -> Result<Vec<u8>, HostFault> {
        file_of(self.rt, self.script, alloc, path)
    }

    fn input(&self, alloc: Global) -> Result<Vec<u8>, HostFault> {
        read_whole(alloc, self.script)
    }

    fn lines(&self) -> LinesOf<AnyReader<Cursor<Vec<u8>>>> {
        lines_of(self.rt.alloc(), self.script)
    }

    fn is_terminal(&self) -> bool {
        true
    }

    fn is_watched(&self) -> bool {
        true
    }

    fn store(
        &mut self,
        alloc: Global,
        path: &str,
        policy: &Policy,
        file: &SchemesFile,
    ) -> Result<ListBase, OpenFault> {
        Ok(ListBase::new(alloc))
    }

    fn store_files(&self, alloc: Global, path: &str) -> Result<StoreFiles, StoreCause> {
        match file_of(self.rt, self.script, alloc, path) {
            Ok(db) => Ok(StoreFiles {
                log: Vec::new(alloc),
                db,
            }),
            Err(HostFault::Memory) => Err(StoreCause::Memory),
            Err(_) => Err(StoreCause::NoFolder),
        }
    }

    fn keep(&mut self, path: &str, store: ListBase) -> Result<(), CloseFault> {
        Ok(())
    }
}

impl<'a, R: Files + AllocGlobal> Advises for Lists<'a, R> {
    type Advice = Advice;

    fn ignored(&self, alloc: Global, documents: Option<Documents>) -> Result<String, AllocError> {
        ignored_of(alloc, self, documents)
    }
}
