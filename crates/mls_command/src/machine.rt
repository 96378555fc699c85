//! Files, the standard input and stores, as the program has them.
ghost use Rattle.std.specs.Prelude.{◌≡◌, ◌↔◌, Bool, false, length, None, option_map, IfOk, IfErr, IfSome, IsErr};
ghost use Rattle.mls_scheme.specs.Scheme.{AreUnder};
ghost use Rattle.mls_audit.specs.Sound.{IsSoundContent};
ghost use Rattle.mls_tables.specs.declared.rows.MetaRow.{MetaRow};
ghost use Rattle.mls_fragments.specs.Again.{FindsHoldings};
ghost use Rattle.mls_fragments.specs.Holdings.{holdings_of, IsTakenOf};
ghost use Rattle.mls_fragments.specs.Opening.{IsStoreOrMemory};
ghost use Rattle.mls_host.specs.Hosting.{AreNowhere};
ghost use Rattle.sqlite.specs.Recovery.{Image};

use crate::closing::{Left, LeftFiles, Refused, close};
use crate::documents::{Advises, ignored_of};
use crate::{private, shown};
use mls_filterview::Base;
use mls_fragments::{OpenFault, SqlBase};
use mls_host::{CloseFault, Documents, Host, HostFault, StoreCause, StoreFiles, read_whole};
use mls_lattice::Policy;
use mls_runs::Advice;
use mls_scheme::SchemesFile;
use mls_tokens::{AnyReader, LinesOf};
use sqlite::{Connection, FileFrom, FileStore, Start};
use std::alloc::{AllocError, Global};
use std::fs;
use std::io::{ErrorKind, Input, IsTerminal};
use std::snapshot::Snapshot;

/// What opens the stores at paths as bases, and closes them.
/// The checker states no field and no associated type that is a base over files, since its bound `Alter` is met by a
/// generic `impl` alone; a trait's parameter may be one.
pub trait Opens<B: Base, L: Left, R: Refused> {
    // The bytes of the store's files before it is opened.
    ghost image: { Image };

    // Whether the connection of a base is open.
    ghost was_open: { B → Bool };

    /// The base over the store at a path, which is made where there is none. An `Err` hands over what is given back of
    /// it.
    fn open(
        &mut self,
        path: &str,
        policy: &Policy,
        file: &SchemesFile,
    ) -> Result<B, (OpenFault, Option<R>)>
        requires under { AreUnder (length policy.now.labels) file.now.schemes }
        ensures idle { IfOk result (λ b. (B.seen b).state.begun ≡ false) }
        ensures fresh { IfOk result (λ b. AreNowhere (B.seen b).asked (B.seen b).changed) }
        ensures sound { IfOk result (λ b. IsSoundContent policy.now file.now.schemes (B.seen b).state.now) }
        ensures held { IfOk result (λ b. (B.seen b).is_clean
            → IsTakenOf (FindsHoldings image) policy.now file.now (B.seen b).state.now) }
        ensures unopened { IfErr result (λ e. e.1 ≡ None → IsStoreOrMemory e.0) }
        ensures barred { IfErr result (λ e. IfSome e.1 (λ back. R.bars back image policy.now file.now e.0)) };

    /// Closes the store of a base, and gives what is left of it.
    fn close(&self, store: B) -> (Result<(), CloseFault>, L)
        requires idle { (B.seen store).state.begun ≡ false }
        ensures kept { (B.seen store).is_clean → (row : MetaRow) × L.keeps result.1 (was_open store)
            (holdings_of row (B.seen store).state.now) }
        ensures closed { L.is_open result.1 ↔ IsErr result.0 };
}

/// Stores in files. `start` stands for what they held, and is there until the first is opened: a command opens no more.
#[derive(Drop)]
pub struct FilesOf<'a, F: Start> {
    pub rt: &'a HostRuntime,
    pub start: Option<F>,
}

impl<'a, F: Start> Opens<
    SqlBase<FileStore<FileFrom<F>>>,
    LeftFiles<FileFrom<F>>,
    Connection<FileStore<FileFrom<F>>>,
> for FilesOf<'a, F> {
    ghost use Rattle.sqlite.specs.WalFiles.{image_at};

    ghost image = { image_at F.Start };

    ghost was_open = { λ b. b.tables.is_open };

    fn open(
        &mut self,
        path: &str,
        policy: &Policy,
        file: &SchemesFile,
    ) -> Result<
        SqlBase<FileStore<FileFrom<F>>>,
        (OpenFault, Option<Connection<FileStore<FileFrom<F>>>>),
    > {
        let Some(start) = self.start.take() else {
            return Err((OpenFault::Store, None));
        };
        private::make(self.rt, path);
        match SqlBase::open_from(self.rt, path, start, policy, file) {
            Ok(base) => Ok(base),
            Err(refused) => Err(refused),
        }
    }

    fn close(
        &self,
        store: SqlBase<FileStore<FileFrom<F>>>,
    ) -> (Result<(), CloseFault>, LeftFiles<FileFrom<F>>) {
        close(store)
    }
}

/// What was given back, for contracts alone.
fn snapshot_of<R: Refused>(back: Option<R>) -> Option<Snapshot<R>>
    ensures { option_map (λ s. s.value) result ≡ back }
{
    match back {
        Some(back) => {
            let seen = Snapshot::of(&back);
            back.let_go();
            Some(seen)
        }
        None => None,
    }
}

/// The machine itself, and, for contracts alone, what was given back of a store that was not opened, and the store that
/// a run left, as a
/// base and as what is left of it.
pub struct Machine<'a, B: Base, L: Left, R: Refused, O> {
    rt: &'a HostRuntime,
    stores: O,
    is_terminal: bool,
    is_watched: bool,
    refused: Option<Snapshot<R>>,
    base: Option<Snapshot<B>>,
    left: Option<Snapshot<L>>,
}

// It is written out, so that no store has to be one that can be dropped.
impl<'a, B: Base, L: Left, R: Refused, O: Drop> Drop for Machine<'a, B, L, R, O> {
    fn drop(self) {
        let Machine {
            rt: _,
            stores: _,
            is_terminal: _,
            is_watched: _,
            refused: _,
            base: _,
            left: _,
        } = self;
    }
}

impl<'a, B: Base, L: Left + Drop, R: Refused, O: Opens<B, L, R>> Machine<'a, B, L, R, O> {
    /// The files and the standard input of a runtime, and stores, of which none was taken back.
    pub fn new(rt: &'a HostRuntime, stores: O) -> Machine<'a, B, L, R, O>
        ensures base { result.base ≡ None }
        ensures left { result.left ≡ None }
    {
        Machine {
            rt,
            stores,
            is_terminal: rt.stdin().is_terminal(),
            is_watched: rt.stderr().is_terminal(),
            refused: None,
            base: None,
            left: None,
        }
    }
}

impl<'a, B: Base, L: Left + Drop, R: Refused, O: Opens<B, L, R>> Host for Machine<'a, B, L, R, O> {
    ghost use Rattle.mls_command.specs.AnsweringOver.{hosting};

    ghost hosting = { hosting B.seen O.was_open O.image R.bars L.keeps L.is_open };

    type Store = B;

    type Lines = LinesOf<AnyReader<<HostRuntime as Input>::Reader>>;

    fn file(&self, alloc: Global, path: &str) -> Result<Vec<u8>, HostFault> {
        match fs::open(self.rt, path) {
            Ok(file) => read_whole(alloc, file),
            Err(e) if e.kind() == ErrorKind::OutOfMemory => Err(HostFault::Memory),
            Err(_) => Err(HostFault::Unreadable),
        }
    }

    fn input(&self, alloc: Global) -> Result<Vec<u8>, HostFault> {
        read_whole(alloc, self.rt.reader())
    }

    fn lines(&self) -> LinesOf<AnyReader<<HostRuntime as Input>::Reader>> {
        LinesOf::new(AnyReader::new(self.rt.reader()))
    }

    fn is_terminal(&self) -> bool {
        self.is_terminal
    }

    fn is_watched(&self) -> bool {
        self.is_watched
    }

    fn store(
        &mut self,
        alloc: Global,
        path: &str,
        policy: &Policy,
        file: &SchemesFile,
    ) -> Result<B, OpenFault> {
        match &self.left {
            Some(_) => Err(OpenFault::Store),
            None => match self.stores.open(path, policy, file) {
                Ok(base) => Ok(base),
                Err((fault, back)) => {
                    self.refused = snapshot_of(back);
                    Err(fault)
                }
            },
        }
    }

    fn store_files(&self, alloc: Global, path: &str) -> Result<StoreFiles, StoreCause> {
        shown::files_at(self.rt, alloc, path)
    }

    fn keep(&mut self, path: &str, store: B) -> Result<(), CloseFault> {
        let base = Snapshot::of(&store);
        let (closed, left) = self.stores.close(store);
        self.base = Some(base);
        self.left = Some(Snapshot::of(&left));
        closed
    }
}

impl<'a, B: Base, L: Left + Drop, R: Refused, O: Opens<B, L, R>> Advises
    for Machine<'a, B, L, R, O> {
    type Advice = Advice;

    fn ignored(&self, alloc: Global, documents: Option<Documents>) -> Result<String, AllocError> {
        ignored_of(alloc, self, documents)
    }
}
